//! Row sources by example.
use crate::limits::MAX_ROWS;
use crate::rows::RowSource;
use crate::source::Source;
use base::refusal::Refusal;
use std::test::Fail;

#[test]
fn rows_are_read_back(rt: HostRuntime) -> Result<(), Fail> {
    let mut source = RowSource::new(2, 3)?;
    source.enter(&[1, -2, 0, 7, 0, -1_000_000])?;
    source.confine(&[0, 0, 1, -5])?;
    assert_eq!(rt; source.number(0, 1), -2);
    assert_eq!(rt; source.number(0, 5), -1_000_000);
    assert_eq!(rt; source.number(0, 6), 0);
    assert_eq!(rt; source.number(1, 0), 0);
    assert_eq!(rt; source.context_number(0, 3), -5);
    Ok(())
}

#[test]
fn a_seventeenth_row_is_refused(rt: HostRuntime) -> Result<(), Fail> {
    let mut source = RowSource::new(1, 0)?;
    for _ in 0..MAX_ROWS {
        source.enter(&[1, 0])?;
    }
    assert_eq!(rt; source.enter(&[1, 0]), Err(Refusal::RowShape));
    assert_eq!(rt; source.rows(), MAX_ROWS);
    Ok(())
}

#[test]
fn a_large_number_is_refused_by_its_column(rt: HostRuntime) -> Result<(), Fail> {
    let mut source = RowSource::new(2, 1)?;
    let large = Refusal::Number { row: 0, column: 2 };
    assert_eq!(rt;
        source.enter(&[1, 1_000_000, 1_000_001, -1_000_001]),
        Err(large)
    );
    assert_eq!(rt; source.rows(), 0);
    Ok(())
}

#[test]
fn length_comes_before_numbers(rt: HostRuntime) -> Result<(), Fail> {
    let mut source = RowSource::new(2, 1)?;
    assert_eq!(rt; source.enter(&[1_000_001, 0, 0]), Err(Refusal::RowShape));
    assert_eq!(rt; source.confine(&[1_000_001]), Err(Refusal::RowShape));
    Ok(())
}
