//! Nests by example.
use base::refusal::Refusal;
use nest::nest::Nest;
use source::source::Source;
use std::process::Abort;
use std::test::Fail;

/// Loops i to m and j to n that post to cell 2i + j, over the parameters k, m, n: the postings to cell k.
pub(crate) fn pairs() -> Result<Nest, Refusal> {
    let mut nest = Nest::new(2, 3)?;
    nest.bound(0, &[0, 1, 0, 0])?;
    nest.bound(1, &[0, 0, 1, 0])?;
    nest.cell(&[2, 1, -1, 0, 0, 0])?;
    Ok(nest)
}

fn check_row(rt: &impl Abort, nest: &Nest, row: usize, want: &[i64; 6]) {
    for (column, number) in want.iter().enumerate() {
        assert_eq!(rt; nest.number(row, column), *number);
    }
    assert_eq!(rt; nest.number(row, 6), 0);
}

#[test]
fn the_rows_of_two_loops(rt: HostRuntime) -> Result<(), Fail> {
    let nest = pairs()?;
    assert_eq!(rt; nest.rows(), 4);
    check_row(&rt, &nest, 0, &[-1, 0, 0, 1, 0, 0]);
    check_row(&rt, &nest, 1, &[0, -1, 0, 0, 1, 0]);
    check_row(&rt, &nest, 2, &[-2, -1, -1, 2, 1, 0]);
    check_row(&rt, &nest, 3, &[2, 1, 1, -2, -1, 0]);
    check_row(&rt, &nest, 4, &[0, 0, 0, 0, 0, 0]);
    Ok(())
}

#[test]
fn a_later_bound_is_put_in(rt: HostRuntime) -> Result<(), Fail> {
    let mut nest = pairs()?;
    nest.bound(0, &[0, 0, 0, 300])?;
    check_row(&rt, &nest, 0, &[-1, 0, 0, 0, 0, 300]);
    check_row(&rt, &nest, 2, &[-2, -1, -1, 0, 1, 600]);
    check_row(&rt, &nest, 3, &[2, 1, 1, 0, -1, -600]);
    Ok(())
}

#[test]
fn what_is_no_bound_or_condition_is_refused(rt: HostRuntime) -> Result<(), Fail> {
    let mut nest = pairs()?;
    let shape = Err(Refusal::NestShape);
    assert_eq!(rt; nest.bound(2, &[0, 0, 0, 0]), shape);
    assert_eq!(rt; nest.bound(0, &[0, 0, 0]), shape);
    assert_eq!(rt; nest.bound(0, &[0, 0, 0, -301]), shape);
    assert_eq!(rt; nest.cell(&[0, 0, 0, 0, 0]), shape);
    assert_eq!(rt; nest.cell(&[301, 0, 0, 0, 0, 0]), shape);
    check_row(&rt, &nest, 0, &[-1, 0, 0, 1, 0, 0]);
    nest.cell(&[-300, 0, 0, 0, 0, 300])?;
    nest.cell(&[0, 0, 0, 0, 0, 0])?;
    assert_eq!(rt; nest.rows(), 8);
    assert_eq!(rt; nest.cell(&[0, 0, 0, 0, 0, 0]), shape);
    assert_eq!(rt; nest.rows(), 8);
    Ok(())
}

/// No nest has so many loops and parameters.
fn check_refused(rt: &impl Abort, n: usize, p: usize) {
    assert!(rt; matches!(Nest::new(n, p), Err(Refusal::Counts)));
}

#[test]
fn the_counts_and_context_rows_are_a_systems(rt: HostRuntime) -> Result<(), Fail> {
    check_refused(&rt, 0, 0);
    check_refused(&rt, 7, 4);
    check_refused(&rt, 6, 5);
    let mut nest = Nest::new(6, 4)?;
    assert_eq!(rt; nest.confine(&[1, 2, 3, 4]), Err(Refusal::RowShape));
    let large = Refusal::Number { row: 0, column: 4 };
    assert_eq!(rt; nest.confine(&[1, 2, 3, 4, 1_000_001]), Err(large));
    nest.confine(&[1, 2, 3, 4, -1_000_000])?;
    assert_eq!(rt; nest.context_rows(), 1);
    assert_eq!(rt; nest.context_number(0, 4), -1_000_000);
    assert_eq!(rt; nest.unknowns(), 6);
    assert_eq!(rt; nest.parameters(), 4);
    Ok(())
}

#[test]
fn back_turns_a_point_round(rt: HostRuntime) -> Result<(), Fail> {
    let nest = pairs()?;
    let mut place = [9; 6];
    nest.back(&[4, 3, 0], &[1, 0, 9, 9, 9, 9], &mut place)?;
    assert_eq!(rt; place, [2, 0, 0, 0, 0, 0]);
    Ok(())
}

/// Asks back, and compares by what it is refused; the place then holds zeros.
fn back_refused(rt: &impl Abort, nest: &Nest, point: &[i64], numbers: &[i64; 6], want: Refusal) {
    let mut place = [9; 6];
    assert_eq!(rt; nest.back(point, numbers, &mut place), Err(want));
    assert_eq!(rt; place, [0; 6]);
}

#[test]
fn back_is_refused_in_order(rt: HostRuntime) -> Result<(), Fail> {
    let nest = pairs()?;
    let beyond = [4, 0, 0, 0, 0, 0];
    back_refused(&rt, &nest, &[-1, 3], &beyond, Refusal::PointLength);
    back_refused(&rt, &nest, &[-1, 3, 0], &beyond, Refusal::PointNumber);
    back_refused(
        &rt,
        &nest,
        &[4, 3, 1_000_001],
        &beyond,
        Refusal::PointNumber,
    );
    back_refused(&rt, &nest, &[4, 3, 0], &beyond, Refusal::BeyondBound);
    back_refused(
        &rt,
        &nest,
        &[4, 3, 0],
        &[-1, 0, 0, 0, 0, 0],
        Refusal::BeyondBound,
    );
    Ok(())
}
