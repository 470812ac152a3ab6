//! Sheets by example: the worked tree on a sheet, over stores and work tables that hold it and that do not.
use crate::solves::{all_blank, half};
use base::refusal::{Met, Place, Refusal};
use page_store::page_store::PageStore;
use sheet::call::{Answer, Call};
use sheet::run::run;
use sheet::sheet::Sheet;
use solver::count::{Count, Stopped};
use solver::run::Solved;
use source::rows::RowSource;
use std::process::Abort;
use std::test::Fail;
use store::node_store::NodeStore;
use store::store::Store;
use tree::node::Node;
use tree::walk::Found;
use worked_tree::WORKED;

/// What a solve of 2 × unknown ≥ k is answered.
const SOLVED: Solved = Solved {
    steps: 12,
    nodes: 5,
};

/// A sheet over a table of five nodes.
fn five_nodes(rt: &HostRuntime) -> Result<Sheet<NodeStore>, Fail> {
    let table = Vec::from_slice(rt.alloc(), &[WORKED[1]; 5])?;
    Ok(Sheet::new(NodeStore::new(table)))
}

/// A sheet over a page of so many bytes.
fn bytes(rt: &HostRuntime, length: usize) -> Result<Sheet<PageStore>, Fail> {
    let page = vec![in rt.alloc(); 0u8; length]?;
    let index = Vec::from_slice(rt.alloc(), &[0usize; 5])?;
    Ok(Sheet::new(PageStore::new(page, index)))
}

/// Asks at k, and compares the answer and the least unknown that is left, with zeros after it.
fn says<T: Store>(
    rt: &impl Abort,
    sheet: &Sheet<T>,
    k: i64,
    want: Result<Found, Refusal>,
    least: i64,
) {
    let mut place = [9; 6];
    assert_eq!(rt; sheet.find(&[k], &mut place), want);
    assert_eq!(rt; place, [least, 0, 0, 0, 0, 0]);
}

#[test]
fn the_worked_tree_stands_on_a_sheet(rt: HostRuntime) -> Result<(), Fail> {
    let mut sheet = five_nodes(&rt)?;
    let mut work = [WORKED[1]; 6];
    says(&rt, &sheet, 3, Err(Refusal::NoTree), 0);
    assert_eq!(rt; sheet.solve(&half()?, &mut work, 12), Ok(SOLVED));
    assert_eq!(rt; &work[..5], WORKED.as_slice());
    assert_eq!(rt; work[5], Node::None);
    says(&rt, &sheet, 0, Ok(Found::Point), 0);
    says(&rt, &sheet, 3, Ok(Found::Point), 2);
    says(&rt, &sheet, 4, Ok(Found::Point), 2);
    assert_eq!(rt; sheet.count(), 5);
    assert_eq!(rt; sheet.wipe(), 5);
    says(&rt, &sheet, 3, Err(Refusal::NoTree), 0);
    Ok(())
}

#[test]
fn a_work_table_of_four_is_full(rt: HostRuntime) -> Result<(), Fail> {
    let mut sheet = five_nodes(&rt)?;
    let met = Met {
        steps: 12,
        place: Place::Node,
    };
    let mut four = [WORKED[1]; 4];
    let answer = sheet.solve(&half()?, &mut four, 12);
    assert_eq!(rt; answer, Err(Refusal::WorkFull(met)));
    all_blank(&rt, &four);
    Ok(())
}

#[test]
fn in_570_bytes_no_tree_stands(rt: HostRuntime) -> Result<(), Fail> {
    let mut sheet = bytes(&rt, 570)?;
    let mut work = [WORKED[1]; 6];
    let answer = sheet.solve(&half()?, &mut work, 12);
    assert_eq!(rt; answer, Err(Refusal::StoreFull));
    all_blank(&rt, &work);
    says(&rt, &sheet, 3, Err(Refusal::NoTree), 0);
    Ok(())
}

#[test]
fn a_tree_of_612_bytes_leaves_the_one_of_571(rt: HostRuntime) -> Result<(), Fail> {
    let mut sheet = bytes(&rt, 571)?;
    let mut source = half()?;
    let mut work = [WORKED[1]; 6];
    assert_eq!(rt; sheet.solve(&source, &mut work, 12), Ok(SOLVED));
    source.confine(&[1, 0])?;
    let full = Stopped {
        why: Refusal::StoreFull,
        count: Count {
            steps: 12,
            nodes: 6,
        },
    };
    let answer = sheet.solve_counted(&source, &mut work, 100);
    assert_eq!(rt; answer, Err(full));
    all_blank(&rt, &work);
    says(&rt, &sheet, 3, Ok(Found::Point), 2);
    Ok(())
}

#[test]
fn a_list_of_calls_is_run(rt: HostRuntime) -> Result<(), Fail> {
    let source = half()?;
    let mut sheet = five_nodes(&rt)?;
    let mut work = [WORKED[1]; 5];
    let point = Vec::from_slice(rt.alloc(), &[3])?;
    let calls = [
        Call::Solve { source, fuel: 12 },
        Call::Find { point },
        Call::Wipe,
    ];
    let answers = run::<NodeStore, RowSource>(&mut sheet, rt.alloc(), &mut work, &calls)?;
    let place = [2, 0, 0, 0, 0, 0];
    let said = Ok(Found::Point);
    assert_eq!(rt; answers.len(), 3);
    assert_eq!(rt; answers[0], Answer::Solved(Ok(SOLVED)));
    assert_eq!(rt; answers[1], Answer::Found { said, place });
    assert_eq!(rt; answers[2], Answer::Wiped(5));
    assert_eq!(rt; work, WORKED);
    assert_eq!(rt; sheet.count(), 0);
    Ok(())
}
