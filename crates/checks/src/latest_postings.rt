//! Nests on a sheet by example: solve, then the latest posting.
use crate::nests::pairs;
use base::refusal::Refusal;
use nest::nest::Nest;
use postings::latest::{latest, solve};
use sheet::sheet::Sheet;
use std::process::Abort;
use std::test::Fail;
use store::node_store::NodeStore;
use tree::node::Node;
use tree::walk::Found;

/// A sheet over a store of sixteen nodes.
fn sixteen_nodes(rt: &HostRuntime) -> Result<Sheet<NodeStore>, Fail> {
    let table = Vec::from_slice(rt.alloc(), &[Node::None; 16])?;
    Ok(Sheet::new(NodeStore::new(table)))
}

/// Asks at a parameter point, and compares the answer and the counters that are left.
fn says(
    rt: &impl Abort,
    sheet: &Sheet<NodeStore>,
    nest: &Nest,
    point: &[i64],
    want: Result<Found, Refusal>,
    counters: [i64; 6],
) {
    let mut place = [9; 6];
    assert_eq!(rt; latest(sheet, nest, point, &mut place), want);
    assert_eq!(rt; place, counters);
}

#[test]
fn a_solved_nest_says_its_latest_posting(rt: HostRuntime) -> Result<(), Fail> {
    let nest = pairs()?;
    let mut sheet = sixteen_nodes(&rt)?;
    says(&rt, &sheet, &nest, &[4, 3, 0], Err(Refusal::NoTree), [0; 6]);
    let solved = solve(&mut sheet, &nest, &mut [Node::None; 16], 90)?;
    assert_eq!(rt; solved.steps, 90);
    assert_eq!(rt; solved.nodes, 11);
    says(&rt, &sheet, &nest, &[3, 3, 0], Ok(Found::None), [0; 6]);
    says(
        &rt,
        &sheet,
        &nest,
        &[4, 3, 0],
        Ok(Found::Point),
        [2, 0, 0, 0, 0, 0],
    );
    says(
        &rt,
        &sheet,
        &nest,
        &[4, 3],
        Err(Refusal::PointLength),
        [0; 6],
    );
    says(
        &rt,
        &sheet,
        &nest,
        &[4, 3, -1],
        Err(Refusal::PointNumber),
        [0; 6],
    );
    Ok(())
}

#[test]
fn another_nest_does_not_stand(rt: HostRuntime) -> Result<(), Fail> {
    let mut sheet = sixteen_nodes(&rt)?;
    solve(&mut sheet, &pairs()?, &mut [Node::None; 16], 90)?;
    let still = Nest::new(2, 3)?;
    says(
        &rt,
        &sheet,
        &still,
        &[4, 3, 0],
        Err(Refusal::BeyondBound),
        [0; 6],
    );
    Ok(())
}
