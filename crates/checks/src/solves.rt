//! Solves by example: work tables of several lengths, and fuel at its edges.
use base::refusal::{Met, Place, Refusal};
use solver::count::{Count, Stopped};
use solver::run::{Solved, solve_counted, solve_into};
use source::rows::RowSource;
use std::process::Abort;
use std::test::Fail;
use tree::node::Node;
use worked_tree::WORKED;

/// 2 × unknown ≥ k.
pub(crate) fn half() -> Result<RowSource, Refusal> {
    let mut source = RowSource::new(1, 1)?;
    source.enter(&[2, -1, 0])?;
    Ok(source)
}

pub(crate) fn all_blank(rt: &impl Abort, work: &[Node]) {
    for node in work {
        assert_eq!(rt; *node, Node::None);
    }
}

#[test]
fn a_tree_fills_just_its_nodes(rt: HostRuntime) -> Result<(), Fail> {
    let source = half()?;
    let mut work = [WORKED[1]; 7];
    let solved = Solved {
        steps: 12,
        nodes: 5,
    };
    assert_eq!(rt; solve_into(&source, &mut work[..5], 12), Ok(solved));
    assert_eq!(rt; &work[..5], WORKED.as_slice());
    assert_eq!(rt; work[5], WORKED[1]);
    assert_eq!(rt; solve_into(&source, &mut work, 100_000), Ok(solved));
    assert_eq!(rt; &work[..5], WORKED.as_slice());
    all_blank(&rt, &work[5..]);
    Ok(())
}

#[test]
fn shorter_work_tables_are_full_and_left_blank(rt: HostRuntime) -> Result<(), Fail> {
    let source = half()?;
    for length in 0..5usize {
        let mut work = [WORKED[1]; 5];
        let answer = solve_into(&source, &mut work[..length], 12);
        assert!(rt; matches!(answer, Err(Refusal::WorkFull(_))));
        all_blank(&rt, &work[..length]);
    }
    Ok(())
}

fn stopped(why: Refusal, steps: u32, nodes: usize) -> Result<Solved, Stopped> {
    Err(Stopped {
        why,
        count: Count { steps, nodes },
    })
}

#[test]
fn a_refusal_comes_with_its_steps(rt: HostRuntime) -> Result<(), Fail> {
    // a parameter of at least 1 and at most 0: the test of the context pivots once
    let mut source = RowSource::new(1, 1)?;
    source.confine(&[1, -1])?;
    source.confine(&[-1, 0])?;
    let mut work = [WORKED[1]; 5];
    let none = stopped(Refusal::NoParameterPoint, 1, 0);
    assert_eq!(rt; solve_counted(&source, &mut work, 1), none);
    let met = Met {
        steps: 0,
        place: Place::Test,
    };
    let spent = stopped(Refusal::FuelSpent(met), 0, 0);
    assert_eq!(rt; solve_counted(&source, &mut work, 0), spent);
    let fuel = stopped(Refusal::Fuel, 0, 0);
    assert_eq!(rt; solve_counted(&source, &mut work, -1), fuel);
    // the last of five nodes comes after the twelve steps of the tree
    let full = Met {
        steps: 12,
        place: Place::Node,
    };
    let full = stopped(Refusal::WorkFull(full), 12, 4);
    assert_eq!(rt; solve_counted(&half()?, &mut work[..4], 12), full);
    all_blank(&rt, &work[..4]);
    Ok(())
}

#[test]
fn fuel_has_its_limits(rt: HostRuntime) -> Result<(), Fail> {
    let source = half()?;
    let mut work = [WORKED[1]; 5];
    assert_eq!(rt; solve_into(&source, &mut work, -1), Err(Refusal::Fuel));
    all_blank(&rt, &work);
    assert_eq!(rt; solve_into(&source, &mut work, 100_001), Err(Refusal::Fuel));
    let met = Met {
        steps: 11,
        place: Place::Test,
    };
    assert_eq!(rt;
        solve_into(&source, &mut work, 11),
        Err(Refusal::FuelSpent(met))
    );
    all_blank(&rt, &work);
    Ok(())
}
