//! Questions to lists of nodes, and to stores, by example.
use base::refusal::Refusal;
use page_store::page_store::PageStore;
use std::process::Abort;
use std::test::Fail;
use store::ask;
use store::install::install;
use store::node_store::NodeStore;
use store::store::Store;
use tree::node::Node;
use tree::walk::{Found, find};
use worked_tree::{WORKED, form, leaf};

/// Asks the list at k, and compares what it says, and the first and last number of the place.
fn asks(rt: &impl Abort, nodes: &[Node], k: i64, want: Result<Found, Refusal>, first: i64) {
    let mut place = [7; 6];
    assert_eq!(rt; find(nodes, &[k], &mut place), want);
    assert_eq!(rt; place[0], first);
    assert_eq!(rt; place[5], 0);
}

fn answers(rt: &impl Abort, nodes: &[Node], k: i64, first: i64) {
    asks(rt, nodes, k, Ok(Found::Point), first);
}

fn says(rt: &impl Abort, nodes: &[Node], k: i64, want: Result<Found, Refusal>) {
    asks(rt, nodes, k, want, 0);
}

#[test]
fn the_worked_tree_answers(rt: HostRuntime) {
    answers(&rt, &WORKED, 0, 0);
    answers(&rt, &WORKED, 3, 2);
    answers(&rt, &WORKED, 4, 2);
    answers(&rt, &WORKED, 1_000_000, 500_000);
}

#[test]
fn questions_are_refused_in_order(rt: HostRuntime) {
    let mut place = [7; 6];
    says(&rt, &[], 0, Err(Refusal::NoTree));
    says(&rt, &[Node::None], 0, Err(Refusal::NoTree));
    says(&rt, &[Node::Head { n: 7, p: 1 }], 0, Err(Refusal::NoTree));
    assert_eq!(rt;
        find(&WORKED, &[-1, 0], &mut place),
        Err(Refusal::PointLength)
    );
    assert_eq!(rt; place[0], 0);
    says(&rt, &WORKED, -1, Err(Refusal::PointNumber));
    says(&rt, &WORKED, 1_000_001, Err(Refusal::PointNumber));
}

#[test]
fn keeps_bound_the_question(rt: HostRuntime) {
    let head = Node::Head { n: 1, p: 1 };
    let most = Node::Keep(form(-1, 0, 10));
    let list = [head, most, leaf(form(1, 0, 1))];
    answers(&rt, &list, 10, 11);
    says(&rt, &list, 11, Err(Refusal::OutsideKeep));
    says(&rt, &[head, most, Node::None], 3, Ok(Found::None));
}

#[test]
fn a_list_that_is_no_tree_answers_none(rt: HostRuntime) {
    let head = Node::Head { n: 1, p: 1 };
    let one = Node::New {
        d: 1,
        form: form(0, 0, 0),
    };
    let large = Node::New {
        d: 2,
        form: form(2, 0, 0),
    };
    let third = Node::New {
        d: 2,
        form: form(1, 0, 1),
    };
    let end = leaf(form(0, 1, 0));
    says(&rt, &[head], 0, Ok(Found::None));
    says(&rt, &[head, one, end], 5, Ok(Found::None));
    says(&rt, &[head, large, end], 5, Ok(Found::None));
    says(&rt, &[head, head, end], 5, Ok(Found::None));
    says(
        &rt,
        &[head, Node::Split(form(-1, 0, 0)), end],
        5,
        Ok(Found::None),
    );
    answers(&rt, &[head, third, third, third, third, third, end], 5, 3);
    says(
        &rt,
        &[head, third, third, third, third, third, third, end],
        5,
        Ok(Found::None),
    );
}

/// An empty store has no tree; with the worked tree it answers as that does.
fn answers_as_listed<T: Store>(rt: &impl Abort, store: &mut T) {
    let mut place = [7; 6];
    assert_eq!(rt; ask::find(store, &[3], &mut place), Err(Refusal::NoTree));
    assert_eq!(rt; place, [0; 6]);
    assert_eq!(rt; install(store, &WORKED, 5), Ok(()));
    for (k, first) in [(0, 0), (3, 2), (4, 2)] {
        assert_eq!(rt; ask::find(store, &[k], &mut place), Ok(Found::Point));
        assert_eq!(rt; place, [first, 0, 0, 0, 0, 0]);
    }
}

#[test]
fn stores_are_asked_as_their_lists_are(rt: HostRuntime) -> Result<(), Fail> {
    let table = Vec::from_slice(rt.alloc(), &[Node::None; 5])?;
    answers_as_listed(&rt, &mut NodeStore::new(table));
    let page = Vec::from_slice(rt.alloc(), &[0u8; 571])?;
    let index = Vec::from_slice(rt.alloc(), &[0usize; 2])?;
    answers_as_listed(&rt, &mut PageStore::new(page, index));
    Ok(())
}
