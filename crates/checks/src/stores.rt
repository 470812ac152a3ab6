//! Stores by example.
use base::refusal::Refusal;
use page_store::page_store::PageStore;
use std::process::Abort;
use std::test::Fail;
use store::install::install;
use store::node_store::NodeStore;
use store::store::Store;
use tree::node::Node;
use worked_tree::WORKED;

/// A store of four places.
fn four_places(rt: &HostRuntime) -> Result<NodeStore, Fail> {
    Ok(NodeStore::new(Vec::from_slice(rt.alloc(), &[Node::None; 4])?))
}

/// A page store of fifty bytes.
fn some_bytes(rt: &HostRuntime) -> Result<PageStore, Fail> {
    let page = Vec::from_slice(rt.alloc(), &[0u8; 50])?;
    let index = Vec::from_slice(rt.alloc(), &[0usize; 1])?;
    Ok(PageStore::new(page, index))
}

/// Puts each node, and says by what the last one was refused or accepted.
fn put_all<T: Store>(store: &mut T, nodes: &[Node]) -> Result<(), Refusal> {
    let draft = store.begin();
    let last = nodes
        .iter()
        .fold(Ok(()), |_, node| store.put(&draft, *node));
    store.finish(draft)?;
    last
}

/// A draft that is left over when another was taken back: its store is closed, and refuses it.
fn refuses_when_closed<T: Store>(rt: &impl Abort, store: &mut T) {
    let draft = store.begin();
    let spare = store.begin();
    let first = store.put(&spare, WORKED[0]);
    let closed = store.finish(spare);
    let late = store.put(&draft, WORKED[1]);
    let scrapped = store.scrap(draft);
    assert_eq!(rt; first, Ok(()));
    assert_eq!(rt; closed, Ok(()));
    assert_eq!(rt; late, Err(Refusal::StoreClosed));
    assert_eq!(rt; scrapped, Err(Refusal::StoreClosed));
    assert_eq!(rt; store.is_open(), false);
    assert_eq!(rt; store.count(), 1);
    assert_eq!(rt; store.node(0), WORKED[0]);
    assert_eq!(rt; store.node(1), Node::None);
}

/// What was put into an open store is gone when its draft is scrapped.
fn is_empty_when_scrapped<T: Store>(rt: &impl Abort, store: &mut T) {
    let draft = store.begin();
    let put = store.put(&draft, WORKED[0]);
    let open = store.is_open();
    let scrapped = store.scrap(draft);
    assert_eq!(rt; put, Ok(()));
    assert_eq!(rt; open, true);
    assert_eq!(rt; scrapped, Ok(()));
    assert_eq!(rt; store.is_open(), false);
    assert_eq!(rt; store.count(), 0);
    assert_eq!(rt; store.node(0), Node::None);
}

#[test]
fn a_closed_store_refuses(rt: HostRuntime) -> Result<(), Fail> {
    let mut store = four_places(&rt)?;
    refuses_when_closed(&rt, &mut store);
    is_empty_when_scrapped(&rt, &mut store);
    let mut pages = some_bytes(&rt)?;
    refuses_when_closed(&rt, &mut pages);
    is_empty_when_scrapped(&rt, &mut pages);
    Ok(())
}

#[test]
fn four_places_refuse_a_fifth_node(rt: HostRuntime) -> Result<(), Fail> {
    let mut store = four_places(&rt)?;
    assert_eq!(rt; put_all(&mut store, &WORKED), Err(Refusal::StoreFull));
    assert_eq!(rt; store.count(), 4);
    for (place, node) in WORKED[..4].iter().enumerate() {
        assert_eq!(rt; store.node(place), *node);
    }
    assert_eq!(rt; store.node(4), Node::None);
    Ok(())
}

#[test]
fn a_tree_that_does_not_fit_leaves_the_old_one(rt: HostRuntime) -> Result<(), Fail> {
    let mut store = four_places(&rt)?;
    let old = [Node::Head { n: 2, p: 0 }, Node::None];
    assert_eq!(rt; install(&mut store, &old, 2), Ok(()));
    assert_eq!(rt; install(&mut store, &WORKED, 5), Err(Refusal::StoreFull));
    assert_eq!(rt; store.count(), 2);
    assert_eq!(rt; store.node(0), old[0]);
    assert_eq!(rt; store.is_open(), false);
    assert_eq!(rt; install(&mut store, &WORKED, 4), Ok(()));
    assert_eq!(rt; store.count(), 4);
    assert_eq!(rt; store.node(3), WORKED[3]);
    Ok(())
}
