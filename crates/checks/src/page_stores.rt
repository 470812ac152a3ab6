//! Page stores by example.
use base::refusal::Refusal;
use page::check::check;
use page_store::page_store::PageStore;
use std::test::Fail;
use store::install::install;
use store::store::Store;
use tree::node::Node;
use worked_tree::WORKED;

#[test]
fn the_worked_tree_fits_571_bytes(rt: HostRuntime) -> Result<(), Fail> {
    let page = Vec::from_slice(rt.alloc(), &[0u8; 571])?;
    let index = Vec::from_slice(rt.alloc(), &[0usize; 2])?;
    let mut store = PageStore::new(page, index);
    assert_eq!(rt; install(&mut store, &WORKED, 5), Ok(()));
    assert_eq!(rt; store.count(), 5);
    for (place, node) in WORKED.iter().enumerate() {
        assert_eq!(rt; store.node(place), *node);
    }
    assert_eq!(rt; store.node(5), Node::None);
    let page = store.into_page();
    assert_eq!(rt; page.len(), 571);
    assert_eq!(rt; check(page.as_slice()), Ok(5));
    assert_eq!(rt; page.get(0), Some(&1));
    assert_eq!(rt; page.get(3), Some(&3));
    assert_eq!(rt; page.get(7), Some(&255));
    Ok(())
}

#[test]
fn in_570_bytes_the_old_tree_stands(rt: HostRuntime) -> Result<(), Fail> {
    let page = Vec::from_slice(rt.alloc(), &[0u8; 570])?;
    let index = Vec::from_slice(rt.alloc(), &[0usize; 0])?;
    let mut store = PageStore::new(page, index);
    let old = [Node::Head { n: 2, p: 0 }, Node::None];
    assert_eq!(rt; install(&mut store, &old, 2), Ok(()));
    assert_eq!(rt; install(&mut store, &WORKED, 5), Err(Refusal::StoreFull));
    assert_eq!(rt; store.count(), 2);
    assert_eq!(rt; store.node(0), old[0]);
    assert_eq!(rt; store.node(1), Node::None);
    assert_eq!(rt; store.listed().len(), 4);
    Ok(())
}
