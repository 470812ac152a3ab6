//! Drafts as a caller holds them: begun, shown to each put, and taken back, by code for any store and
//! by code for each store that there is. `.ci/misuses` edits each line of a copy of this file that takes
//! a draft back, and sees that neither a forgotten draft nor one used after it was taken back compiles.
#![tactic(auto)]

mod nothing;

use base::refusal::Refusal;
use nothing::Nothing;
use page_store::page_store::PageStore;
use store::node_store::NodeStore;
use store::store::Store;
use tree::node::Node;

// The callers look alike, and stay apart: the gate edits each of them.
/// Lists one node in any store.
fn list_in_any<T: Store>(store: &mut T, node: Node) -> Result<(), Refusal> {
    let draft = store.begin();
    let put = store.put(&draft, node);
    let closed = store.finish(draft);
    put.and(closed)
}

/// Puts one node into any store, and thinks better of it.
fn scrap_in_any<T: Store>(store: &mut T, node: Node) -> Result<(), Refusal> {
    let draft = store.begin();
    let put = store.put(&draft, node);
    let closed = store.scrap(draft);
    put.and(closed)
}

/// Lists one node in a node store.
fn list_in_nodes(store: &mut NodeStore, node: Node) -> Result<(), Refusal> {
    let draft = store.begin();
    let put = store.put(&draft, node);
    let closed = store.finish(draft);
    put.and(closed)
}

/// Puts one node into a node store, and thinks better of it.
fn scrap_in_nodes(store: &mut NodeStore, node: Node) -> Result<(), Refusal> {
    let draft = store.begin();
    let put = store.put(&draft, node);
    let closed = store.scrap(draft);
    put.and(closed)
}

/// Lists one node in a page store.
fn list_in_pages(store: &mut PageStore, node: Node) -> Result<(), Refusal> {
    let draft = store.begin();
    let put = store.put(&draft, node);
    let closed = store.finish(draft);
    put.and(closed)
}

/// Puts one node into a page store, and thinks better of it.
fn scrap_in_pages(store: &mut PageStore, node: Node) -> Result<(), Refusal> {
    let draft = store.begin();
    let put = store.put(&draft, node);
    let closed = store.scrap(draft);
    put.and(closed)
}

/// Offers one node to the store that has room for none.
fn list_in_nothing(store: &mut Nothing, node: Node) -> Result<(), Refusal> {
    let draft = store.begin();
    let put = store.put(&draft, node);
    let closed = store.finish(draft);
    put.and(closed)
}

/// Offers it one node, and thinks better of it.
fn scrap_in_nothing(store: &mut Nothing, node: Node) -> Result<(), Refusal> {
    let draft = store.begin();
    let put = store.put(&draft, node);
    let closed = store.scrap(draft);
    put.and(closed)
}

/// Tells how many nodes a store lists after a call.
fn tell<T: Store>(rt: &HostRuntime, store: &T, answer: Result<(), Refusal>) -> anyhow::Result<()> {
    match answer {
        Ok(()) => println!(rt; "listed {}", store.count())?,
        Err(refusal) => println!(rt;
            "refused {} listed {}",
            refusal.report().number,
            store.count()
        )?,
    }
    Ok(())
}

fn run(rt: &HostRuntime) -> anyhow::Result<()> {
    let node = Node::Head { n: 1, p: 0 };

    let mut nodes = NodeStore::new(Vec::from_slice(rt.alloc(), &[Node::None; 1])?);
    let listed = list_in_any(&mut nodes, node);
    tell(rt, &nodes, listed)?;
    let scrapped = scrap_in_any(&mut nodes, node);
    tell(rt, &nodes, scrapped)?;
    let listed = list_in_nodes(&mut nodes, node);
    tell(rt, &nodes, listed)?;
    let scrapped = scrap_in_nodes(&mut nodes, node);
    tell(rt, &nodes, scrapped)?;

    let page = Vec::from_slice(rt.alloc(), &[0u8; 3])?;
    let index = Vec::from_slice(rt.alloc(), &[0usize; 1])?;
    let mut pages = PageStore::new(page, index);
    let listed = list_in_pages(&mut pages, node);
    tell(rt, &pages, listed)?;
    let scrapped = scrap_in_pages(&mut pages, node);
    tell(rt, &pages, scrapped)?;

    let mut nothing = Nothing::new();
    let listed = list_in_nothing(&mut nothing, node);
    tell(rt, &nothing, listed)?;
    let scrapped = scrap_in_nothing(&mut nothing, node);
    tell(rt, &nothing, scrapped)
}

fn main(rt: HostRuntime) -> anyhow::Result<()> {
    run(&rt)
}
