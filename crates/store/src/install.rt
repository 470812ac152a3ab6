//! A tree from a work table, put into any store: all of it, or nothing.
ghost use Rattle.std.specs.Prelude.{◌≡◌, take};
ghost use Rattle.base.specs.Refusals.{reported};
ghost use Rattle.store.specs.Stores.{install_answer, install_report, installed};

use crate::store::Store;
use base::refusal::Refusal;
use tree::node::Node;

/// Whether the nodes would fit into the store, were it empty. The units left go down from the
/// capacity, so that no sum can pass the largest number.
fn fits<T: Store>(store: &T, nodes: &[Node]) -> Result<(), Refusal>
    ensures answer { result ≡ install_answer (T.meaning store.now) nodes.now }
{
    let mut left = store.capacity();
    for node in nodes {
        let units = store.cost(node.kind());
        left = left.checked_sub(units).ok_or(Refusal::StoreFull)?;
    }
    Ok(())
}

/// Lists these nodes in place of what was there, and closes the store; 23 if they do not fit.
fn replace<T: Store>(store: &mut T, nodes: &[Node]) -> Result<(), Refusal>
    ensures answer { result ≡ install_answer (T.meaning store.old) nodes.now }
    ensures left { T.meaning store.new ≡ installed (T.meaning store.old) nodes.now }
{
    fits(store, nodes)?;
    let draft = store.begin();
    for node in nodes {
        // never: all of them fit, and the store is open. A draft has to be taken back all the same
        if let Err(refusal) = store.put(&draft, *node) {
            let _ = store.scrap(draft);
            return Err(refusal);
        }
    }
    store.finish(draft)
}

/// Lists the first `count` nodes of the work table (all of them, if it has no more) in place of
/// what was there, and closes the store; 23 if they do not fit, and then the store is untouched.
pub fn install<T: Store>(store: &mut T, work: &[Node], count: usize) -> Result<(), Refusal>
    ensures answer { result ≡ install_answer (T.meaning store.old) (take count work.now) }
    ensures report { reported result ≡ install_report (T.meaning store.old) (take count work.now) }
    ensures left { T.meaning store.new ≡ installed (T.meaning store.old) (take count work.now) }
{
    replace(store, work.get(..count).unwrap_or(work))
}
