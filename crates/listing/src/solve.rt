//! A listing solved on a sheet, and its answer as text.
ghost use Rattle.std.specs.Prelude.{◌≡◌, length, IfOk, string_bytes};
ghost use Rattle.listing.specs.Solving.{answer_text, sheet_left, text_solved, work_left};
ghost use Rattle.listing.specs.Texts.{tree_text};

use crate::read::read;
use crate::show::{RefusalText, TreeText};
use base::refusal::Refusal;
use sheet::sheet::Sheet;
use solver::run::Solved;
use std::alloc::{AllocError, Global};
use store::node_store::NodeStore;
use store::store::Store;
use tree::node::Node;

/// How many nodes the work table of a listing has, and its store too.
pub const WORK: usize = 64;

/// Reads a listing and solves it on the sheet. A text that is refused leaves the sheet and the work table as they were.
pub fn solve_text<T: Store>(
    sheet: &mut Sheet<T>,
    text: &[u8],
    work: &mut [Node],
) -> Result<Solved, Refusal>
    ensures answer { result ≡ text_solved sheet.old text.now (length work.old) }
    ensures left { sheet.new ≡ sheet_left sheet.old text.now (length work.old) }
    ensures work { work.new ≡ work_left sheet.old text.now work.old }
{
    let listing = read(text)?;
    sheet.solve(&listing.source, work, listing.fuel)
}

/// The nodes of a sheet's tree.
pub fn nodes_of<T: Store>(heap: Global, sheet: &Sheet<T>) -> Result<Vec<Node>, AllocError>
    ensures made { IfOk result (λ nodes. nodes.items ≡ sheet.now.nodes) }
{
    let mut nodes = Vec::new(heap);
    for place in 0..sheet.count() {
        nodes.push(sheet.node(place))?;
    }
    Ok(nodes)
}

/// A sheet's tree and the steps made, as text.
fn sheet_text<T: Store>(heap: Global, sheet: &Sheet<T>, steps: u32) -> Result<String, AllocError>
    ensures made { IfOk result (λ s. string_bytes s ≡ tree_text sheet.now.nodes steps) }
{
    let nodes = nodes_of(heap, sheet)?;
    let nodes = nodes.as_slice();
    TreeText { nodes, steps }.to_string(heap)
}

/// What is printed for a listing: its solution tree and the steps, or by which number it is refused.
pub fn answer_text(heap: Global, text: &[u8]) -> Result<String, AllocError>
    ensures made { IfOk result (λ s. string_bytes s ≡ answer_text text.now) }
{
    let mut work = [Node::None; WORK];
    let table = vec![in heap; Node::None; WORK]?;
    let mut sheet = Sheet::new(NodeStore::new(table));
    match solve_text(&mut sheet, text, &mut work) {
        Ok(solved) => sheet_text(heap, &sheet, solved.steps),
        Err(refusal) => RefusalText(refusal).to_string(heap),
    }
}
