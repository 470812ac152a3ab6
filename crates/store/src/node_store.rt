//! A store over a table of nodes.
ghost use Rattle.std.specs.Prelude.{◌≤◌, vec_len};

use crate::gate::{Draft, Gate};
use tree::node::Node;

pub mod acts;

/// The mark of a node store's gate and drafts: only this module can make one.
#[derive(Drop)]
pub struct Nodes {
    mark: (),
}

/// Lists its first nodes; the table's length is the capacity. The table is handed in, so that
/// neither making the store nor a put can want for memory, and the count stands beside it.
#[derive(Drop)]
pub struct NodeStore {
    table: Vec<Node>,
    count: usize,
    gate: Gate<Nodes>,
    ghost within: { count ≤ vec_len table },
}

/// A draft of a node store.
pub type NodeDraft = Draft<Nodes>;
