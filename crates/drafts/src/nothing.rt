//! A store of one's own that has room for nothing.
use store::gate::Gate;

pub mod acts;

/// Lists nothing, ever. Its mark is the least that there is, and `Drop` besides.
#[derive(Drop)]
pub struct Nothing {
    gate: Gate<()>,
}
