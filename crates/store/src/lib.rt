//! Stores of solution trees: what one means, one over a table of nodes, and trees put into any of them.
#![tactic(auto)]

pub mod ask;
pub mod gate;
pub mod install;
pub mod node_store;
pub mod store;
