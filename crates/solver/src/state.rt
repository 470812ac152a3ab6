//! What the work at a node goes on from.
use crate::context::Context;
use tableau::table::Table;

// A refused move leaves a table that is out of range: `StateReady` cannot stand in the type.
/// Table and context, by value, the cuts made on the path, and how many splits may still stand one
/// below the other. Each branch of a split has its own.
#[derive(Clone, Copy)]
pub struct State {
    pub table: Table,
    pub context: Context,
    pub cuts: usize,
    pub left: u8,
}
