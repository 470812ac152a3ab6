//! The solver: node work, splits and tests of the context, over a work table of nodes.
#![tactic(auto)]

pub mod context;
pub mod count;
pub mod node;
pub mod read;
pub mod run;
pub mod settle;
pub mod sign;
pub mod start;
pub mod state;
pub mod test;
pub mod turn;
