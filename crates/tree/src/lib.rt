//! Solution trees: the nodes that they are written in, and what they answer at a parameter point.
#![tactic(auto)]

pub mod kind;
mod known;
pub mod node;
pub mod state;
pub mod walk;
