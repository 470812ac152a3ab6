//! Loop nests: from loops and the cell that they post to, to a system whose least point is the latest posting.
#![tactic(auto)]

pub mod nest;
pub mod numbers;
