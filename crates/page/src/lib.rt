//! A solution tree as bytes: records, the check of a page, writing and reading back.
#![tactic(auto)]

pub mod back;
pub mod check;
pub mod number;
pub mod record;
pub mod reply;
pub mod write;
