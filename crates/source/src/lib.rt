//! Systems of linear inequalities: what one means, and where one comes from.
#![tactic(auto)]

pub mod counts;
pub mod limits;
pub mod rows;
pub mod source;
#[cfg(test)]
mod tests;
