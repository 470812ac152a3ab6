//! What every layer counts with: whole numbers, forms of the parameters, refusals.
#![tactic(auto)]

pub mod divisor;
pub mod form;
pub mod number;
pub mod refusal;
