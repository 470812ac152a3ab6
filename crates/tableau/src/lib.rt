//! The working table: rows in lowest terms, the entering column, pivots and cuts.
#![tactic(auto)]

pub mod column;
pub mod cut;
pub mod cut_numbers;
pub mod pair;
pub mod pivot;
pub mod row;
pub mod table;
