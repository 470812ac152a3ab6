//! The latest posting of a nest, asked of a sheet.
#![tactic(auto)]

pub mod latest;
