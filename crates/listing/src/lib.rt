//! Listings: a system and its fuel as text, and the answer as text.
#![tactic(auto)]

mod body;
mod counts;
mod numbers;
pub mod read;
pub mod show;
pub mod solve;
#[cfg(test)]
mod tests;
pub mod word;
