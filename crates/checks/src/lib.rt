//! What the crates do on examples. They stand here, and not beside the code, so that each crate is proved once.
#![tactic(auto)]

#[cfg(test)]
mod latest_postings;
#[cfg(test)]
mod nests;
#[cfg(test)]
mod page_stores;
#[cfg(test)]
mod questions;
#[cfg(test)]
mod sheets;
#[cfg(test)]
mod solves;
#[cfg(test)]
mod stores;
