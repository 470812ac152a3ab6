//! A store over a page of bytes.
#![tactic(auto)]

pub mod page_store;
pub mod read;
pub mod write;
