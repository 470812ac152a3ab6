//! A store over a page of bytes.
ghost use Rattle.std.specs.Prelude.{◌≡◌, ◌≤◌, true, length, take, vec_len};
ghost use Rattle.page.specs.Records.{all_holdable, nodes_in, page_of};
ghost use Rattle.page_store.specs.Listed.{Indexed};

use store::gate::{Draft, Gate};

pub mod acts;

/// The mark of a page store's gate and drafts: only this module can make one.
#[derive(Drop)]
pub struct Pages {
    mark: (),
}

/// Lists the nodes whose records stand first in the page; the page's length is the capacity. Page
/// and index are handed in, so that neither making the store nor a put can want for memory.
#[derive(Drop)]
pub struct PageStore {
    page: Vec<u8>,
    /// The offsets of the first records, for as many of them as it has places.
    index: Vec<usize>,
    count: usize,
    used: usize,
    gate: Gate<Pages>,
    ghost within: { used ≤ vec_len page },
    ghost whole: { take used page.items ≡ page_of (nodes_in count page.items) },
    ghost all: { length (nodes_in count page.items) ≡ count },
    ghost numbers: { all_holdable (nodes_in count page.items) ≡ true },
    ghost indexed: { Indexed index.items (nodes_in count page.items) },
}

/// A draft of a page store.
pub type PageDraft = Draft<Pages>;
