//! What a page store does.
ghost use Rattle.std.specs.Prelude.{◌≡◌, ◌+◌, ◌<◌, ◌≤◌, true, take, vec_len, slice_set};
ghost use Rattle.store.specs.Stores.{after_finish, after_put, after_scrap, begun, close_answer, fresh, put_answer, used};
ghost use Rattle.page.specs.Records.{cost_of, holdable, page_of, pasted, record_of};
ghost use Rattle.page_store.specs.Costs.{byte_costs};
ghost use Rattle.page_store.specs.PageStores.{bytes_after_put, bytes_of, meaning_of, offset_of};

use super::{PageDraft, PageStore, Pages};
use crate::read::{length_of, node_from};
use crate::write::write_record;
use base::refusal::Refusal;
use page::write::record_length;
use store::gate::Gate;
use store::store::Store;
use tree::kind::Kind;
use tree::node::Node;

impl PageStore {
    /// A store over this page, closed and empty.
    pub fn new(page: Vec<u8>, index: Vec<usize>) -> PageStore
        ensures answer { meaning_of result ≡ fresh (vec_len page) byte_costs }
        ensures bytes { bytes_of result ≡ page.items }
    {
        PageStore {
            page,
            index,
            count: 0,
            used: 0,
            gate: Gate::new(Pages { mark: () }),
        }
    }

    /// The offset of the record at a place: from the last one up to there that the index has, from record to record.
    fn offset(&self, place: usize) -> usize
        requires { place < self.now.count }
        ensures answer { result ≡ offset_of self.now place }
    {
        let noted = place.min(self.index.len().saturating_sub(1));
        let mut at = self.index.get(noted).copied().unwrap_or(0);
        // a loop: the closure of a fold would not know that the offset is within the page
        for _ in noted..place {
            at += length_of(self.page[at]);
        }
        at
    }

    /// The listed part: it is the page of the listed nodes.
    pub fn listed(&self) -> &[u8]
        ensures answer { result.now ≡ page_of (meaning_of self.now).nodes }
    {
        &self.page[..self.used]
    }

    /// The whole page, taken out again.
    pub fn into_page(self) -> Vec<u8>
        ensures answer { result.items ≡ bytes_of self }
        ensures listed { take (used byte_costs (meaning_of self).nodes) result.items ≡ page_of (meaning_of self).nodes }
    {
        let PageStore { page, .. } = self;
        page
    }
}

/// Notes the offset of a place, if the index has that place.
fn note(index: &mut Vec<usize>, place: usize, offset: usize)
    ensures left { index.new.items ≡ slice_set index.old.items place offset }
{
    if let Some(noted) = index.get_mut(place) {
        *noted = offset;
    }
}

/// Writes the record of a node into the page.
fn write(page: &mut Vec<u8>, at: usize, node: &Node)
    requires { at + cost_of node.now ≤ vec_len page.old }
    ensures left { page.new.items ≡ pasted at (record_of node.now) page.old.items }
    ensures size { vec_len page.new ≡ vec_len page.old }
    ensures numbers { holdable node.now ≡ true }
{
    write_record(page.as_mut_slice(), at, node);
}

// The trait speaks of the meaning. What stands in the page after the listed part is said here besides.
impl Store for PageStore {
    type Mark = Pages;

    ghost meaning = { meaning_of };

    fn begin(&mut self) -> PageDraft
        ensures left { meaning_of self.new ≡ begun (meaning_of self.old) }
        ensures bytes { bytes_of self.new ≡ bytes_of self.old }
    {
        self.count = 0;
        self.used = 0;
        self.gate.open()
    }

    fn put(&mut self, draft: &PageDraft, node: Node) -> Result<(), Refusal>
        ensures answer { result ≡ put_answer (meaning_of self.old) node }
        ensures left { meaning_of self.new ≡ after_put (meaning_of self.old) node }
        ensures bytes { bytes_of self.new ≡ bytes_after_put self.old node }
    {
        self.gate.pass(draft)?;
        let units = record_length(node.kind());
        let used = self.used;
        let free = self.page.len() - used;
        if free < units {
            return Err(Refusal::StoreFull);
        }
        let count = self.count;
        write(&mut self.page, used, &node);
        note(&mut self.index, count, used);
        self.count = count + 1;
        self.used = used + units;
        Ok(())
    }

    fn finish(&mut self, draft: PageDraft) -> Result<(), Refusal>
        ensures answer { result ≡ close_answer (meaning_of self.old) }
        ensures left { meaning_of self.new ≡ after_finish (meaning_of self.old) }
        ensures bytes { bytes_of self.new ≡ bytes_of self.old }
    {
        self.gate.close(draft)
    }

    fn scrap(&mut self, draft: PageDraft) -> Result<(), Refusal>
        ensures answer { result ≡ close_answer (meaning_of self.old) }
        ensures left { meaning_of self.new ≡ after_scrap (meaning_of self.old) }
        ensures bytes { bytes_of self.new ≡ bytes_of self.old }
    {
        self.finish(draft)?;
        self.count = 0;
        self.used = 0;
        Ok(())
    }

    fn node(&self, place: usize) -> Node {
        if place < self.count {
            let at = self.offset(place);
            node_from(self.page.as_slice(), at)
        } else {
            Node::None
        }
    }

    fn count(&self) -> usize {
        self.count
    }

    fn cost(&self, kind: Kind) -> usize {
        record_length(kind)
    }

    fn capacity(&self) -> usize {
        self.page.len()
    }

    fn is_open(&self) -> bool {
        self.gate.is_open()
    }
}
