//! What the store without room does.
ghost use Rattle.std.specs.Prelude.{◌≡◌};
ghost use Rattle.store.specs.Stores.{after_finish, after_scrap, close_answer, fresh};
ghost use Rattle.store.specs.NodeStores.{unit_costs};
ghost use Rattle.drafts.specs.Nothings.{meaning_of};

use super::Nothing;
use base::refusal::Refusal;
use store::gate::{Draft, Gate};
use store::store::Store;
use tree::kind::Kind;
use tree::node::Node;

impl Nothing {
    /// Such a store, closed.
    pub fn new() -> Nothing
        ensures answer { meaning_of result ≡ fresh 0 unit_costs }
    {
        Nothing {
            gate: Gate::new(()),
        }
    }
}

impl Store for Nothing {
    type Mark = ();

    ghost meaning = { meaning_of };

    fn begin(&mut self) -> Draft<()> {
        self.gate.open()
    }

    fn put(&mut self, draft: &Draft<()>, _node: Node) -> Result<(), Refusal> {
        self.gate.pass(draft)?;
        Err(Refusal::StoreFull)
    }

    fn finish(&mut self, draft: Draft<()>) -> Result<(), Refusal>
        ensures answer { result ≡ close_answer (meaning_of self.old) }
        ensures left { meaning_of self.new ≡ after_finish (meaning_of self.old) }
    {
        self.gate.close(draft)
    }

    fn scrap(&mut self, draft: Draft<()>) -> Result<(), Refusal>
        ensures answer { result ≡ close_answer (meaning_of self.old) }
        ensures left { meaning_of self.new ≡ after_scrap (meaning_of self.old) }
    {
        self.gate.close(draft)
    }

    fn node(&self, _place: usize) -> Node {
        Node::None
    }

    fn count(&self) -> usize {
        0
    }

    fn cost(&self, _kind: Kind) -> usize {
        1
    }

    fn capacity(&self) -> usize {
        0
    }

    fn is_open(&self) -> bool {
        self.gate.is_open()
    }
}
