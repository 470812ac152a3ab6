//! What a node store does.
ghost use Rattle.std.specs.Prelude.{◌≡◌, vec_len};
ghost use Rattle.store.specs.NodeStores.{meaning_of, unit_costs};
ghost use Rattle.store.specs.Stores.{after_finish, after_scrap, close_answer, fresh};

use super::{NodeDraft, NodeStore, Nodes};
use crate::gate::Gate;
use crate::store::Store;
use base::refusal::Refusal;
use tree::kind::Kind;
use tree::node::Node;

impl NodeStore {
    /// A store over this table, closed and empty.
    pub fn new(table: Vec<Node>) -> NodeStore
        ensures answer { meaning_of result ≡ fresh (vec_len table) unit_costs }
    {
        NodeStore {
            table,
            count: 0,
            gate: Gate::new(Nodes { mark: () }),
        }
    }
}

// Finish and scrap repeat the trait's clauses: rattle cannot give them to a method that takes a draft by value.
impl Store for NodeStore {
    type Mark = Nodes;

    ghost meaning = { meaning_of };

    fn begin(&mut self) -> NodeDraft {
        self.count = 0;
        self.gate.open()
    }

    fn put(&mut self, draft: &NodeDraft, node: Node) -> Result<(), Refusal> {
        self.gate.pass(draft)?;
        let count = self.count;
        let free = self.table.len() - count;
        if free < 1 {
            return Err(Refusal::StoreFull);
        }
        self.table[count] = node;
        self.count = count + 1;
        Ok(())
    }

    fn finish(&mut self, draft: NodeDraft) -> Result<(), Refusal>
        ensures answer { result ≡ close_answer (meaning_of self.old) }
        ensures left { meaning_of self.new ≡ after_finish (meaning_of self.old) }
    {
        self.gate.close(draft)
    }

    fn scrap(&mut self, draft: NodeDraft) -> Result<(), Refusal>
        ensures answer { result ≡ close_answer (meaning_of self.old) }
        ensures left { meaning_of self.new ≡ after_scrap (meaning_of self.old) }
    {
        self.finish(draft)?;
        self.count = 0;
        Ok(())
    }

    fn node(&self, place: usize) -> Node {
        if place < self.count {
            self.table[place]
        } else {
            Node::None
        }
    }

    fn count(&self) -> usize {
        self.count
    }

    fn cost(&self, _kind: Kind) -> usize {
        1
    }

    fn capacity(&self) -> usize {
        self.table.len()
    }

    fn is_open(&self) -> bool {
        self.gate.is_open()
    }
}
