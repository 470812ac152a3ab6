//! What a store is.
ghost use Rattle.std.specs.Prelude.{◌≡◌, length};
ghost use Rattle.store.specs.Stores.{Meaning, begun, cost_of, put_answer, after_put, close_answer, after_finish, after_scrap, node_at};

use crate::gate::Draft;
use base::refusal::Refusal;
use tree::kind::Kind;
use tree::node::Node;

/// Where a tree is kept. Its meaning is the list of nodes, whether it is open, the capacity in
/// units and what a node of each kind costs; every call is a definition over that meaning.
pub trait Store {
    /// The mark of its gate and drafts; let it be no other store's. A store chooses its mark only: its drafts are a gate's, so
    /// whatever the mark, one that is forgotten, or used after it was taken back, does not compile.
    type Mark;

    ghost meaning: { Self → Meaning };

    /// Empties and opens the store. At an open store a further draft is handed out.
    fn begin(&mut self) -> Draft<Self::Mark>
        ensures left { meaning self.new ≡ begun (meaning self.old) };

    /// Appends a node: 25 at a closed store, 23 where fewer units are free than the node costs.
    fn put(&mut self, draft: &Draft<Self::Mark>, node: Node) -> Result<(), Refusal>
        ensures answer { result ≡ put_answer (meaning self.old) node }
        ensures left { meaning self.new ≡ after_put (meaning self.old) node };

    /// Closes the store: 25 if it is closed already. The draft is gone either way.
    fn finish(&mut self, draft: Draft<Self::Mark>) -> Result<(), Refusal>
        ensures answer { result ≡ close_answer (meaning self.old) }
        ensures left { meaning self.new ≡ after_finish (meaning self.old) };

    /// Closes the store and empties it: 25 if it is closed already. The draft is gone either way.
    fn scrap(&mut self, draft: Draft<Self::Mark>) -> Result<(), Refusal>
        ensures answer { result ≡ close_answer (meaning self.old) }
        ensures left { meaning self.new ≡ after_scrap (meaning self.old) };

    /// The node at a place, from 0; the node none past the list.
    fn node(&self, place: usize) -> Node
        ensures answer { result ≡ node_at (meaning self.now) place };

    /// How many nodes are listed.
    fn count(&self) -> usize
        ensures answer { result ≡ length (meaning self.now).nodes };

    /// How many units a node of this kind costs.
    fn cost(&self, kind: Kind) -> usize
        ensures answer { result ≡ cost_of (meaning self.now).costs kind };

    /// How many units there are, free or not.
    fn capacity(&self) -> usize
        ensures answer { result ≡ (meaning self.now).capacity };

    /// Whether it is open.
    fn is_open(&self) -> bool
        ensures answer { result ≡ (meaning self.now).is_open };
}
