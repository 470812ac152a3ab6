//! A node, read from its record in a page.
ghost use Rattle.std.specs.Prelude.{◌≡◌, ℕ, ◌≤◌, true, List, ◌++◌, length, drop};
ghost use Rattle.page.specs.Records.{holdable, record_of};
ghost use Rattle.page_store.specs.Listed.{length_by};
ghost use Rattle.tree.specs.declared.node.Node.{Node as TheNode};

use page::back::node_of;
use page::record::read;
use page::write::record_length;
use tree::kind::Kind;
use tree::node::Node;

// Three lines as at the end of `page::back::node_at`: its contract speaks of one record, and of no page.
/// Inner: the node whose record stands first.
pub fn first_node(bytes: &[u8]) -> Node
    ensures value { (x : TheNode) (rest : List ℕ) → holdable x ≡ true → bytes.now ≡ record_of x ++ rest → result ≡ x }
{
    match read(bytes) {
        Ok((record, _)) => node_of(record),
        Err(_) => Node::None,
    }
}

/// Inner: the node whose record begins at a place.
pub fn node_from(page: &[u8], at: usize) -> Node
    requires { at ≤ length page.now }
    ensures value { (x : TheNode) (rest : List ℕ) → holdable x ≡ true → drop at page.now ≡ record_of x ++ rest → result ≡ x }
{
    first_node(&page[at..])
}

/// Inner: how many bytes a record has, by its first one.
pub fn length_of(kind: u8) -> usize
    ensures value { result ≡ length_by kind }
{
    Kind::try_from(kind).map_or(1, record_length)
}
