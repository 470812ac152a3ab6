//! The record of a node, written into a page.
ghost use Rattle.std.specs.Prelude.{◌≡◌, ◌+◌, ◌≤◌, true, length};
ghost use Rattle.page.specs.Records.{cost_of, holdable, pasted, record_of};

use page::write::put_at;
use tree::node::Node;

/// Inner: writes the record of a node from a place on.
pub fn write_record(page: &mut [u8], at: usize, node: &Node)
    requires { at + cost_of node.now ≤ length page.old }
    ensures left { page.new ≡ pasted at (record_of node.now) page.old }
    ensures numbers { holdable node.now ≡ true }
{
    put_at(node, page, at);
}
