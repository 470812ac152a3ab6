//! The worked tree, and the nodes that examples are made of.
#![tactic(auto)]

ghost use Rattle.std.specs.Prelude.{◌≡◌, [], ◌∷◌, replicate, pos};
ghost use Rattle.tree.specs.declared.node.Node.TheVariants.{Leaf};

use tree::node::{Node, NodeForm};

/// x times the first parameter, y times the first new one, and a constant.
pub fn form(x: i32, y: i32, constant: i32) -> NodeForm
    ensures { result ≡ x ∷ pos 0 ∷ pos 0 ∷ pos 0 ∷ y ∷ pos 0 ∷ pos 0 ∷ pos 0 ∷ pos 0 ∷ constant ∷ [] }
{
    [x, 0, 0, 0, y, 0, 0, 0, 0, constant]
}

/// The leaf of one unknown.
pub fn leaf(first: NodeForm) -> Node
    ensures { result ≡ Leaf (first ∷ replicate 5 (replicate 10 (pos 0))) }
{
    let zero = [0; 10];
    Node::Leaf([first, zero, zero, zero, zero, zero])
}

/// The tree of 2 × unknown ≥ k: 0 where k is 0, else k less the half of k, rounded down. Its page has 571 bytes.
pub const WORKED: [Node; 5] = [
    Node::Head { n: 1, p: 1 },
    Node::Split([-1, 0, 0, 0, 0, 0, 0, 0, 0, 0]),
    Node::Leaf([[0; 10]; 6]),
    Node::New {
        d: 2,
        form: [1, 0, 0, 0, 0, 0, 0, 0, 0, 0],
    },
    Node::Leaf([
        [1, 0, 0, 0, -1, 0, 0, 0, 0, 0],
        [0; 10],
        [0; 10],
        [0; 10],
        [0; 10],
        [0; 10],
    ]),
];
