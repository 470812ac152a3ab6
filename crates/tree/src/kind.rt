//! The kinds of nodes.
ghost use Rattle.std.specs.Prelude.{◌≡◌};
ghost use Rattle.tree.specs.Kinds.{Decodes, byte_of, kind_of};

use crate::node::Node;

/// What kind a node is of, whatever its numbers.
#[derive(Clone, Copy, PartialEq, Eq, Debug)]
pub enum Kind {
    Head,
    Keep,
    Split,
    New,
    Leaf,
    None,
}

/// A byte that stands for no kind.
#[derive(Clone, Copy, PartialEq, Eq, Debug)]
pub struct UnknownKind(pub u8);

impl TryFrom<u8> for Kind {
    type Error = UnknownKind;

    ghost try_from_gives = { Decodes };

    /// The kind that a byte from 1 to 6 stands for.
    fn try_from(byte: u8) -> Result<Self, UnknownKind> {
        match byte {
            1 => Ok(Kind::Head),
            2 => Ok(Kind::Keep),
            3 => Ok(Kind::Split),
            4 => Ok(Kind::New),
            5 => Ok(Kind::Leaf),
            6 => Ok(Kind::None),
            _ => Err(UnknownKind(byte)),
        }
    }
}

impl From<Kind> for u8 {
    ghost from_gives = { λ kind byte. byte ≡ byte_of kind };

    /// The byte that stands for a kind.
    fn from(kind: Kind) -> Self {
        match kind {
            Kind::Head => 1,
            Kind::Keep => 2,
            Kind::Split => 3,
            Kind::New => 4,
            Kind::Leaf => 5,
            Kind::None => 6,
        }
    }
}

impl Node {
    /// The kind of this node.
    pub fn kind(&self) -> Kind
        ensures answer { result ≡ kind_of self.now }
    {
        match self {
            Node::Head { n: _, p: _ } => Kind::Head,
            Node::Keep(_) => Kind::Keep,
            Node::Split(_) => Kind::Split,
            Node::New { d: _, form: _ } => Kind::New,
            Node::Leaf(_) => Kind::Leaf,
            Node::None => Kind::None,
        }
    }
}
