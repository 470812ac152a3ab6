//! A walk over nodes that are seen one after another.
ghost use Rattle.std.specs.Prelude.{◌≡◌, ◌≤◌};
ghost use Rattle.tree.specs.declared.state.Phase.TheVariants.{Keeps};

use crate::known::Known;
use crate::node::Node;
use crate::walk::{Found, check_point, head_fits};
use base::refusal::Refusal;

/// Inner: what a walk has come to.
#[derive(Clone, Copy)]
pub enum Phase {
    /// The head is still to come.
    Head,
    /// The head was seen, and keeps that hold.
    Keeps,
    /// A node below the keeps was seen.
    Nodes,
    /// Whatever nodes are still to come, this is the answer.
    Over(Result<Option<[i64; 6]>, Refusal>),
}

/// Inner: how far a walk has come over nodes that are shown to it one after another. It knows nothing of their list, so
/// that several walks can go through one list side by side. The next `past` trees are to be passed over.
#[derive(Clone, Copy)]
pub struct Walk<'a> {
    point: &'a [i64],
    phase: Phase,
    n: usize,
    past: usize,
    known: Known,
    ghost few: { n ≤ 6 },
    ghost unmade: { phase ≡ Keeps → known.made ≡ 0 },
}

impl<'a> Walk<'a> {
    ghost use Rattle.std.specs.Prelude.{◌+◌, ◌-◌, ◌<◌, true, length, List, []};
    ghost use Rattle.tree.specs.Finds.{found_in, said_of};
    ghost use Rattle.tree.specs.Walks.{Follows, Passes, PassesIn, Phase, answer_of, in_six, is_over, six_of};
    ghost use Rattle.tree.specs.Walks.{Head as AtHead, Nodes as AtNodes, Over as IsOver};
    ghost use Rattle.tree.specs.declared.node.Node.{Node as TreeNode};

    /// Inner: a walk with a point, before the first node.
    pub fn new(point: &'a [i64]) -> Self
        ensures start { (list : List TreeNode) → answer_of result list ≡ in_six (found_in list point.now) }
        ensures past { result.past ≡ 0 }
        ensures phase { result.phase ≡ AtHead }
    {
        Walk {
            point,
            phase: Phase::Head,
            n: 0,
            past: 0,
            known: Known::of(&[]),
        }
    }

    /// Ends the walk with its answer.
    fn end(&mut self, answer: Result<Option<[i64; 6]>, Refusal>)
        ensures phase { self.new.phase ≡ IsOver answer }
        ensures past { self.new.past ≡ self.old.past }
    {
        self.phase = Phase::Over(answer);
    }

    /// Sees the first node.
    pub(crate) fn see_head(&mut self, node: &Node)
        requires phase { self.old.phase ≡ AtHead }
        ensures follows { Follows self.old node.now self.new }
    {
        match node {
            Node::Head { n, p } if head_fits(*n, *p) => {
                match check_point(self.point, usize::from(*p)) {
                    Ok(()) => {
                        self.known = Known::of(self.point);
                        self.phase = Phase::Keeps;
                        self.n = usize::from(*n);
                        self.past = 0;
                    }
                    Err(refusal) => self.end(Err(refusal)),
                }
            }
            _ => self.end(Err(Refusal::NoTree)),
        }
    }

    /// Goes on to the nodes below the keeps.
    fn leave_keeps(&mut self)
        ensures phase { self.new.phase ≡ AtNodes }
        ensures past { self.new.past ≡ 0 }
        ensures rest { (self.new.n ≡ self.old.n) × (self.new.known ≡ self.old.known) }
    {
        self.phase = Phase::Nodes;
        self.past = 0;
    }

    /// Sees a keep, or the first node below the keeps.
    fn see_keep(&mut self, node: &Node)
        requires phase { self.old.phase ≡ Keeps }
        ensures follows { Follows self.old node.now self.new }
    {
        match node {
            Node::Keep(form) => {
                if !self.known.holds(form) {
                    self.end(Err(Refusal::OutsideKeep));
                }
            }
            _ => {
                self.leave_keeps();
                self.visit(node);
            }
        }
    }

    /// How many trees are to be passed over after a node, where `past` are before it; `None` where the walk ends at it.
    fn passed(past: usize, node: &Node) -> Option<usize>
        requires some { 0 < past }
        requires room { past < 18446744073709551615 }
        ensures passes { Passes past node.now result }
    {
        if matches!(node, Node::Head { n: _, p: _ } | Node::Keep(_)) {
            return None;
        }
        // a number for each kind of the others and no jump: which of them comes next is hard to foresee
        let hanging = match node {
            Node::Split(_) => 2,
            Node::New { d: _, form: _ } => 1,
            // a leaf, or none
            _ => 0,
        };
        Some(past - 1 + hanging)
    }

    /// Sees a node of a tree that is passed over.
    fn pass(&mut self, node: &Node)
        requires phase { self.old.phase ≡ AtNodes }
        requires some { 0 < self.old.past }
        requires room { self.old.past < 18446744073709551615 }
        ensures follows { Follows self.old node.now self.new }
    {
        match Self::passed(self.past, node) {
            Some(past) => self.past = past,
            None => self.end(Ok(None)),
        }
    }

    /// Passes over a list's nodes until no tree is to be passed over: the nodes that are left, and how many trees are then to
    /// be passed over; `None` where the walk ends.
    fn passed_in(past: usize, nodes: &[Node]) -> (&[Node], Option<usize>)
        requires some { 0 < past }
        requires room { past + length nodes.now < 18446744073709551616 }
        ensures fewer { length result.0.now ≤ length nodes.now - 1 }
        ensures passes { PassesIn past nodes.now result.0.now result.1 }
    {
        // the count is a number of its own, so that it need not go through memory at each node
        let mut left = past;
        let mut rest = nodes;
        while let [node, after @ ..] = rest {
            rest = after;
            match Self::passed(left, node) {
                Some(0) => return (rest, Some(0)),
                Some(next) => left = next,
                None => return (rest, None),
            }
        }
        (rest, Some(left))
    }

    /// Sees a list's nodes until no tree is to be passed over or the walk ends, and answers the nodes that are left.
    fn pass_all<'n>(&mut self, nodes: &'n [Node]) -> &'n [Node]
        requires phase { self.old.phase ≡ AtNodes }
        requires some { 0 < self.old.past }
        requires room { self.old.past + length nodes.now < 18446744073709551616 }
        ensures fewer { length result.now ≤ length nodes.now - 1 }
        ensures past { self.new.past + length result.now ≤ self.old.past + length nodes.now }
        ensures follows { answer_of self.old nodes.now ≡ answer_of self.new result.now }
    {
        let (rest, left) = Self::passed_in(self.past, nodes);
        match left {
            Some(past) => self.past = past,
            None => self.end(Ok(None)),
        }
        rest
    }

    // inlined wherever a walk goes from node to node: a call for each takes longer
    /// Sees a node that the walk goes through.
    #[inline(always)]
    fn visit(&mut self, node: &Node)
        requires phase { self.old.phase ≡ AtNodes }
        requires here { self.old.past ≡ 0 }
        ensures follows { Follows self.old node.now self.new }
    {
        match node {
            Node::Split(form) => {
                if !self.known.holds(form) {
                    self.past = 1;
                }
            }
            Node::New { d, form } => {
                if self.known.may_gain(*d, form) {
                    self.known.gain(*d, form);
                } else {
                    self.end(Ok(None));
                }
            }
            Node::Leaf(forms) => {
                let six = self.known.leaf_values(forms, self.n);
                self.end(Ok(Some(six)));
            }
            Node::None | Node::Head { n: _, p: _ } | Node::Keep(_) => self.end(Ok(None)),
        }
    }

    /// Inner: sees one node more.
    pub fn see(&mut self, node: &Node)
        requires room { self.old.past < 18446744073709551615 }
        ensures follows { Follows self.old node.now self.new }
    {
        match self.phase {
            Phase::Head => self.see_head(node),
            Phase::Keeps => self.see_keep(node),
            Phase::Nodes if self.past > 0 => self.pass(node),
            Phase::Nodes => self.visit(node),
            Phase::Over(_) => (),
        }
    }

    /// Sees a list's nodes, until the answer is the same whatever nodes are still to come.
    pub(crate) fn see_all(&mut self, nodes: &[Node])
        requires room { self.old.past + length nodes.now < 18446744073709551616 }
        ensures answer { answer_of self.new [] ≡ answer_of self.old nodes.now }
    {
        let mut rest = nodes;
        while let [node, after @ ..] = rest {
            match self.phase {
                Phase::Over(_) => return,
                Phase::Nodes if self.past > 0 => rest = self.pass_all(rest),
                Phase::Nodes => {
                    self.visit(node);
                    rest = after;
                }
                // before the nodes below the keeps
                _ => {
                    self.see(node);
                    rest = after;
                }
            }
        }
    }

    /// Inner: whether the answer is the same whatever nodes are still to come.
    pub fn is_over(&self) -> bool
        ensures value { result ≡ is_over self.now.phase }
        ensures law { result ≡ true → (list : List TreeNode) → answer_of self.now list ≡ answer_of self.now [] }
    {
        match self.phase {
            Phase::Over(_) => true,
            Phase::Head | Phase::Keeps | Phase::Nodes => false,
        }
    }

    /// The answer, if no node is still to come.
    fn answer(&self) -> Result<Option<[i64; 6]>, Refusal>
        ensures value { result ≡ answer_of self.now [] }
    {
        match self.phase {
            Phase::Head => Err(Refusal::NoTree),
            Phase::Keeps | Phase::Nodes => Ok(None),
            Phase::Over(answer) => answer,
        }
    }

    /// Inner: says the answer, if no node is still to come, and leaves its point in the place, or zeros.
    pub fn tell(&self, place: &mut [i64; 6]) -> Result<Found, Refusal>
        ensures answer { result ≡ said_of (answer_of self.now []) }
        ensures left { place.new ≡ six_of (answer_of self.now []) }
    {
        *place = [0; 6];
        match self.answer()? {
            Some(six) => {
                *place = six;
                Ok(Found::Point)
            }
            None => Ok(Found::None),
        }
    }
}
