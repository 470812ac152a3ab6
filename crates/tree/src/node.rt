//! A node of a solution tree.

/// A form as a node holds it: coefficients of parameters 1 to 4, of new parameters 1 to 5, and a constant.
pub type NodeForm = [i32; 10];

/// A tree is a list of these: the head, the keeps, then the nodes in the order in which they were
/// made, a split before its two branches.
#[derive(Clone, Copy, PartialEq, Eq, Debug)]
pub enum Node {
    /// How many unknowns and parameters the system has.
    Head { n: u8, p: u8 },
    /// A context row: the tree speaks of the parameters where it is at least 0.
    Keep(NodeForm),
    /// The first branch is for where this form is at least 0, the second for where it is not.
    Split(NodeForm),
    /// A new parameter: the form divided by d, rounded down.
    New { d: i32, form: NodeForm },
    /// The least point: a form for each unknown, zeros for those that the system does not have.
    Leaf([NodeForm; 6]),
    /// There is no point. It is also the blank.
    None,
}
