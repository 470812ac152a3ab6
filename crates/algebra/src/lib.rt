//! Laws of whole numbers, of products of lists and of lexicographic order, for the crates that prove on.
#![tactic(auto)]

ghost use Rattle.algebra.specs.Laws.{AlgebraStands};

/// The laws hold.
pub fn algebra_stands()
    ensures { AlgebraStands }
{}
