//! What a list of nodes answers at a parameter point.
ghost use Rattle.std.specs.Prelude.{◌≡◌, true, OnOk, length};
ghost use Rattle.base.specs.Refusals.{reported};
ghost use Rattle.tree.specs.Finds.{all_below, found_in, head_fits, is_point, left_of, point_answer, point_report, said_of};
ghost use Rattle.tree.specs.Questions.{AnswersAsTree, AnswersWithinLimits};

use crate::node::{Node, NodeForm};
use crate::state::Walk;
use base::refusal::Refusal;

/// The largest number of a point.
const LARGEST: i64 = 1_000_000;

// Not an `Option` of the point: that goes to a place of the caller's, which also holds zeros where there is none.
/// What find says where it is not refused: the point stands in the place of six, or there is none.
#[derive(Clone, Copy, PartialEq, Eq, Debug)]
pub enum Found {
    Point,
    None,
}

/// Inner: whether each number is from 0 to d - 1.
pub fn all_below(form: &NodeForm, d: i32) -> bool
    ensures value { result ≡ all_below d form.now }
{
    form.iter().all(|x| (0..d).contains(x))
}

/// Inner: whether each number is from 0 to 1,000,000.
pub fn is_point(point: &[i64]) -> bool
    ensures value { result ≡ is_point point.now }
{
    point.iter().all(|x| (0..=LARGEST).contains(x))
}

/// Inner: whether a head is within the limits.
pub fn head_fits(n: u8, p: u8) -> bool
    ensures value { result ≡ head_fits n p }
{
    (1..=6).contains(&n) && p <= 4
}

/// Inner: refuses what is no point of p parameters: 42 if it is not of p numbers, 43 if one is not from 0 to 1,000,000.
pub fn check_point(point: &[i64], p: usize) -> Result<(), Refusal>
    ensures answer { result ≡ point_answer p point.now }
    ensures report { reported result ≡ point_report p point.now }
    ensures accepted { OnOk result ((length point.now ≡ p) × (is_point point.now ≡ true)) }
{
    if point.len() != p {
        return Err(Refusal::PointLength);
    }
    if !is_point(point) {
        return Err(Refusal::PointNumber);
    }
    Ok(())
}

/// Asks a list of nodes at a parameter point: the n numbers of the point are left in the place, zeros after them.
///
/// Refused are, in this order: a list that does not begin with a head of 1 to 6 unknowns and at most 4
/// parameters (41), a point not of p numbers (42), a number not from 0 to 1,000,000 (43), a point
/// outside a keep (44). Refused, or where there is no point, the place holds zeros. A list that is not that of a tree
/// answers too, by the same walk: where it cannot go on there is no point.
#[tactic(auto, using(crate::proofs::Walking::as_tree, crate::proofs::Walking::as_within))]
pub fn find(nodes: &[Node], point: &[i64], place: &mut [i64; 6]) -> Result<Found, Refusal>
    ensures answer { result ≡ said_of (found_in nodes.now point.now) }
    ensures left { place.new ≡ left_of (found_in nodes.now point.now) }
    ensures law { AnswersAsTree nodes.now point.now }
    ensures limits { AnswersWithinLimits nodes.now point.now }
{
    let mut walk = Walk::new(point);
    if let [head, rest @ ..] = nodes {
        // by itself, for speed: what is then still to come begins below the head
        walk.see_head(head);
        walk.see_all(rest);
    }
    walk.tell(place)
}
