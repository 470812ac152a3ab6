//! A page and a question in one call.
ghost use Rattle.std.specs.Prelude.{◌≡◌, ◌≢◌, Err, length};
ghost use Rattle.base.specs.declared.refusal.Refusal.TheVariants.{NoTree};
ghost use Rattle.tree.specs.Finds.{found_in, left_of, said_of};
ghost use Rattle.page.specs.Records.{nodes_in};
ghost use Rattle.page.specs.Replies.{RepliesAsTree, replied};

use crate::back::node_of;
use crate::check::check;
use crate::record::read;
use base::refusal::Refusal;
use tree::state::Walk;
use tree::walk::Found;

/// Asks the nodes of the records that stand one after the other, read one by one.
fn find(page: &[u8], point: &[i64], place: &mut [i64; 6]) -> Result<Found, Refusal>
    ensures answer { result ≡ said_of (found_in (nodes_in (length page.now) page.now) point.now) }
    ensures left { place.new ≡ left_of (found_in (nodes_in (length page.now) page.now) point.now) }
{
    let mut walk = Walk::new(point);
    let mut rest = page;
    while let Ok((found, after)) = read(rest) {
        if walk.is_over() {
            return walk.tell(place);
        }
        walk.see(&node_of(found));
        rest = after;
    }
    walk.tell(place)
}

/// Checks a page, and asks the tree on it at a parameter point: the n numbers of the point are left in the place, zeros
/// after them.
///
/// Refused are, in this order: what `check` refuses (51 to 54, with the offset), a point not of p numbers (42), a number
/// not from 0 to 1,000,000 (43), a point outside a keep (44). Refused, or where there is no point, the place holds zeros.
/// An accepted page has a tree, so there is no refusal by 41.
#[tactic(auto, using(crate::proofs::Checking::bytes_of, crate::proofs::Replying::has_tree, crate::proofs::Replying::replies_as_tree))]
pub fn reply(page: &[u8], point: &[i64], place: &mut [i64; 6]) -> Result<Found, Refusal>
    ensures answer { result ≡ said_of (replied page.now point.now) }
    ensures left { place.new ≡ left_of (replied page.now point.now) }
    ensures law { RepliesAsTree page.now point.now }
    ensures tree { replied page.now point.now ≢ Err NoTree }
{
    *place = [0; 6];
    check(page)?;
    find(page, point, place)
}
