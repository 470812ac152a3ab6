//! A question to the tree that a store lists.
ghost use Rattle.std.specs.Prelude.{◌≡◌};
ghost use Rattle.tree.specs.Finds.{found_in, left_of, said_of};
ghost use Rattle.tree.specs.Questions.{AnswersAsTree, AnswersWithinLimits};

use crate::store::Store;
use base::refusal::Refusal;
use tree::state::Walk;
use tree::walk::Found;

/// Asks the nodes that a store lists at a parameter point, as `tree::walk::find` asks a list of them: the n numbers of the
/// point are left in the place, zeros after them. Refused (41 to 44, in this order), or where there is no point, the place
/// holds zeros. An open store is asked as it stands.
#[tactic(auto, using(tree::proofs::Walking::as_tree, tree::proofs::Walking::as_within))]
pub fn find<T: Store>(store: &T, point: &[i64], place: &mut [i64; 6]) -> Result<Found, Refusal>
    ensures answer { result ≡ said_of (found_in (T.meaning store.now).nodes point.now) }
    ensures left { place.new ≡ left_of (found_in (T.meaning store.now).nodes point.now) }
    ensures law { AnswersAsTree (T.meaning store.now).nodes point.now }
    ensures limits { AnswersWithinLimits (T.meaning store.now).nodes point.now }
{
    let mut walk = Walk::new(point);
    for i in 0..store.count() {
        if walk.is_over() {
            return walk.tell(place);
        }
        walk.see(&store.node(i));
    }
    walk.tell(place)
}
