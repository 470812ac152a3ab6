//! What holds of every nest: its least point is the latest posting.
#![tactic(auto)]

ghost use Rattle.nest.specs.Acts.{nest_of};
ghost use Rattle.nest_laws.specs.Laws.{BackPosts, LatestPosting, LatestTurnedBack, NestFits, PostingsCorrespond};

use nest::nest::Nest;

/// The points of a nest's system and the postings of its loops correspond one to one, the earlier point to the later posting; so the least
/// point is the latest posting.
pub fn postings_correspond(nest: &Nest)
    ensures law { PostingsCorrespond (nest_of nest.now) }
{}

/// Whatever tree a solve of a nest answers gives the latest posting at every parameter point of its context.
pub fn latest_posting_stands(nest: &Nest)
    ensures law { LatestPosting (nest_of nest.now) }
{}

/// The check of counts and numbers with which each solve begins refuses no nest.
pub fn nest_fits(nest: &Nest)
    ensures law { NestFits (nest_of nest.now) }
{}

/// Given a point of a nest's system at parameters up to 1,000,000, back answers the posting that it stands for.
pub fn back_posts(nest: &Nest)
    ensures law { BackPosts (nest_of nest.now) }
{}

/// Whatever tree a solve of a nest answers, at parameters of the context up to 1,000,000 back turns the values that it gives into the
/// counters of the latest posting.
pub fn latest_turned_back(nest: &Nest)
    ensures law { LatestTurnedBack (nest_of nest.now) }
{}
