//! The check of a page.
ghost use Rattle.std.specs.Prelude.{◌≡◌, ◌+◌, ◌-◌, ◌<◌, ◌≤◌, length, IfOk};
ghost use Rattle.base.specs.Refusals.{report_of, reported};
ghost use Rattle.page.specs.Pages.{Accepted, Refused, WrittenAccepted, check_report, checked, flaw_report, refusal_of};
ghost use Rattle.page.specs.Readings.{head_at, keeps, objection, opening, parse};
ghost use Rattle.page.specs.Records.{kind_of};
ghost use Rattle.page.specs.Ties.{Agrees, Allowed, Inside, HeadReads, Heads, Reads, WholeReads, body_in, keep_count, keep_first, kind_in, node_count, record_fits};

use crate::number::{form_fits, form_of, forms_of, leaf_fits, new_fits, new_of};
use crate::record::{Flaw, Record, read};
use base::refusal::Refusal;
use tree::kind::Kind;
use tree::walk::head_fits;

/// A head may have so many keeps below it.
const MAX_KEEPS: u8 = 8;
/// So many splits may stand one below the other.
const MAX_SPLITS: u8 = 12;
/// So many new parameters may stand on a path.
const MAX_NEW: u8 = 5;

/// A refused record: why, and the page from its kind byte on.
#[derive(Drop, Clone, Copy)]
pub struct Fault<'a> {
    pub flaw: Flaw,
    pub at: &'a [u8],
}

// a pair, as each caller takes it apart at once
/// What comes after the nodes that were read, and how many they are.
type Counted<'a> = Result<(&'a [u8], usize), Fault<'a>>;

/// What a node may be: the sizes of the system, the new parameters on the path to it, and how many splits may follow.
#[derive(Clone, Copy)]
struct Below {
    n: u8,
    p: u8,
    made: u8,
    left: u8,
    ghost few: { made ≤ 5 },
    ghost shallow: { left ≤ 12 },
}

impl Below {
    /// Below a split.
    fn below_split(&self) -> Self
        requires more { 0 < self.now.left }
        ensures sizes { (result.n ≡ self.now.n) × (result.p ≡ self.now.p) }
        ensures path { (result.made ≡ self.now.made) × (result.left ≡ self.now.left - 1) }
    {
        let mut below = *self;
        below.left -= 1;
        below
    }

    /// Below a new parameter.
    fn below_new(&self) -> Self
        requires more { self.now.made < 5 }
        ensures sizes { (result.n ≡ self.now.n) × (result.p ≡ self.now.p) }
        ensures path { (result.made ≡ self.now.made + 1) × (result.left ≡ self.now.left) }
    {
        let mut below = *self;
        below.made += 1;
        below
    }

    /// What is wrong with a kind below the head and the keeps, if anything is.
    fn objection(&self, kind: u8) -> Option<Flaw>
        ensures value { result ≡ objection self.now.made self.now.left (kind_of kind) }
    {
        match Kind::try_from(kind) {
            Ok(Kind::Split) if self.left == 0 => Some(Flaw::Depth),
            Ok(Kind::New) if self.made >= MAX_NEW => Some(Flaw::Depth),
            Ok(Kind::Split | Kind::New | Kind::Leaf | Kind::None) => None,
            Ok(Kind::Head | Kind::Keep) | Err(_) => Some(Flaw::Kind),
        }
    }

    /// The record that stands first below the head and the keeps, and what comes after it.
    fn open<'a>(&self, rest: &'a [u8]) -> Result<(Record<'a>, &'a [u8]), Flaw>
        ensures reads { Reads (opening self.now.made self.now.left rest.now) result }
        ensures allowed { IfOk result (λ q. Allowed self.now.made self.now.left (kind_in q.0)) }
        ensures shorter { IfOk result (λ q. length q.1.now + 1 ≤ length rest.now) }
    {
        match rest {
            [] => Err(Flaw::Length),
            [kind, ..] => match self.objection(*kind) {
                Some(flaw) => Err(flaw),
                None => read(rest),
            },
        }
    }

    /// Whether the numbers of a record are within the limits.
    fn numbers_fit(&self, of: Record) -> bool
        ensures value { result ≡ record_fits self.now.n self.now.p self.now.made (kind_in of.entry) (body_in of.entry) }
    {
        match of {
            Record::Split(body) => form_fits(&form_of(body), self.p, self.made),
            Record::New(body) => {
                let (d, form) = new_of(body);
                new_fits(d, &form, self.p, self.made)
            }
            Record::Leaf(body) => leaf_fits(&forms_of(body), self.n, self.p, self.made),
            Record::Head(_) | Record::Keep(_) | Record::None => true,
        }
    }

    /// The tree that stands first: what comes after it, and how many nodes it has.
    fn node<'a>(&self, rest: &'a [u8]) -> Counted<'a>
        ensures value { Agrees node_count (parse self.now.n self.now.p (self.now.left + (5 - self.now.made) + 1) self.now.made self.now.left rest.now) result }
        ensures inside { Inside rest.now result }
    {
        let (first, after) = self.open(rest).map_err(|flaw| Fault { flaw, at: rest })?;
        if !self.numbers_fit(first) {
            return Err(Fault {
                flaw: Flaw::Number,
                at: rest,
            });
        }
        match first {
            Record::Split(_) => {
                let (second, first_count) = self.below_split().node(after)?;
                let (end, second_count) = self.below_split().node(second)?;
                Ok((end, first_count + second_count + 1))
            }
            Record::New(_) => {
                let (end, count) = self.below_new().node(after)?;
                Ok((end, count + 1))
            }
            Record::Leaf(_) | Record::None => Ok((after, 1)),
            Record::Head(_) | Record::Keep(_) => Err(Fault {
                flaw: Flaw::Kind,
                at: rest,
            }),
        }
    }
}

/// Whether a keep stands first.
fn is_keep(rest: &[u8]) -> bool
    ensures value { result ≡ keep_first rest.now }
{
    match rest {
        [] => false,
        [kind, ..] => Kind::try_from(*kind) == Ok(Kind::Keep),
    }
}

/// The keeps that stand first, at most `more` of them: what comes after them, and how many there are.
fn keeps<'a>(rest: &'a [u8], p: u8, more: u8) -> Counted<'a>
    ensures value { Agrees keep_count (keeps p more rest.now) result }
    ensures inside { Inside rest.now result }
{
    if more == 0 || !is_keep(rest) {
        return Ok((rest, 0));
    }
    let (first, after) = read(rest).map_err(|flaw| Fault { flaw, at: rest })?;
    match first {
        Record::Keep(body) => {
            if !form_fits(&form_of(body), p, 0) {
                return Err(Fault {
                    flaw: Flaw::Number,
                    at: rest,
                });
            }
            let (end, count) = keeps(after, p, more - 1)?;
            Ok((end, count + 1))
        }
        _ => Err(Fault {
            flaw: Flaw::Kind,
            at: rest,
        }),
    }
}

/// What a head says, and what comes after it.
#[derive(Drop, Clone, Copy)]
struct Top<'a> {
    n: u8,
    p: u8,
    rest: &'a [u8],
}

/// The head of a page.
fn head<'a>(page: &'a [u8]) -> Result<Top<'a>, Fault<'a>>
    ensures value { HeadReads page.now result }
{
    match page {
        [] => Err(Fault {
            flaw: Flaw::Length,
            at: page,
        }),
        [kind, ..] => {
            if Kind::try_from(*kind) != Ok(Kind::Head) {
                return Err(Fault {
                    flaw: Flaw::Kind,
                    at: page,
                });
            }
            let (first, rest) = read(page).map_err(|flaw| Fault { flaw, at: page })?;
            head_of(page, first, rest)
        }
    }
}

/// What the first record of a page says, if it is a head within the limits.
fn head_of<'a>(page: &'a [u8], first: Record<'a>, rest: &'a [u8]) -> Result<Top<'a>, Fault<'a>>
    ensures value { Heads page.now (head_at page.now (kind_in first.entry) (body_in first.entry) rest.now) rest.now result }
{
    match first {
        Record::Head(body) => {
            let n = body[0];
            let p = body[1];
            if head_fits(n, p) {
                Ok(Top { n, p, rest })
            } else {
                Err(Fault {
                    flaw: Flaw::Number,
                    at: page,
                })
            }
        }
        _ => Err(Fault {
            flaw: Flaw::Kind,
            at: page,
        }),
    }
}

/// The whole page: how many nodes its tree has.
fn whole<'a>(page: &'a [u8]) -> Result<usize, Fault<'a>>
    ensures value { WholeReads page.now result }
{
    let top = head(page)?;
    let (below, kept) = keeps(top.rest, top.p, MAX_KEEPS)?;
    let start = Below {
        n: top.n,
        p: top.p,
        made: 0,
        left: MAX_SPLITS,
    };
    let (end, count) = start.node(below)?;
    if end.is_empty() {
        Ok(kept + count + 1)
    } else {
        Err(Fault {
            flaw: Flaw::Length,
            at: end,
        })
    }
}

/// The refusal of a record, with its offset.
pub(crate) fn refusal(flaw: Flaw, offset: usize) -> Refusal
    ensures value { result ≡ refusal_of flaw offset }
    ensures report { report_of result ≡ flaw_report flaw offset }
{
    match flaw {
        Flaw::Length => Refusal::PageLength { offset },
        Flaw::Kind => Refusal::PageKind { offset },
        Flaw::Number => Refusal::PageNumber { offset },
        Flaw::Depth => Refusal::PageDepth { offset },
    }
}

/// How many nodes the tree of a page has, if the page is exactly one whole tree within the limits.
///
/// At each record are refused, with its offset and in this order: a kind byte that is missing (51), a kind that may
/// not stand there (52), a split too deep or one new parameter too many (54), a body that is not all
/// there (51), a number out of limits, or an unused one that is not 0 (53). Bytes left over at the
/// end are refused at the first of them (51).
pub fn check(page: &[u8]) -> Result<usize, Refusal>
    ensures answer { result ≡ checked page.now }
    ensures report { reported result ≡ check_report page.now }
    ensures accepted { Accepted page.now result }
    ensures written { WrittenAccepted page.now result }
    ensures refused { Refused page.now result }
{
    whole(page).map_err(|fault| refusal(fault.flaw, page.len() - fault.at.len()))
}
