//! The records of a page: one byte of kind, then a body whose length the kind fixes.
ghost use Rattle.std.specs.Prelude.{◌≡◌, ◌+◌, ◌<◌, ◌≤◌, length, take, drop, IfOk, MatchResult};
ghost use Rattle.page.specs.Records.{opened};
ghost use Rattle.page.specs.Ties.{Reads};

use tree::kind::{Kind, UnknownKind};

/// Why a record is refused.
#[derive(Clone, Copy, PartialEq, Eq, Debug)]
pub enum Flaw {
    /// Bytes are missing, or left over.
    Length,
    /// The kind is none that may stand there.
    Kind,
    /// A number is out of limits, or is unused and not 0.
    Number,
    /// A split too deep, or one new parameter too many.
    Depth,
}

impl From<UnknownKind> for Flaw {
    ghost use Rattle.page.specs.declared.record.Flaw.TheVariants.{Kind as FlawOfKind};

    ghost from_gives = { λ _ flaw. flaw ≡ FlawOfKind };

    fn from(_: UnknownKind) -> Self {
        Flaw::Kind
    }
}

/// A record: its body is a part of the page that it was read from.
#[derive(Drop, Clone, Copy)]
pub enum Record<'a> {
    Head(&'a [u8; 2]),
    Keep(&'a [u8; 40]),
    Split(&'a [u8; 40]),
    New(&'a [u8; 44]),
    Leaf(&'a [u8; 240]),
    None,
}

/// The first N bytes and what comes after them.
fn part<const N: usize>(rest: &[u8]) -> Result<(&[u8; N], &[u8]), Flaw>
    ensures value { MatchResult result (λ q. (q.0.now ≡ take N rest.now) × (q.1.now ≡ drop N rest.now) × (length q.1.now + N ≡ length rest.now)) (λ flaw. (length rest.now < N) × (flaw ≡ Flaw.Length)) }
{
    rest.split_first_chunk().ok_or(Flaw::Length)
}

/// The record that stands first, and what comes after it.
pub fn read(bytes: &[u8]) -> Result<(Record, &[u8]), Flaw>
    ensures reads { Reads (opened bytes.now) result }
    ensures shorter { IfOk result (λ q. length q.1.now + 1 ≤ length bytes.now) }
{
    match bytes {
        [] => Err(Flaw::Length),
        [kind, rest @ ..] => match Kind::try_from(*kind)? {
            Kind::Head => part(rest).map(|(body, after)| (Record::Head(body), after)),
            Kind::Keep => part(rest).map(|(body, after)| (Record::Keep(body), after)),
            Kind::Split => part(rest).map(|(body, after)| (Record::Split(body), after)),
            Kind::New => part(rest).map(|(body, after)| (Record::New(body), after)),
            Kind::Leaf => part(rest).map(|(body, after)| (Record::Leaf(body), after)),
            Kind::None => Ok((Record::None, rest)),
        },
    }
}
