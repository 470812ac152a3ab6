//! The counts that a listing begins with, and how many numbers follow them.
ghost use Rattle.std.specs.Prelude.{◌≡◌, ◌≤◌};
ghost use Rattle.source.specs.Counted.{counted, sizes_of};
ghost use Rattle.listing.specs.Listings.{before_context, count_of, counts_of, total};

use base::refusal::Refusal;
use source::counts::Counts;

/// A count, which is not below 0.
fn count(x: i64) -> Result<usize, Refusal>
    ensures answer { result ≡ count_of x }
{
    usize::try_from(x).map_err(|_| Refusal::Counts)
}

/// n p m k, unless they are out of limits.
pub(crate) fn counts_of(numbers: &[i64; 4]) -> Result<Counts, Refusal>
    ensures answer { counted result ≡ counts_of numbers.now }
{
    let n = count(numbers[0])?;
    let p = count(numbers[1])?;
    let m = count(numbers[2])?;
    let k = count(numbers[3])?;
    Counts::new(n, p, m, k)
}

/// How many numbers stand before the context rows: the fuel and the rows.
pub(crate) fn before_context(counts: Counts) -> usize
    ensures value { result ≡ before_context (sizes_of counts) }
    ensures few { result ≤ 177 }
{
    1 + counts.m * counts.row_length()
}

/// How many numbers follow the counts.
pub(crate) fn total(counts: Counts) -> usize
    ensures value { result ≡ total (sizes_of counts) }
    ensures few { result ≤ 217 }
{
    before_context(counts) + counts.k * counts.context_row_length()
}
