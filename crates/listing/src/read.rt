//! Reading a listing.
ghost use Rattle.std.specs.Prelude.{◌≡◌, length};
ghost use Rattle.source.specs.Counted.{sizes_of};
ghost use Rattle.listing.specs.Listings.{body_answer, is_end, is_short, read_answer, total, understood};

use crate::body::Body;
use crate::counts::{counts_of, total};
use crate::numbers::first_numbers;
use crate::word::after_blanks;
use base::refusal::Refusal;
use source::counts::Counts;
use source::rows::RowSource;

/// The longest text of a listing, in bytes.
pub const LONGEST: usize = 65_536;

/// The most numbers after the counts: the fuel, 16 rows of 11 and 8 context rows of 5.
pub const NUMBERS: usize = 217;

/// A system and the fuel to solve it with.
#[derive(Clone, Copy)]
pub struct Listing {
    pub source: RowSource,
    pub fuel: i64,
}

/// Whether no word is left.
fn is_end(text: &[u8]) -> bool
    ensures value { result ≡ is_end text.now }
{
    after_blanks(text).is_empty()
}

/// Whether a listing may be so long.
fn is_short(text: &[u8]) -> bool
    ensures value { result ≡ is_short text.now }
{
    text.len() <= LONGEST
}

/// Reads what follows the counts, by way of as many places as there are numbers.
fn read_numbers(counts: Counts, text: &[u8], numbers: &mut [i64]) -> Result<Listing, Refusal>
    requires { length numbers.old ≡ total (sizes_of counts) }
    ensures answer { understood result ≡ body_answer (sizes_of counts) text.now }
{
    let rest = first_numbers(text, numbers)?;
    if !is_end(rest) {
        return Err(Refusal::Listing);
    }
    let body = Body { counts, numbers };
    let source = body.system()?;
    Ok(Listing {
        source,
        fuel: body.fuel(),
    })
}

/// Reads what follows the counts.
fn read_body(counts: Counts, text: &[u8]) -> Result<Listing, Refusal>
    ensures answer { understood result ≡ body_answer (sizes_of counts) text.now }
{
    // no heap: as many places as a listing can need, lent at the length that this one has
    let mut numbers = [0; NUMBERS];
    let total = total(counts);
    read_numbers(counts, text, &mut numbers[0..total])
}

/// Reads a listing: n p m k fuel, the rows, the context rows.
pub fn read(text: &[u8]) -> Result<Listing, Refusal>
    ensures answer { understood result ≡ read_answer text.now }
{
    let mut four = [0; 4];
    let rest = first_numbers(text, &mut four)?;
    let counts = counts_of(&four)?;
    if !is_short(text) {
        return Err(Refusal::Listing);
    }
    read_body(counts, rest)
}
