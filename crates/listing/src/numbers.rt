//! The numbers of a text, one after another.
ghost use Rattle.std.specs.Prelude.{◌≡◌, length, Some, None, Ok, Err};
ghost use Rattle.listing.specs.Words.{after_word, first_word, number_of};
ghost use Rattle.listing.specs.Listings.{first_numbers, reached};

use crate::word::{first_word, number};
use base::refusal::Refusal;

/// The number that the first word spells, and what stands after it.
fn next_number(text: &[u8]) -> Result<(i64, &[u8]), Refusal>
    ensures answer { elim result [ Ok q ↦ (number_of (first_word text.now) ≡ Some q.0) × (q.1.now ≡ after_word text.now) | Err e ↦ (number_of (first_word text.now) ≡ None) × (e ≡ Refusal.Listing) ] }
{
    let (word, rest) = first_word(text);
    let x = number(word).ok_or(Refusal::Listing)?;
    Ok((x, rest))
}

/// Writes the numbers that the first words spell into the places, and answers what stands after
/// them.
pub(crate) fn first_numbers<'a>(text: &'a [u8], places: &mut [i64]) -> Result<&'a [u8], Refusal>
    ensures answer { first_numbers (length places.old) text.now ≡ reached places.new result }
{
    let mut rest = text;
    for place in places.iter_mut() {
        let (x, after) = next_number(rest)?;
        *place = x;
        rest = after;
    }
    Ok(rest)
}
