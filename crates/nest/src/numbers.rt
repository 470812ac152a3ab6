//! The numbers of bounds and cell conditions.
ghost use Rattle.std.specs.Prelude.{◌≡◌, ◌<◌, length, OnOk};
ghost use Rattle.base.specs.Numbers.{AllWithin};
ghost use Rattle.base.specs.Refusals.{reported};
ghost use Rattle.nest.specs.Limits.{all_small, given_answer, given_report, is_small};

use base::refusal::Refusal;

/// A nest has at most 3 cell conditions.
pub const MAX_CELLS: usize = 3;
/// Each number of a bound or a cell condition lies from -300 to 300.
pub const MAX_COEFFICIENT: u64 = 300;

/// Whether a bound or a cell condition may have this number.
fn is_small(x: i64) -> bool
    ensures value { result ≡ is_small x }
{
    x.unsigned_abs() <= MAX_COEFFICIENT
}

// One chain, as `in_range` of the base: with the limit as a parameter a call would be no shorter.
/// Whether it may have these numbers.
fn all_small(numbers: &[i64]) -> bool
    ensures value { result ≡ all_small numbers.now }
{
    numbers.iter().all(|x| is_small(*x))
}

/// Refuses numbers that are not `width` many, whose place is not below `places`, or that are out of limits.
pub fn check_given(
    numbers: &[i64],
    width: usize,
    place: usize,
    places: usize,
) -> Result<(), Refusal>
    ensures answer { result ≡ given_answer width place places numbers.now }
    ensures report { reported result ≡ given_report width place places numbers.now }
    ensures fits { OnOk result ((length numbers.now ≡ width) × (place < places) × AllWithin 300 numbers.now) }
{
    if numbers.len() != width || place >= places || !all_small(numbers) {
        return Err(Refusal::NestShape);
    }
    Ok(())
}
