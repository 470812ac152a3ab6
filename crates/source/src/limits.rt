//! The limits of a system: how many unknowns, parameters and rows, and how large a number.
ghost use Rattle.std.specs.Prelude.{◌≡◌, ◌<◌, ◌≤◌, length, OnOk};
ghost use Rattle.base.specs.Numbers.{AllWithin};
ghost use Rattle.base.specs.Refusals.{reported};
ghost use Rattle.source.specs.Limits.{counts_answer, counts_report, first_outside, in_limits, numbers_answer, numbers_report, row_answer, row_report};

use base::refusal::Refusal;

/// A system has 1 to 6 unknowns.
pub const MAX_UNKNOWNS: usize = 6;
/// It has 0 to 4 parameters.
pub const MAX_PARAMETERS: usize = 4;
/// It has at most 16 rows.
pub const MAX_ROWS: usize = 16;
/// It has at most 8 context rows.
pub const MAX_CONTEXT_ROWS: usize = 8;
/// So a row has at most 11 numbers: for the unknowns, for the parameters, and the constant.
pub const MAX_ROW_LENGTH: usize = 11;
/// And a context row at most 5.
pub const MAX_CONTEXT_ROW_LENGTH: usize = 5;
/// Each number lies from -1,000,000 to 1,000,000.
pub const MAX_NUMBER: u64 = 1_000_000;

/// Refuses counts of unknowns, parameters, rows and context rows that no system may have.
pub fn check_counts(n: usize, p: usize, m: usize, k: usize) -> Result<(), Refusal>
    ensures answer { result ≡ counts_answer n p m k }
    ensures report { reported result ≡ counts_report n p m k }
    ensures fits { OnOk result ((1 ≤ n) × (n ≤ 6) × (p ≤ 4) × (m ≤ 16) × (k ≤ 8)) }
{
    if n < 1 || n > MAX_UNKNOWNS || p > MAX_PARAMETERS || m > MAX_ROWS || k > MAX_CONTEXT_ROWS {
        Err(Refusal::Counts)
    } else {
        Ok(())
    }
}

/// Whether a row may have this number.
pub fn in_limits(x: i64) -> bool
    ensures value { result ≡ in_limits x }
{
    x.unsigned_abs() <= MAX_NUMBER
}

/// The column of the first number that is out of limits.
fn first_outside(numbers: &[i64]) -> Option<usize>
    ensures value { result ≡ first_outside 0 numbers.now }
{
    numbers.iter().position(|x| !in_limits(*x))
}

/// Refuses numbers that make no row; `row` is the row's place in the system. Which numbers make a
/// row is said here alone.
pub fn check_numbers(row: usize, numbers: &[i64]) -> Result<(), Refusal>
    ensures answer { result ≡ numbers_answer row numbers.now }
    ensures report { reported result ≡ numbers_report row numbers.now }
    ensures small { OnOk result (AllWithin 1000000 numbers.now) }
{
    match first_outside(numbers) {
        Some(column) => Err(Refusal::Number { row, column }),
        None => Ok(()),
    }
}

/// Refuses a row that is not `width` long, or comes when there are `most` already, and only then
/// one whose numbers no row may have.
pub fn check_row(numbers: &[i64], width: usize, count: usize, most: usize) -> Result<(), Refusal>
    ensures answer { result ≡ row_answer width count most numbers.now }
    ensures report { reported result ≡ row_report width count most numbers.now }
    ensures fits { OnOk result ((length numbers.now ≡ width) × (count < most)) }
{
    if numbers.len() != width || count >= most {
        return Err(Refusal::RowShape);
    }
    check_numbers(0, numbers)
}
