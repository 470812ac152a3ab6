//! The row source: a system whose rows are given one by one.
ghost use Rattle.std.specs.Prelude.{◌≡◌, ◌+◌, ◌≤◌};

use crate::limits::{MAX_CONTEXT_ROW_LENGTH, MAX_CONTEXT_ROWS, MAX_ROW_LENGTH, MAX_ROWS};

pub mod acts;
pub mod table;

use table::Rows;

/// A system of n unknowns and p parameters with the rows given so far.
#[derive(Clone, Copy)]
pub struct RowSource {
    n: usize,
    p: usize,
    rows: Rows<MAX_ROW_LENGTH, MAX_ROWS>,
    context: Rows<MAX_CONTEXT_ROW_LENGTH, MAX_CONTEXT_ROWS>,
    ghost some_unknown: { 1 ≤ n },
    ghost unknowns_fit: { n ≤ 6 },
    ghost parameters_fit: { p ≤ 4 },
    ghost rows_wide: { rows.width ≡ n + p + 1 },
    ghost context_wide: { context.width ≡ p + 1 },
}
