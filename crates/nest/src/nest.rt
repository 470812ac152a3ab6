//! The nest source: a system from loops and the cell that they post to.
ghost use Rattle.std.specs.Prelude.{◌≡◌, ◌+◌, ◌≤◌, length};
ghost use Rattle.nest.specs.Loops.{AllLong, AllSmall, loops_of};

use source::limits::{MAX_CONTEXT_ROW_LENGTH, MAX_UNKNOWNS};
use source::rows::RowSource;

pub mod acts;
pub mod back;

/// Up to six loops, one in the other, over up to four parameters. Loop i runs from 0 to bound i, of which the
/// first p + 1 numbers count. The cell conditions are kept as the rows of a row source, which has the
/// context rows too.
#[derive(Clone, Copy)]
pub struct Nest {
    kept: RowSource,
    // an array, and no rows that are given one by one: a bound is set at its loop, in any order and again
    bounds: [[i64; MAX_CONTEXT_ROW_LENGTH]; MAX_UNKNOWNS],
    ghost each_bounded: { length (loops_of kept bounds).bounds ≡ (loops_of kept bounds).n },
    ghost bounds_long: { AllLong ((loops_of kept bounds).p + 1) (loops_of kept bounds).bounds },
    ghost bounds_small: { AllSmall 300 (loops_of kept bounds).bounds },
    ghost few_cells: { length (loops_of kept bounds).cells ≤ 3 },
    ghost cells_long: { AllLong ((loops_of kept bounds).n + (loops_of kept bounds).p + 1) (loops_of kept bounds).cells },
    ghost cells_small: { AllSmall 300 (loops_of kept bounds).cells },
    ghost context_long: { AllLong ((loops_of kept bounds).p + 1) (loops_of kept bounds).context },
    ghost context_small: { AllSmall 1000000 (loops_of kept bounds).context },
}
