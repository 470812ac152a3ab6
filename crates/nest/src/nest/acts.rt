//! What a nest does as a source.
ghost use Rattle.std.specs.Prelude.{◌≡◌, ◌+◌, ◌<◌, ◌≤◌, [], length, take, ◌+ℤ◌, slice_index_or};
ghost use Rattle.base.specs.Numbers.{at};
ghost use Rattle.base.specs.Forms.{dot};
ghost use Rattle.source.specs.Systems.{entry};
ghost use Rattle.algebra.specs.Lists.{column as column_of};
ghost use Rattle.nest.specs.Tables.{cell_rows, in_unknowns, loop_rows, system_of};
ghost use Rattle.base.specs.Refusals.{reported};
ghost use Rattle.nest.specs.Acts.{bounded, bound_answer, bound_report, cell_answer, cell_report, confine_answer, confine_report, confined, meant_by, nest_of, new_answer, new_report, with_cell};

use super::Nest;
use crate::numbers::{MAX_CELLS, check_given};
use base::form::{Sum, plus_product};
use base::refusal::Refusal;
use source::limits::{MAX_CONTEXT_ROW_LENGTH, MAX_UNKNOWNS};
use source::rows::RowSource;
use source::rows::acts::copy_front;
use source::source::Source;

impl Nest {
    /// A nest of n loops over p parameters: each runs from 0 to 0, and there is no condition yet.
    pub fn new(n: usize, p: usize) -> Result<Nest, Refusal>
        ensures answer { meant_by result ≡ new_answer n p }
        ensures report { reported (meant_by result) ≡ new_report n p }
    {
        let kept = RowSource::new(n, p)?;
        Ok(Nest {
            kept,
            bounds: [[0; MAX_CONTEXT_ROW_LENGTH]; MAX_UNKNOWNS],
        })
    }

    /// Sets the bound of loop i, from 0: a coefficient for each parameter, then the constant.
    pub fn bound(&mut self, i: usize, numbers: &[i64]) -> Result<(), Refusal>
        ensures answer { result ≡ bound_answer (nest_of self.old) i numbers.now }
        ensures report { reported result ≡ bound_report (nest_of self.old) i numbers.now }
        ensures left { nest_of self.new ≡ bounded (nest_of self.old) i numbers.now }
    {
        check_given(numbers, self.kept.parameters() + 1, i, self.kept.unknowns())?;
        let mut bound = [0; MAX_CONTEXT_ROW_LENGTH];
        copy_front(&mut bound, numbers);
        self.bounds[i] = bound;
        Ok(())
    }

    /// Adds a cell condition, a sum that must be 0: a coefficient for each counter, then for each parameter, then
    /// the constant.
    pub fn cell(&mut self, numbers: &[i64]) -> Result<(), Refusal>
        ensures answer { result ≡ cell_answer (nest_of self.old) numbers.now }
        ensures report { reported result ≡ cell_report (nest_of self.old) numbers.now }
        ensures left { nest_of self.new ≡ with_cell (nest_of self.old) numbers.now }
    {
        let width = self.kept.unknowns() + self.kept.parameters() + 1;
        check_given(numbers, width, self.kept.rows(), MAX_CELLS)?;
        self.kept.enter(numbers)
    }

    /// Adds a context row: a coefficient for each parameter, then the constant.
    pub fn confine(&mut self, row: &[i64]) -> Result<(), Refusal>
        ensures answer { result ≡ confine_answer (nest_of self.old) row.now }
        ensures report { reported result ≡ confine_report (nest_of self.old) row.now }
        ensures left { nest_of self.new ≡ confined (nest_of self.old) row.now }
    {
        self.kept.confine(row)
    }

    /// The numbers of the bound of loop i.
    pub(super) fn bound_of(&self, i: usize) -> &[i64]
        requires { i < (nest_of self.now).n }
        ensures value { result.now ≡ slice_index_or (nest_of self.now).bounds i [] }
    {
        front(&self.bounds[i], self.kept.parameters() + 1)
    }

    // that a column is below n + p + 1 stays a clause: a type for it would wrap one comparison, made in `number`
    /// A number of the row of a loop: its bound minus its unknown.
    fn loop_number(&self, row: usize, column: usize) -> i64
        requires known { row < (nest_of self.now).n }
        requires inside { column < (nest_of self.now).n + (nest_of self.now).p + 1 }
        ensures value { result ≡ entry (loop_rows (nest_of self.now).n 0 (nest_of self.now).bounds) row column }
    {
        let n = self.kept.unknowns();
        if column >= n {
            self.bound_of(row)[column - n]
        } else if column == row {
            -1
        } else {
            0
        }
    }

    /// A cell condition's number over parameter k (the constant if k is p), each counter being its bound minus its unknown.
    fn put_in(&self, cell: usize, k: usize) -> i64
        requires known { cell < length (nest_of self.now).cells }
        requires inside { k < (nest_of self.now).p + 1 }
        ensures value { result ≡ entry (nest_of self.now).cells cell ((nest_of self.now).n + k) +ℤ dot (slice_index_or (nest_of self.now).cells cell []) (column_of (nest_of self.now).bounds k) }
    {
        let n = self.kept.unknowns();
        let mut sum = Sum {
            value: self.kept.number(cell, n + k),
        };
        for (i, bound) in self.bounds[..n].iter().enumerate() {
            sum = plus_product(sum, self.kept.number(cell, i), bound[k]);
        }
        sum.value
    }

    /// A number of a cell condition in the unknowns.
    fn cell_number(&self, cell: usize, column: usize) -> i64
        requires known { cell < length (nest_of self.now).cells }
        requires inside { column < (nest_of self.now).n + (nest_of self.now).p + 1 }
        ensures value { result ≡ at (in_unknowns (nest_of self.now).n (nest_of self.now).bounds (slice_index_or (nest_of self.now).cells cell [])) column }
    {
        let n = self.kept.unknowns();
        if column < n {
            -self.kept.number(cell, column)
        } else {
            self.put_in(cell, column - n)
        }
    }

    /// A number of the rows of the cell conditions: each condition, then its negative.
    fn condition_number(&self, row: usize, column: usize) -> i64
        requires { column < (nest_of self.now).n + (nest_of self.now).p + 1 }
        ensures value { result ≡ entry (cell_rows (nest_of self.now).n (nest_of self.now).bounds (nest_of self.now).cells) row column }
    {
        let cell = row / 2;
        if cell >= self.kept.rows() {
            0
        } else if row % 2 == 0 {
            self.cell_number(cell, column)
        } else {
            -self.cell_number(cell, column)
        }
    }
}

/// The first numbers of a bound, which are those that count.
fn front(bound: &[i64; MAX_CONTEXT_ROW_LENGTH], width: usize) -> &[i64]
    requires { width ≤ 5 }
    ensures value { result.now ≡ take width bound.now }
{
    let (numbers, _) = bound.split_at(width);
    numbers
}

impl Source for Nest {
    ghost meaning = { λ s. system_of (nest_of s) };

    fn unknowns(&self) -> usize {
        self.kept.unknowns()
    }

    fn parameters(&self) -> usize {
        self.kept.parameters()
    }

    fn rows(&self) -> usize {
        self.kept.unknowns() + 2 * self.kept.rows()
    }

    fn context_rows(&self) -> usize {
        self.kept.context_rows()
    }

    fn number(&self, row: usize, column: usize) -> i64 {
        let n = self.kept.unknowns();
        if column >= n + self.kept.parameters() + 1 {
            0
        } else if row < n {
            self.loop_number(row, column)
        } else {
            self.condition_number(row - n, column)
        }
    }

    fn context_number(&self, row: usize, column: usize) -> i64 {
        self.kept.context_number(row, column)
    }
}
