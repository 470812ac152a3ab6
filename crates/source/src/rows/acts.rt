//! What a row source does.
ghost use Rattle.std.specs.Prelude.{◌≡◌, ◌≤◌, length, take};
ghost use Rattle.base.specs.Refusals.{reported};
ghost use Rattle.source.specs.Enters.{enter_answer, enter_report, entered, confine_answer, confine_report, confined};
ghost use Rattle.source.specs.RowSources.{meaning_of, meant, new_answer, new_report};

use super::RowSource;
use super::table::Rows;
use crate::limits::check_counts;
use crate::source::Source;
use base::refusal::Refusal;

impl RowSource {
    /// A system of n unknowns and p parameters, with no row yet.
    pub fn new(n: usize, p: usize) -> Result<RowSource, Refusal>
        ensures answer { meant result ≡ new_answer n p }
        ensures report { reported (meant result) ≡ new_report n p }
    {
        check_counts(n, p, 0, 0)?;
        Ok(RowSource {
            n,
            p,
            rows: Rows::new(n + p + 1),
            context: Rows::new(p + 1),
        })
    }

    /// Adds a row: a coefficient for each unknown, then for each parameter, then the constant.
    pub fn enter(&mut self, row: &[i64]) -> Result<(), Refusal>
        ensures answer { result ≡ enter_answer (meaning_of self.old) row.now }
        ensures report { reported result ≡ enter_report (meaning_of self.old) row.now }
        ensures left { meaning_of self.new ≡ entered (meaning_of self.old) row.now }
    {
        self.rows.give(row)
    }

    /// Adds a context row: a coefficient for each parameter, then the constant.
    pub fn confine(&mut self, row: &[i64]) -> Result<(), Refusal>
        ensures answer { result ≡ confine_answer (meaning_of self.old) row.now }
        ensures report { reported result ≡ confine_report (meaning_of self.old) row.now }
        ensures left { meaning_of self.new ≡ confined (meaning_of self.old) row.now }
    {
        self.context.give(row)
    }
}

/// Inner: writes the row over the first places.
pub fn copy_front(places: &mut [i64], row: &[i64])
    requires { length row.now ≤ length places.old }
    ensures value { take (length row.now) places.new ≡ row.now }
{
    places[0..row.len()].copy_from_slice(row);
}

impl Source for RowSource {
    ghost meaning = { meaning_of };

    fn unknowns(&self) -> usize {
        self.n
    }

    fn parameters(&self) -> usize {
        self.p
    }

    fn rows(&self) -> usize {
        self.rows.len()
    }

    fn context_rows(&self) -> usize {
        self.context.len()
    }

    fn number(&self, row: usize, column: usize) -> i64 {
        self.rows.number(row, column)
    }

    fn context_number(&self, row: usize, column: usize) -> i64 {
        self.context.number(row, column)
    }
}
