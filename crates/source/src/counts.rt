//! The counts of a system.
ghost use Rattle.std.specs.Prelude.{◌≡◌, ◌≤◌};

use crate::limits::check_counts;
use base::refusal::Refusal;

/// How many unknowns, parameters, rows and context rows a system has, within its limits.
#[derive(Clone, Copy)]
pub struct Counts {
    pub n: usize,
    pub p: usize,
    pub m: usize,
    pub k: usize,
    pub ghost some_unknown: { 1 ≤ n },
    pub ghost unknowns_fit: { n ≤ 6 },
    pub ghost parameters_fit: { p ≤ 4 },
    pub ghost rows_fit: { m ≤ 16 },
    pub ghost context_fits: { k ≤ 8 },
}

impl Counts {
    ghost use Rattle.source.specs.Counted.{context_row_length, counted, row_length, sized, sizes_of};

    /// n unknowns, p parameters, m rows and k context rows, unless no system may have so many.
    pub fn new(n: usize, p: usize, m: usize, k: usize) -> Result<Counts, Refusal>
        ensures answer { counted result ≡ sized n p m k }
    {
        check_counts(n, p, m, k)?;
        Ok(Counts { n, p, m, k })
    }

    /// How many numbers a row has.
    pub fn row_length(self) -> usize
        ensures value { result ≡ row_length (sizes_of self) }
        ensures few { result ≤ 11 }
    {
        self.n + self.p + 1
    }

    /// How many numbers a context row has.
    pub fn context_row_length(self) -> usize
        ensures value { result ≡ context_row_length (sizes_of self) }
        ensures few { result ≤ 5 }
    {
        self.p + 1
    }
}
