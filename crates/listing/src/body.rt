//! The numbers that follow the counts, and the system that they give.
ghost use Rattle.std.specs.Prelude.{◌≡◌, pos, length, slice_index_or};
ghost use Rattle.source.specs.Counted.{sizes_of};
ghost use Rattle.source.specs.RowSources.{meaning_of, meant};
ghost use Rattle.listing.specs.Listings.{arrived, confine_all, context_rows_in, enter_all, rows_in, system_answer, total};

use crate::counts::before_context;
use base::refusal::Refusal;
use source::counts::Counts;
use source::rows::RowSource;

/// The fuel, the rows and the context rows, one number after another.
#[derive(Clone, Copy)]
pub(crate) struct Body<'a> {
    pub(crate) counts: Counts,
    pub(crate) numbers: &'a [i64],
    ghost full: { length numbers.now ≡ total (sizes_of counts) },
}

impl Body<'_> {
    /// The fuel, which stands first.
    pub(crate) fn fuel(&self) -> i64
        ensures value { result ≡ slice_index_or self.now.numbers.now 0 (pos 0) }
    {
        self.numbers[0]
    }

    /// Enters the rows, which stand after the fuel.
    fn enter_rows(&self, source: &mut RowSource) -> Result<(), Refusal>
        ensures answer { arrived (meaning_of source.new) result ≡ enter_all (rows_in (sizes_of self.now.counts) self.now.numbers.now) (meaning_of source.old) }
    {
        let (front, _) = self.numbers.split_at(before_context(self.counts));
        let (_, rows) = front.split_at(1);
        for row in rows.chunks_exact(self.counts.row_length()) {
            source.enter(row)?;
        }
        Ok(())
    }

    // two loops of three lines: one over a closure would have to speak of all of the closure's steps
    /// Adds the context rows, which stand last.
    fn confine_rows(&self, source: &mut RowSource) -> Result<(), Refusal>
        ensures answer { arrived (meaning_of source.new) result ≡ confine_all (context_rows_in (sizes_of self.now.counts) self.now.numbers.now) (meaning_of source.old) }
    {
        let (_, rows) = self.numbers.split_at(before_context(self.counts));
        for row in rows.chunks_exact(self.counts.context_row_length()) {
            source.confine(row)?;
        }
        Ok(())
    }

    /// The system of the numbers.
    pub(crate) fn system(&self) -> Result<RowSource, Refusal>
        ensures answer { meant result ≡ system_answer (sizes_of self.now.counts) self.now.numbers.now }
    {
        let mut source = RowSource::new(self.counts.n, self.counts.p)?;
        self.enter_rows(&mut source)?;
        self.confine_rows(&mut source)?;
        Ok(source)
    }
}
