//! Rows of one width, given one by one.
ghost use Rattle.std.specs.Prelude.{◌≡◌, ◌≤◌, [], length};

use super::acts::copy_front;
use crate::limits::check_row;
use base::refusal::Refusal;

// Arrays, not a `Vec`: making a source cannot fail for want of memory.
/// At most `MOST` rows, each of the same width. Of `numbers` the first `count` rows count, and of each the first
/// `width` numbers.
#[derive(Clone, Copy)]
pub struct Rows<const WIDEST: usize, const MOST: usize> {
    width: usize,
    count: usize,
    numbers: [[i64; WIDEST]; MOST],
    ghost wide: { width ≤ WIDEST },
    ghost fit: { count ≤ MOST },
}

impl<const WIDEST: usize, const MOST: usize> Rows<WIDEST, MOST> {
    ghost use Rattle.source.specs.Systems.{entry};
    ghost use Rattle.base.specs.Refusals.{reported};
    ghost use Rattle.source.specs.Limits.{row_answer, row_report};
    ghost use Rattle.source.specs.RowSources.{given, joined};

    /// No rows yet.
    pub(crate) fn new(width: usize) -> Rows<WIDEST, MOST>
        requires { width ≤ WIDEST }
        ensures none { given result ≡ [] }
        ensures width { result.width ≡ width }
    {
        Rows {
            width,
            count: 0,
            numbers: [[0; WIDEST]; MOST],
        }
    }

    /// Adds a row, unless it is not as wide as the others, or comes when all places are taken, or has a number that
    /// no row may have.
    pub(crate) fn give(&mut self, row: &[i64]) -> Result<(), Refusal>
        ensures answer { result ≡ row_answer self.old.width (length (given self.old)) MOST row.now }
        ensures report { reported result ≡ row_report self.old.width (length (given self.old)) MOST row.now }
        ensures left { given self.new ≡ joined (given self.old) row.now result }
        ensures width { self.new.width ≡ self.old.width }
    {
        check_row(row, self.width, self.count, MOST)?;
        let mut numbers = [0; WIDEST];
        copy_front(&mut numbers, row);
        self.numbers[self.count] = numbers;
        self.count += 1;
        Ok(())
    }

    /// How many there are.
    pub(crate) fn len(&self) -> usize
        ensures value { result ≡ length (given self.now) }
    {
        self.count
    }

    /// The number of a row at a column; 0 where there is none.
    pub(crate) fn number(&self, row: usize, column: usize) -> i64
        ensures value { result ≡ entry (given self.now) row column }
    {
        if row < self.count && column < self.width {
            self.numbers[row][column]
        } else {
            0
        }
    }
}
