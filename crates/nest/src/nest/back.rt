//! From a parameter point and the numbers of a least point to the counters of the loops.
ghost use Rattle.std.specs.Prelude.{◌≡◌, ◌<◌, ◌≤◌, [], length, Ok, Err, slice_index_or, unsigned_abs};
ghost use Rattle.base.specs.Numbers.{AllWithin};
ghost use Rattle.base.specs.Forms.{value_at};
ghost use Rattle.base.specs.Refusals.{reported};
ghost use Rattle.tree.specs.Finds.{point_answer};
ghost use Rattle.nest.specs.Acts.{nest_of};
ghost use Rattle.nest.specs.Backs.{back_report, counter_of, counters_of, left_of, said_of, turned_back};

use super::Nest;
use base::form::{Sum, plus_product};
use base::refusal::Refusal;
use source::source::Source;
use tree::walk::check_point;

/// A nest at a parameter point.
#[derive(Clone, Copy)]
struct Postings<'a> {
    nest: &'a Nest,
    point: &'a [i64],
    ghost counted: { length point.now ≡ (nest_of nest.now).p },
    ghost small: { AllWithin 1000000 point.now },
}

impl<'a> Postings<'a> {
    /// Refuses what is no parameter point: 42 if it is not of p numbers, 43 if one is not from 0 to 1,000,000.
    fn at(nest: &'a Nest, point: &'a [i64]) -> Result<Postings<'a>, Refusal>
        ensures answer { elim result [ Ok s ↦ (point_answer (nest_of nest.now).p point.now ≡ Ok tt) × ((s.nest.now ≡ nest.now) × (s.point.now ≡ point.now)) | Err e ↦ point_answer (nest_of nest.now).p point.now ≡ Err e ] }
    {
        check_point(point, nest.kept.parameters())?;
        Ok(Postings { nest, point })
    }

    /// The bound of loop i.
    fn bound(&self, i: usize) -> i64
        requires { i < (nest_of self.now.nest.now).n }
        ensures value { result ≡ value_at (slice_index_or (nest_of self.now.nest.now).bounds i []) self.now.point.now }
        ensures size { unsigned_abs result ≤ 1200000300 }
    {
        let bound = self.nest.bound_of(i);
        let mut sum = Sum {
            value: bound[self.point.len()],
        };
        for (c, x) in bound.iter().zip(self.point) {
            sum = plus_product(sum, *c, *x);
        }
        sum.value
    }

    /// The counter that a number stands for: the bound of loop i minus the number, which is from 0 to the bound.
    fn counter(&self, i: usize, number: i64) -> Result<i64, Refusal>
        requires { i < (nest_of self.now.nest.now).n }
        ensures answer { result ≡ counter_of (slice_index_or (nest_of self.now.nest.now).bounds i []) self.now.point.now number }
    {
        let bound = self.bound(i);
        if !(0..=bound).contains(&number) {
            return Err(Refusal::BeyondBound);
        }
        Ok(bound - number)
    }

    /// The counters that the numbers stand for, zeros after them.
    fn counters(&self, numbers: &[i64; 6]) -> Result<[i64; 6], Refusal>
        ensures answer { result ≡ counters_of (nest_of self.now.nest.now).bounds self.now.point.now numbers.now }
    {
        let mut counters = [0; 6];
        for (i, number) in numbers[..self.nest.kept.unknowns()].iter().enumerate() {
            counters[i] = self.counter(i, *number)?;
        }
        Ok(counters)
    }
}

impl Nest {
    /// Turns the numbers of a point of the nest's system into counters: each bound at the parameter point minus
    /// its number, zeros after them.
    ///
    /// Refused are, in this order: a parameter point not of p numbers (42), one with a number not from 0 to
    /// 1,000,000 (43), a number not from 0 to its loop's bound (45). The place then holds zeros.
    pub fn back(
        &self,
        point: &[i64],
        numbers: &[i64; 6],
        place: &mut [i64; 6],
    ) -> Result<(), Refusal>
        ensures answer { result ≡ said_of (turned_back (nest_of self.now) point.now numbers.now) }
        ensures report { reported result ≡ back_report (nest_of self.now) point.now numbers.now }
        ensures left { place.new ≡ left_of (turned_back (nest_of self.now) point.now numbers.now) }
    {
        *place = [0; 6];
        let postings = Postings::at(self, point)?;
        *place = postings.counters(numbers)?;
        Ok(())
    }
}
