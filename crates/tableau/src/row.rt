//! Single rows: the range, lowest terms, what a pivot makes of a row.
ghost use Rattle.std.specs.Prelude.{◌≡◌, ℕ, ◌^◌, ◌<◌, ◌≤◌, true, length, ℤ, pos, ◌*ℤ◌, ◌≤ℤ◌, ◌<ℤ◌, unsigned_abs};
ghost use Rattle.base.specs.Numbers.{AllWithin, at};
ghost use Rattle.tableau.specs.Rows.{LowestTerms, Sound, combined, crossed, fits, gcd_of, lowest, pivoted, turned};

use crate::pair::Pair;
use crate::table::Row;
use base::divisor::Divisor;
use base::number::{divide, gcd_of, in_range, is_small, quotient};

/// Whether each number of the row lies from -2^30 to 2^30.
pub fn fits(row: &Row) -> bool
    ensures { result ≡ fits row.now }
{
    in_range(&row.coefs) && in_range(&row.form) && is_small(row.div)
}

/// Inner: the greatest number that divides each number of the row, whose divisor is 1 or more.
fn divisor_of(row: &Row) -> Divisor
    requires { pos 0 <ℤ row.now.div }
    ensures value { result.value ≡ pos (gcd_of row.now) }
    ensures below { result.value ≤ℤ row.now.div }
{
    // `as`: the greatest divisor is no larger than the row's own, so no second way out is needed
    let g = gcd_of(row.div.unsigned_abs(), &row.coefs);
    Divisor {
        value: gcd_of(g, &row.form) as i64,
    }
}

/// Inner: the row in lowest terms; its divisor is 1 or more.
pub fn lowest(mut row: Row) -> Row
    requires { pos 0 <ℤ row.div }
    ensures value { result ≡ lowest row }
    ensures terms { LowestTerms row result }
{
    let by = divisor_of(&row);
    if by.value == 1 {
        return row;
    }
    divide(by, &mut row.coefs);
    divide(by, &mut row.form);
    row.div = quotient(by, row.div);
    row
}

/// Inner: x * y, of two numbers in range.
pub fn times(x: i64, y: i64) -> i64
    requires small_x { unsigned_abs x ≤ 2 ^ 30 }
    requires small_y { unsigned_abs y ≤ 2 ^ 30 }
    ensures value { result ≡ x *ℤ y }
    ensures within { unsigned_abs result ≤ 2 ^ 60 }
{
    x * y
}

/// a * x - b * y.
fn cross(p: Pair, x: i64, y: i64) -> i64
    requires small_x { unsigned_abs x ≤ 2 ^ 30 }
    requires small_y { unsigned_abs y ≤ 2 ^ 30 }
    ensures { result ≡ crossed p.a p.b x y }
{
    times(p.a, x) - times(p.b, y)
}

/// Inner: each x of xs becomes a * x - b * y, with the y at its place in ys.
pub fn combine(p: Pair, xs: &mut [i64], ys: &[i64])
    requires same_length { length xs.old ≡ length ys.now }
    requires small_xs { AllWithin (2 ^ 30) xs.old }
    requires small_ys { AllWithin (2 ^ 30) ys.now }
    ensures { xs.new ≡ combined p.a p.b xs.old ys.now }
{
    // no zip with ys: its contract says nothing of what is written through it, so the proof would not close
    for (k, x) in xs.iter_mut().enumerate() {
        *x = cross(p, *x, ys[k]);
    }
}

/// Inner: the row h after the pivot at column j of row i, in lowest terms.
pub fn pivoted(mut h: Row, i: &Row, j: usize) -> Row
    requires column { j < 9 }
    requires above { pos 0 <ℤ at i.now.coefs j }
    requires sound_h { Sound h }
    requires sound_i { Sound i.now }
    ensures { result ≡ pivoted i.now j h }
{
    let b = h.coefs[j];
    // a row that does not name the unknown of column j stays as it is
    if b == 0 {
        return h;
    }
    let factors = Pair { a: i.coefs[j], b };
    combine(factors, &mut h.coefs, &i.coefs);
    combine(factors, &mut h.form, &i.form);
    h.coefs[j] = times(b, i.div);
    h.div = times(factors.a, h.div);
    lowest(h)
}
