//! Division that rounds down, greatest common divisors, and the range of a table's numbers.
ghost use Rattle.std.specs.Prelude.{◌≡◌, ◌^◌, ◌≤◌, map, neg_ℤ, unsigned_abs};
ghost use Rattle.base.specs.Numbers.{AllWithin, gcd, gcds, floor_by, in_range, mod_by, quot_by, within};

use crate::divisor::Divisor;

/// The largest size of a number in a table or a context: 2^30.
pub const RANGE: u64 = 1 << 30;

// A divisor and a number each: functions, in the order in which their definitions map over a list.
/// a modulo the divisor, from 0 to one less than it, for negative a too.
pub fn modulo(by: Divisor, a: i64) -> i64
    ensures { result ≡ mod_by by.value a }
{
    a.rem_euclid(by.value)
}

/// a over the divisor, rounded down.
pub fn floor_div(by: Divisor, a: i64) -> i64
    ensures { result ≡ floor_by by.value a }
{
    a.div_euclid(by.value)
}

/// a over the divisor, which is meant to divide it.
pub fn quotient(by: Divisor, a: i64) -> i64
    ensures { result ≡ quot_by by.value a }
{
    // most numbers of a row are 0, and a division takes long
    if a == 0 {
        return 0;
    }
    a / by.value
}

/// The greatest common divisor of a and b; 0 only where both are 0.
pub fn gcd(a: u64, b: u64) -> u64
    ensures { result ≡ gcd a b }
{
    let mut x = a;
    let mut y = b;
    while y != 0 {
        let z = x % y;
        x = y;
        y = z;
    }
    x
}

/// The greatest common divisor of g and each number of xs.
pub fn gcd_of(g: u64, xs: &[i64]) -> u64
    ensures { result ≡ gcds g xs.now }
{
    let mut all = g;
    for x in xs {
        // nothing but 1 divides 1
        if all == 1 {
            return 1;
        }
        all = gcd(all, x.unsigned_abs());
    }
    all
}

/// Whether the number lies from -2^30 to 2^30.
pub fn is_small(x: i64) -> bool
    ensures { result ≡ in_range x }
{
    x.unsigned_abs() <= RANGE
}

/// Whether each number lies from -2^30 to 2^30.
pub fn in_range(xs: &[i64]) -> bool
    ensures { result ≡ within xs.now }
{
    xs.iter().all(|x| is_small(*x))
}

// `reduce`, `divide` and `negate` differ in what they compute: the contract of one loop over a closure would be longer than all three.
/// Each number modulo the divisor, in place.
pub fn reduce(by: Divisor, xs: &mut [i64])
    ensures { xs.new ≡ map (mod_by by.value) xs.old }
{
    for x in xs.iter_mut() {
        *x = modulo(by, *x);
    }
}

/// Each number over the divisor, in place.
pub fn divide(by: Divisor, xs: &mut [i64])
    ensures { xs.new ≡ map (quot_by by.value) xs.old }
{
    for x in xs.iter_mut() {
        *x = quotient(by, *x);
    }
}

/// Inner: -a, of a number that is not the least of its type.
pub fn opposite_number(a: i64) -> i64
    requires { unsigned_abs a ≤ 2 ^ 62 }
    ensures { result ≡ neg_ℤ a }
{
    -a
}

/// Inner: the negative of each number, in place.
pub fn negate(xs: &mut [i64])
    requires { AllWithin (2 ^ 62) xs.old }
    ensures { xs.new ≡ map neg_ℤ xs.old }
{
    for x in xs.iter_mut() {
        *x = opposite_number(*x);
    }
}
