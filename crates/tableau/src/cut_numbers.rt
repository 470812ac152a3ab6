//! What a cut is made of.
ghost use Rattle.std.specs.Prelude.{ℕ, ◌^◌, pos, ◌≤ℤ◌, ◌<ℤ◌};
ghost use Rattle.base.specs.Numbers.{at};

use crate::table::COLUMNS;
use base::form::Form;

/// The numbers of a cut: r, T and the divisor d, which is at most 2^30. Those of r and T lie from 0
/// to d - 1.
#[derive(Clone, Copy)]
pub struct Cut {
    pub coefs: [i64; COLUMNS],
    pub form: Form,
    pub div: i64,
    pub ghost coefs_low: { (k : ℕ) → pos 0 ≤ℤ at coefs k },
    pub ghost coefs_high: { (k : ℕ) → at coefs k <ℤ div },
    pub ghost form_low: { (k : ℕ) → pos 0 ≤ℤ at form k },
    pub ghost form_high: { (k : ℕ) → at form k <ℤ div },
    pub ghost below: { div ≤ℤ pos (2 ^ 30) },
}
