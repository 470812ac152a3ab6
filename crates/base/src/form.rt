//! A form of the parameters.
ghost use Rattle.std.specs.Prelude.{◌≡◌, ◌*◌, ◌^◌, ◌≤◌, ◌+ℤ◌, ◌*ℤ◌, unsigned_abs};
ghost use Rattle.base.specs.Numbers.{AllWithin};
ghost use Rattle.base.specs.Forms.{opposite, value_at};

use crate::number::negate;

// No bound in the type: a row that a pivot has left out of range has such a form too.
/// Coefficients of parameters 1 to 4, of new parameters 1 to 5, then a constant; unused ones are 0.
pub type Form = [i64; 10];

/// The place of the first new parameter.
pub const FIRST_NEW: usize = 4;

/// The place of the constant.
pub const CONSTANT: usize = 9;

/// What parameters 1 to 4 and new parameters 1 to 5 are set to; unused ones are 0.
pub type Setting = [i64; 9];

/// Inner: -C - 1, which is at least 0 exactly where C is not.
pub fn opposite(form: &Form) -> Form
    requires { AllWithin (2 ^ 30) form.now }
    ensures { result ≡ opposite form.now }
{
    let mut other = *form;
    negate(&mut other);
    other[CONSTANT] -= 1;
    other
}

/// A sum as it grows.
#[derive(Clone, Copy)]
pub struct Sum {
    pub value: i64,
}

/// Inner: the sum and x * y more.
pub fn plus_product(sum: Sum, x: i64, y: i64) -> Sum
    requires small_sum { unsigned_abs sum.value ≤ 9 * 2 ^ 58 }
    requires small_x { unsigned_abs x ≤ 2 ^ 31 }
    requires small_y { unsigned_abs y ≤ 2 ^ 27 }
    ensures { result.value ≡ sum.value +ℤ (x *ℤ y) }
{
    Sum {
        value: sum.value + x * y,
    }
}

/// Inner: the value of a form, whose numbers are at most 2^31 in size, at a setting, whose numbers are at most 2^27.
pub fn value(form: &Form, setting: &Setting) -> i64
    requires small_form { AllWithin (2 ^ 31) form.now }
    requires small_setting { AllWithin (2 ^ 27) setting.now }
    ensures { result ≡ value_at form.now setting.now }
{
    let mut sum = Sum {
        value: form[CONSTANT],
    };
    for (c, x) in form.iter().zip(setting) {
        sum = plus_product(sum, *c, *x);
    }
    sum.value
}
