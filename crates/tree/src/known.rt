//! What the parameters are set to while a tree is asked.
ghost use Rattle.std.specs.Prelude.{◌≡◌, ◌+◌, ◌*◌, ◌^◌, ◌≤◌, true, length, pos, slice_index_or, take, int_le};
ghost use Rattle.base.specs.Numbers.{AllWithin};
ghost use Rattle.base.specs.Forms.{value_at};
ghost use Rattle.tree.specs.Answers.{gaining, values_at};
ghost use Rattle.tree.specs.Finds.{is_point, proper, six_numbers, spread};
ghost use Rattle.tree.specs.Parts.{NoneBelow, total};

use crate::node::NodeForm;
use crate::walk::all_below;
use base::divisor::Divisor;
use base::form::{FIRST_NEW, Form, Setting, value};
use base::number::floor_div;

/// A node's form with wider numbers.
fn wide(form: &NodeForm) -> Form
    ensures same { result ≡ form.now }
    ensures small { AllWithin (2 ^ 31) result }
{
    // a loop, as the range of each number is not at hand in the closure of a `map`
    let mut wide = [0; 10];
    for (k, x) in form.iter().enumerate() {
        wide[k] = i64::from(*x);
    }
    wide
}

/// The number at a place of a point, 0 beyond it.
fn number(point: &[i64], place: usize) -> i64
    ensures value { result ≡ slice_index_or point.now place (pos 0) }
{
    point.get(place).copied().unwrap_or(0)
}

/// The parameters and the new ones made so far. Four parameters of at most 1,000,000, and each new one at most
/// doubles the total, so the value of each form fits.
#[derive(Clone, Copy)]
pub(crate) struct Known {
    pub(crate) setting: Setting,
    pub(crate) made: usize,
    ghost few: { made ≤ 5 },
    ghost above: { NoneBelow setting },
    ghost small: { total setting ≤ 4000000 * 2 ^ made },
}

impl Known {
    /// A point, before any new parameter is made.
    pub(crate) fn of(point: &[i64]) -> Self
        requires few { length point.now ≤ 4 }
        requires numbers { is_point point.now ≡ true }
        ensures setting { result.setting ≡ spread point.now }
        ensures made { result.made ≡ 0 }
    {
        // number by number: what is copied as a stretch of bytes is slow to read back at once
        let (a, b, c, d) = (
            number(point, 0),
            number(point, 1),
            number(point, 2),
            number(point, 3),
        );
        Known {
            setting: [a, b, c, d, 0, 0, 0, 0, 0],
            made: 0,
        }
    }

    /// The value of a node's form.
    fn value_of(&self, form: &NodeForm) -> i64
        ensures value { result ≡ value_at form.now self.now.setting }
    {
        value(&wide(form), &self.setting)
    }

    /// Whether a node's form is at least 0.
    pub(crate) fn holds(&self, form: &NodeForm) -> bool
        ensures value { result ≡ int_le (pos 0) (value_at form.now self.now.setting) }
    {
        0 <= self.value_of(form)
    }

    /// The value of a form of a leaf, 0 beyond its first n.
    fn leaf_value(&self, forms: &[NodeForm; 6], n: usize, place: usize) -> i64
        requires few { n ≤ 6 }
        ensures value { result ≡ slice_index_or (values_at self.now.setting (take n forms.now)) place (pos 0) }
    {
        match forms[..n].get(place) {
            Some(form) => self.value_of(form),
            None => 0,
        }
    }

    // n ≤ 6 is asked of a number, here and at the walk: the system's counts have it in their type, a tree's head does not
    /// The point that a leaf gives: the values of its first n forms, zeros after them.
    pub(crate) fn leaf_values(&self, forms: &[NodeForm; 6], n: usize) -> [i64; 6]
        requires few { n ≤ 6 }
        ensures value { result ≡ six_numbers (values_at self.now.setting (take n forms.now)) }
    {
        // number by number, as in `of`
        let a = self.leaf_value(forms, n, 0);
        let b = self.leaf_value(forms, n, 1);
        let c = self.leaf_value(forms, n, 2);
        let d = self.leaf_value(forms, n, 3);
        let e = self.leaf_value(forms, n, 4);
        let f = self.leaf_value(forms, n, 5);
        [a, b, c, d, e, f]
    }

    /// Whether one new parameter more may be made.
    pub(crate) fn may_gain(&self, d: i32, form: &NodeForm) -> bool
        ensures value { result ≡ proper self.now.made d form.now }
    {
        self.made < 5 && (2 <= d && all_below(form, d))
    }

    /// Takes in one new parameter more.
    pub(crate) fn gain(&mut self, d: i32, form: &NodeForm)
        requires proper { proper self.old.made d form.now ≡ true }
        ensures setting { self.new.setting ≡ gaining self.old.made d form.now self.old.setting }
        ensures made { self.new.made ≡ self.old.made + 1 }
    {
        let by = Divisor {
            value: i64::from(d),
        };
        let made = self.made;
        let number = floor_div(by, self.value_of(form));
        self.setting[FIRST_NEW + made] = number;
        self.made = made + 1;
    }
}
