//! Cuts: a row that the whole-number points still meet, and the fractional corner does not.
ghost use Rattle.std.specs.Prelude.{◌≡◌, ◌^◌, ◌<◌, take, IfSome};
ghost use Rattle.base.specs.Numbers.{all_zero, AllWithin};
ghost use Rattle.tableau.specs.Rows.{Sound};
ghost use Rattle.tableau.specs.Cuts.{cut_of, cut_row, first_fraction, is_constant, lower, numbers, upper, whole};
ghost use Rattle.tableau.specs.Tables.{Ready, top};

pub use crate::cut_numbers::Cut;
use crate::row::lowest;
use crate::table::{Row, Table};
use base::divisor::Divisor;
use base::form::{CONSTANT, Form};
use base::number::{modulo, negate, reduce};

/// Inner: whether the row's divisor divides each number of its form.
pub fn whole(row: &Row) -> bool
    requires { Sound row.now }
    ensures { result ≡ whole row.now }
{
    let by = Divisor { value: row.div };
    row.form.iter().all(|x| modulo(by, *x) == 0)
}

/// Inner: the first of the unknowns' rows whose form has a number that its divisor does not divide.
pub fn first_fraction(t: &Table) -> Option<usize>
    requires { Ready t.now }
    ensures value { result ≡ first_fraction 0 (top t.now) }
    ensures inside { IfSome result (λ h. h < t.now.unknowns) }
{
    t.rows[..t.unknowns].iter().position(|row| !whole(row))
}

/// Inner: r and T of the cut from a row.
pub fn cut_of(row: &Row) -> Cut
    requires { Sound row.now }
    ensures { numbers result ≡ cut_of row.now }
{
    let by = Divisor { value: row.div };
    let mut coefs = row.coefs;
    reduce(by, &mut coefs);
    let mut form = row.form;
    negate(&mut form);
    reduce(by, &mut form);
    Cut {
        coefs,
        form,
        div: row.div,
    }
}

/// Whether the form names no parameter.
pub fn names_no_parameter(form: &Form) -> bool
    ensures { result ≡ all_zero (take 9 form.now) }
{
    form[..CONSTANT].iter().all(|x| *x == 0)
}

impl Cut {
    /// Whether T names no parameter.
    pub fn is_constant(&self) -> bool
        ensures { result ≡ is_constant (numbers self.now) }
    {
        names_no_parameter(&self.form)
    }

    /// Inner: the cut row, (r - T) / d, or with a new parameter q at a place (r - T + d * q) / d.
    pub fn row(&self, new: Option<usize>) -> Row
        requires { IfSome new (λ q. q < 9) }
        ensures value { result ≡ cut_row (numbers self.now) new }
        ensures sound { Sound result }
    {
        let coefs = self.coefs;
        let mut form = self.form;
        negate(&mut form);
        if let Some(q) = new {
            form[q] = self.div;
        }
        lowest(Row {
            coefs,
            form,
            div: self.div,
        })
    }

    /// Inner: T - d * q, which is at least 0 for the new parameter q at a place.
    pub fn lower(&self, q: usize) -> Form
        requires { q < 9 }
        ensures value { result ≡ lower (numbers self.now) q }
        ensures small { AllWithin (2 ^ 30) result }
    {
        let mut form = self.form;
        form[q] = -self.div;
        form
    }

    /// Inner: -T + d * q + d - 1, which is at least 0 too.
    pub fn upper(&self, q: usize) -> Form
        requires { q < 9 }
        ensures value { result ≡ upper (numbers self.now) q }
        ensures small { AllWithin (2 ^ 30) result }
    {
        let mut form = self.form;
        negate(&mut form);
        form[q] = self.div;
        form[CONSTANT] += self.div - 1;
        form
    }
}
