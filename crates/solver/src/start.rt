//! The tables that work starts from.
ghost use Rattle.std.specs.Prelude.{◌≡◌, ◌+◌, ◌^◌, ◌<◌, ◌≤◌, [], ◌∷◌, ◌++◌, map, slice_index_or, unsigned_abs};
ghost use Rattle.base.specs.Numbers.{AllWithin, at};
ghost use Rattle.tableau.specs.Rows.{Sound};
ghost use Rattle.tableau.specs.Tables.{in_use, no_row, Ready, rest, top, unit_row, unit_rows};
ghost use Rattle.solver.specs.Bounds.{in_force};
ghost use Rattle.solver.specs.Tests.{test_row};

use crate::context::Context;
use base::form::{CONSTANT, FIRST_NEW, Form};
use std::array;
use tableau::table::{ROWS, Row, Table};

/// A row of zeros.
pub const BLANK: Row = Row {
    coefs: [0; 9],
    form: [0; 10],
    div: 1,
};

/// The row of an unknown: itself.
fn unit(h: usize) -> Row
    requires { h < 9 }
    ensures value { result ≡ unit_row h }
    ensures sound { Sound result }
{
    let mut coefs = [0; 9];
    coefs[h] = 1;
    Row {
        coefs,
        form: [0; 10],
        div: 1,
    }
}

/// Inner: a table whose rows are the unknowns themselves.
pub fn unit_table(unknowns: usize) -> Table
    requires { unknowns ≤ 9 }
    ensures rows { in_use result ≡ unit_rows 0 unknowns }
    ensures ready { Ready result }
    ensures counts { (result.count ≡ unknowns) × (result.unknowns ≡ unknowns) }
{
    let mut rows = [BLANK; ROWS];
    for (h, row) in rows[..unknowns].iter_mut().enumerate() {
        *row = unit(h);
    }
    Table {
        rows,
        count: unknowns,
        unknowns,
    }
}

/// Inner: a row added to a table.
pub fn push_row(t: &mut Table, row: Row)
    requires ready { Ready t.old }
    requires room { t.old.count < 64 }
    requires sound { Sound row }
    ensures rows { in_use t.new ≡ in_use t.old ++ row ∷ [] }
    ensures row { slice_index_or t.new.rows t.old.count no_row ≡ row }
    ensures top { top t.new ≡ top t.old }
    ensures rest { rest t.new ≡ rest t.old ++ row ∷ [] }
    ensures ready { Ready t.new }
    ensures counts { (t.new.count ≡ t.old.count + 1) × (t.new.unknowns ≡ t.old.unknowns) }
{
    let i = t.count;
    t.rows[i] = row;
    t.count = i + 1;
}

/// The coefficient of unknown l of a test: the parameters in use come first, then the new ones.
fn test_coefficient(form: &Form, parameters: usize, made: usize, l: usize) -> i64
    requires small { AllWithin (2 ^ 30) form.now }
    requires few { (parameters ≤ 4) × (made ≤ 5) }
    requires column { l < 9 }
    ensures value { result ≡ at (test_row parameters made form.now).coefs l }
    ensures small { unsigned_abs result ≤ 2 ^ 30 }
{
    if l < parameters {
        form[l]
    } else if l - parameters < made {
        form[FIRST_NEW + (l - parameters)]
    } else {
        0
    }
}

/// The form as a row of a test.
fn test_row(form: &Form, parameters: usize, made: usize) -> Row
    requires small { AllWithin (2 ^ 30) form.now }
    requires few { (parameters ≤ 4) × (made ≤ 5) }
    ensures value { result ≡ test_row parameters made form.now }
    ensures sound { Sound result }
{
    let coefs = array::from_fn(|l| test_coefficient(form, parameters, made, l));
    let mut constant = [0; 10];
    constant[CONSTANT] = form[CONSTANT];
    Row {
        coefs,
        form: constant,
        div: 1,
    }
}

/// Inner: the table of a test: its unknowns are the parameters and the new ones so far, its rows the
/// context.
pub fn test_table(ctx: &Context) -> Table
    ensures rows { in_use result ≡ unit_rows 0 (ctx.now.parameters + ctx.now.made) ++ map (test_row ctx.now.parameters ctx.now.made) (in_force ctx.now) }
    ensures ready { Ready result }
    ensures counts { (result.count ≡ ctx.now.parameters + ctx.now.made + ctx.now.count) × (result.unknowns ≡ ctx.now.parameters + ctx.now.made) }
{
    let mut t = unit_table(ctx.parameters + ctx.made);
    for form in &ctx.forms[..ctx.count] {
        push_row(&mut t, test_row(form, ctx.parameters, ctx.made));
    }
    t
}
