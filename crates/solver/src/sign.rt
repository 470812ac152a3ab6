//! The sign of a form where the context holds.
ghost use Rattle.std.specs.Prelude.{◌≡◌, ℕ, ◌+◌, ◌^◌, ◌<◌, ◌≤◌, not, ◌&&◌, pos, IfOk, int_le, int_lt};
ghost use Rattle.base.specs.Numbers.{AllWithin, at};
ghost use Rattle.tableau.specs.Tables.{Ready, in_use};
ghost use Rattle.solver.specs.Bounds.{SameContext, ScanBelow, Stepped};
ghost use Rattle.solver.specs.Rules.{Work, none_above, none_below, scan, sign_in};
ghost use Rattle.solver.specs.Ties.{KnownAs, first_unsure, limits, scanned_at};

use crate::context::Context;
use crate::count::{Count, Stopped};
use crate::test::test_with;
use base::form::{CONSTANT, Form, opposite};
use tableau::table::Table;

/// The sign of a form at the settings that meet the context.
#[derive(Clone, Copy)]
pub enum Sign {
    NonNegative,
    Negative,
    Unknown,
}

/// What the signs of a table's rows say: the first negative row, else the first unknown one.
#[derive(Clone, Copy)]
pub enum Scan {
    Negative(usize),
    Unsure(usize),
    Clear,
}

/// Whether no number of the form is below 0.
fn none_below(form: &Form) -> bool
    ensures value { result ≡ none_below form.now }
{
    form.iter().all(|x| *x >= 0)
}

/// Whether no number of the form is above 0.
fn none_above(form: &Form) -> bool
    ensures value { result ≡ none_above form.now }
{
    form.iter().all(|x| *x <= 0)
}

/// Whether the constant is below 0 and no number above 0.
fn plainly_negative(form: &Form) -> bool
    ensures value { result ≡ (int_lt (at form.now 9) (pos 0) && none_above form.now) }
{
    form[CONSTANT] < 0 && none_above(form)
}

/// Inner: the sign of a form: by two quick rules, else by two tests of the context.
pub fn sign_of(
    form: &Form,
    ctx: &mut Context,
    fuel: u32,
    count: Count,
) -> Result<(Sign, Count), Stopped>
    requires small { AllWithin (2 ^ 30) form.now }
    requires room { ctx.old.count < 31 }
    requires within { count.steps ≤ fuel }
    requires fuel { fuel ≤ 100000 }
    ensures value { (s : Work) (n : ℕ) → KnownAs ctx.old s → sign_in s form.now (limits fuel n) count ≡ result }
    ensures kept { SameContext ctx.old ctx.new }
    ensures nodes { IfOk result (λ v. v.1.nodes ≡ count.nodes) }
    ensures stepped { IfOk result (λ v. Stepped fuel count v.1) }
{
    if none_below(form) {
        return Ok((Sign::NonNegative, count));
    }
    if plainly_negative(form) {
        return Ok((Sign::Negative, count));
    }
    let other = opposite(form);
    let (below, count) = test_with(ctx, &other, fuel, count)?;
    if !below {
        return Ok((Sign::NonNegative, count));
    }
    let (above, count) = test_with(ctx, form, fuel, count)?;
    if above {
        Ok((Sign::Unknown, count))
    } else {
        Ok((Sign::Negative, count))
    }
}

/// Inner: the signs of the rows in order, up to the first negative one.
pub fn scan_rows(
    t: &Table,
    ctx: &mut Context,
    fuel: u32,
    start: Count,
) -> Result<(Scan, Count), Stopped>
    requires table { Ready t.now }
    requires room { ctx.old.count < 31 }
    requires within { start.steps ≤ fuel }
    requires fuel { fuel ≤ 100000 }
    ensures value { (s : Work) (n : ℕ) → KnownAs ctx.old s → scan (sign_in s) (in_use t.now) (limits fuel n) start ≡ scanned_at t.now.rows result }
    ensures kept { SameContext ctx.old ctx.new }
    ensures inside { IfOk result (λ v. ScanBelow t.now.count v.0) }
    ensures nodes { IfOk result (λ v. v.1.nodes ≡ start.nodes) }
    ensures stepped { IfOk result (λ v. Stepped fuel start v.1) }
{
    let mut found = Scan::Clear;
    let mut count = start;
    for (h, row) in t.rows[..t.count].iter().enumerate() {
        let (s, next) = sign_of(&row.form, ctx, fuel, count)?;
        count = next;
        match s {
            Sign::NonNegative => {}
            Sign::Negative => return Ok((Scan::Negative(h), count)),
            Sign::Unknown => found = first_unsure(found, h),
        }
    }
    Ok((found, count))
}

/// The first unknown row is remembered.
fn first_unsure(found: Scan, h: usize) -> Scan
    ensures value { result ≡ first_unsure found h }
    ensures inside { ScanBelow h found → ScanBelow (h + 1) result }
{
    match found {
        Scan::Clear => Scan::Unsure(h),
        Scan::Unsure(k) => Scan::Unsure(k),
        Scan::Negative(k) => Scan::Negative(k),
    }
}
