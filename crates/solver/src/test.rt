//! A test: whether some setting of the parameters meets the context.
ghost use Rattle.std.specs.Prelude.{◌≡◌, ℕ, suc, ◌+◌, ◌<◌, ◌≤◌, pos, IfSome, IfOk, OnOk, int_lt, slice_index_or};
ghost use Rattle.base.specs.Numbers.{at};
ghost use Rattle.base.specs.declared.refusal.Place.TheVariants.{Test};
ghost use Rattle.tableau.specs.Cuts.{cut_of};
ghost use Rattle.tableau.specs.Tables.{Ready, in_use, no_row};
ghost use Rattle.tree.specs.Trees.{Tree};
ghost use Rattle.solver.specs.Bounds.{AllConst, Moved, SameContext, Stepped, in_force};
ghost use Rattle.solver.specs.Rules.{Work, cut, test, test_with};
ghost use Rattle.solver.specs.Runs.{Run, next};
ghost use Rattle.solver.specs.Ties.{KnownAs, first_negative, limits, test_of, tested};

use crate::context::{Added, Context};
use crate::count::{Count, Stopped, barred_by};
use crate::start::test_table;
use crate::turn::{add_cut, turn};
use base::form::{CONSTANT, Form};
use base::refusal::{Place, Refusal};
use tableau::column::pivot_place;
use tableau::cut::{cut_of, first_fraction};
use tableau::table::{Row, Table};

/// The most cuts of a path, and of a test.
pub const CUTS: usize = 24;

/// Whether the row's constant is below 0.
fn is_negative(row: &Row) -> bool
    ensures value { result ≡ int_lt (at row.now.form 9) (pos 0) }
{
    row.form[CONSTANT] < 0
}

/// The first row whose constant is below 0: in a test there are no parameters.
fn first_negative(t: &Table) -> Option<usize>
    requires { Ready t.now }
    ensures value { result ≡ first_negative 0 (in_use t.now) }
    ensures inside { IfSome result (λ h. h < t.now.count) }
{
    t.rows[..t.count].iter().position(is_negative)
}

/// A cut from row h. In a test it needs no new parameter.
fn cut_plain(
    t: &mut Table,
    h: usize,
    cuts: usize,
    fuel: u32,
    count: Count,
) -> Result<Count, Stopped>
    requires ready { Ready t.old }
    requires row { h < t.old.unknowns }
    requires room { t.old.count ≤ 40 + cuts }
    requires few { cuts ≤ 24 }
    requires constants { AllConst (in_use t.old) }
    ensures value { (again : Work → Run Tree) (n : ℕ) → cut Test again (test_of t.old cuts) (cut_of (slice_index_or t.old.rows h no_row)) (limits fuel n) count ≡ next (tested t.new (suc cuts) result) again (limits fuel n) }
    ensures constants { OnOk result (AllConst (in_use t.new)) }
    ensures ready { OnOk result (Ready t.new) }
    ensures counts { OnOk result ((cuts < 24) × (t.new.count ≡ t.old.count + 1) × (t.new.unknowns ≡ t.old.unknowns)) }
    ensures nodes { IfOk result (λ c. c.nodes ≡ count.nodes) }
    ensures moved { IfOk result (Moved fuel count) }
{
    if cuts >= CUTS {
        return Err(barred_by(Refusal::Cuts, Place::Test, fuel, count));
    }
    let x = cut_of(&t.rows[h]);
    add_cut(t, &x, Place::Test, fuel, count)
}

// The answer is yes or no, beside the count that each result carries.
/// Inner: whether some setting of the parameters and the new ones so far meets the context.
pub fn test(ctx: &Context, fuel: u32, start: Count) -> Result<(bool, Count), Stopped>
    requires within { start.steps ≤ fuel }
    requires fuel { fuel ≤ 100000 }
    ensures value { (n : ℕ) → test ctx.now.parameters ctx.now.made (in_force ctx.now) (limits fuel n) start ≡ result }
    ensures nodes { IfOk result (λ v. v.1.nodes ≡ start.nodes) }
    ensures stepped { IfOk result (λ v. Stepped fuel start v.1) }
{
    let mut t = test_table(ctx);
    let mut cuts = 0;
    let mut count = start;
    loop {
        if let Some(i) = first_negative(&t) {
            match pivot_place(&t, i) {
                Some(spot) => count = turn(&mut t, spot, Place::Test, fuel, count)?,
                None => return Ok((false, count)),
            }
        } else {
            match first_fraction(&t) {
                Some(h) => count = cut_plain(&mut t, h, cuts, fuel, count)?,
                None => return Ok((true, count)),
            }
            cuts += 1;
        }
    }
}

// As `test`: yes or no, beside the count.
/// Inner: the same with one more row, which is off the context again however the test ends.
pub fn test_with(
    ctx: &mut Context,
    form: &Form,
    fuel: u32,
    count: Count,
) -> Result<(bool, Count), Stopped>
    requires room { ctx.old.count < 31 }
    requires within { count.steps ≤ fuel }
    requires fuel { fuel ≤ 100000 }
    ensures value { (s : Work) (n : ℕ) → KnownAs ctx.old s → test_with s form.now (limits fuel n) count ≡ result }
    ensures kept { SameContext ctx.old ctx.new }
    ensures nodes { IfOk result (λ v. v.1.nodes ≡ count.nodes) }
    ensures stepped { IfOk result (λ v. Stepped fuel count v.1) }
{
    let rows = ctx.count;
    if !ctx.join(form) {
        return Err(count.out_of_range(Place::Test));
    }
    let guard = Added { ctx, count: rows };
    test(guard.ctx, fuel, count)
}
