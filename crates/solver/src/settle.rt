//! Node work: pivots and cuts until the node is known.
ghost use Rattle.std.specs.Prelude.{◌≡◌, ℕ, ◌^◌, ◌<◌, ◌≤◌, true, false, ◌&&◌, List, [], ◌∷◌, length, ℤ, IfOk, OnOk, slice_index_or};
ghost use Rattle.base.specs.declared.refusal.Place.TheVariants.{Node as AtNode};
ghost use Rattle.base.specs.Numbers.{AllWithin};
ghost use Rattle.tableau.specs.Cuts.{cut_of, is_constant, numbers};
ghost use Rattle.tableau.specs.Tables.{no_row};
ghost use Rattle.tree.specs.Trees.{Tree};
ghost use Rattle.solver.specs.Bounds.{EndBelow, Moved, StateReady, Stepped};
ghost use Rattle.solver.specs.Ends.{NewMade, News, Noted, below_all, below_new, count_of, finishing, worked};
ghost use Rattle.solver.specs.Rules.{Work, cut, settle, solving};
ghost use Rattle.solver.specs.Runs.{Run, next};
ghost use Rattle.solver.specs.Ties.{WroteIf, limits, noted_in, work_of};

use crate::count::{Count, Stopped, barred_by, tick};
use crate::sign::{Scan, scan_rows};
use crate::state::State;
use crate::test::CUTS;
use crate::turn::{add_cut, add_row, turn};
use base::form::{FIRST_NEW, Form};
use base::refusal::{Place, Refusal};
use tableau::column::pivot_place;
use tableau::cut::{Cut, cut_of, first_fraction};
use tree::node::{Node, NodeForm};

/// The most new parameters of a path.
pub const NEW: usize = 5;

/// What a node turned out to be: a leaf, none, or a split by the form of a row.
#[derive(Clone, Copy)]
pub enum End {
    Leaf,
    None,
    Split(usize),
}

/// Inner: a form's numbers, which are in range, as a node holds them.
pub fn narrow(form: &Form) -> NodeForm
    requires { AllWithin (2 ^ 30) form.now }
    ensures value { result ≡ form.now }
{
    // `as`: numbers in range fit; `try_from` would add a refusal that never comes
    form.map(|x| x as i32)
}

/// Inner: one node more in the work table, where there is room.
pub fn write(work: &mut [Node], node: Node, count: Count) -> Result<Count, Stopped>
    ensures value { result ≡ noted_in (length work.old) count }
    ensures left { WroteIf work.old count.nodes (node ∷ []) work.new result }
    ensures steps { IfOk result (λ c. c.steps ≡ count.steps) }
{
    let at = count.nodes;
    if at >= work.len() {
        return Err(count.stop(Refusal::WorkFull(count.met(Place::Node))));
    }
    work[at] = node;
    Ok(Count {
        steps: count.steps,
        nodes: at + 1,
    })
}

/// Makes the new parameter floor(T / d): its node is written, and its two rows join the context.
fn make_parameter(
    state: &mut State,
    by: &Cut,
    work: &mut [Node],
    count: Count,
) -> Result<Count, Stopped>
    requires ready { StateReady state.old }
    requires new { state.old.context.made < 5 }
    ensures value { NewMade state.old (numbers by.now) work.old count state.new work.new result }
    ensures ready { OnOk result (StateReady state.new) }
    ensures table { state.new.table ≡ state.old.table }
    ensures counts { (state.new.cuts ≡ state.old.cuts) × (state.new.left ≡ state.old.left) }
    ensures steps { IfOk result (λ c. c.steps ≡ count.steps) }
{
    let q = FIRST_NEW + state.context.made;
    let count = write(
        work,
        Node::New {
            // `as`: a divisor is at most 2^30
            d: by.div as i32,
            form: narrow(&by.form),
        },
        count,
    )?;
    let floor = by.lower(q);
    let ceiling = by.upper(q);
    if !state.context.join(&floor) || !state.context.join(&ceiling) {
        return Err(count.out_of_range(Place::Node));
    }
    state.context.made += 1;
    Ok(count)
}

/// The cut of a constant T.
fn cut_constant(state: &mut State, x: &Cut, fuel: u32, count: Count) -> Result<Count, Stopped>
    requires ready { StateReady state.old }
    requires few { state.old.cuts < 24 }
    requires constant { is_constant (numbers x.now) ≡ true }
    ensures value { (again : Work → Run Tree) (n : ℕ) → cut AtNode again (work_of state.old) (numbers x.now) (limits fuel n) count ≡ next (worked state.new result) again (limits fuel n) }
    ensures ready { OnOk result (StateReady state.new) }
    ensures left { state.new.left ≡ state.old.left }
    ensures nodes { IfOk result (λ c. c.nodes ≡ count.nodes) }
    ensures moved { IfOk result (Moved fuel count) }
{
    let next = tick(Place::Node, fuel, count)?;
    state.cuts += 1;
    add_row(&mut state.table, x.row(None), Place::Node, fuel, next)
}

/// The cut with a new parameter.
fn cut_parameter(
    state: &mut State,
    x: &Cut,
    fuel: u32,
    work: &mut [Node],
    count: Count,
) -> Result<Count, Stopped>
    requires ready { StateReady state.old }
    requires few { state.old.cuts < 24 }
    requires new { state.old.context.made < 5 }
    requires named { is_constant (numbers x.now) ≡ false }
    ensures value { (again : Work → Run Tree) → cut AtNode again (work_of state.old) (numbers x.now) (limits fuel (length work.old)) count ≡ below_new x.now.div x.now.form (next (worked state.new result) again (limits fuel (length work.old))) }
    ensures noted { Noted work.old count ((x.now.div, x.now.form) ∷ []) work.new result }
    ensures ready { OnOk result (StateReady state.new) }
    ensures left { state.new.left ≡ state.old.left }
    ensures moved { IfOk result (Moved fuel count) }
{
    let q = FIRST_NEW + state.context.made;
    let next = tick(Place::Node, fuel, count)?;
    let next = make_parameter(state, x, work, next)?;
    state.cuts += 1;
    add_row(&mut state.table, x.row(Some(q)), Place::Node, fuel, next)
}

/// A cut from row h, with a new parameter unless T is a constant.
fn cut_row(
    state: &mut State,
    h: usize,
    fuel: u32,
    work: &mut [Node],
    count: Count,
) -> Result<Count, Stopped>
    requires ready { StateReady state.old }
    requires row { h < state.old.table.unknowns }
    ensures value { (news : News) × Noted work.old count news work.new result × ((again : Work → Run Tree) → cut AtNode again (work_of state.old) (cut_of (slice_index_or state.old.table.rows h no_row)) (limits fuel (length work.old)) count ≡ below_all news (next (worked state.new result) again (limits fuel (length work.old)))) }
    ensures ready { OnOk result (StateReady state.new) }
    ensures left { state.new.left ≡ state.old.left }
    ensures moved { IfOk result (Moved fuel count) }
{
    if state.cuts >= CUTS {
        return Err(barred_by(Refusal::Cuts, Place::Node, fuel, count));
    }
    let x = cut_of(&state.table.rows[h]);
    if x.is_constant() {
        return cut_constant(state, &x, fuel, count);
    }
    if state.context.made >= NEW {
        return Err(barred_by(Refusal::NewParameters, Place::Node, fuel, count));
    }
    cut_parameter(state, &x, fuel, work, count)
}

/// Inner: pivots and cuts by the rules until the node is a leaf, none, or has a row to split.
pub fn settle(
    state: &mut State,
    fuel: u32,
    work: &mut [Node],
    start: Count,
) -> Result<(End, Count), Stopped>
    requires ready { StateReady state.old }
    requires within { start.steps ≤ fuel }
    requires fuel { fuel ≤ 100000 }
    ensures value { (news : News) × Noted work.old start news work.new (count_of result) × ((splits : Work → List ℤ → Run Tree) → settle (solving splits) 100_001 (work_of state.old) (limits fuel (length work.old)) start ≡ below_all news (finishing splits state.new (limits fuel (length work.old)) result)) }
    ensures ready { OnOk result (StateReady state.new) }
    ensures left { state.new.left ≡ state.old.left }
    ensures inside { IfOk result (λ v. EndBelow state.new.table.count v.0) }
    ensures stepped { IfOk result (λ v. Stepped fuel start v.1) }
{
    let mut count = start;
    loop {
        let (found, next) = scan_rows(&state.table, &mut state.context, fuel, count)?;
        match found {
            Scan::Negative(i) => match pivot_place(&state.table, i) {
                Some(at) => count = turn(&mut state.table, at, Place::Node, fuel, next)?,
                None => return Ok((End::None, next)),
            },
            Scan::Unsure(h) => return Ok((End::Split(h), next)),
            Scan::Clear => match first_fraction(&state.table) {
                Some(h) => count = cut_row(state, h, fuel, work, next)?,
                None => return Ok((End::Leaf, next)),
            },
        }
    }
}
