//! The moves on a table: a pivot, a row added and pivoted on, the cut of a constant.
ghost use Rattle.std.specs.Prelude.{◌≡◌, ℕ, ◌+◌, ◌<◌, ◌≤◌, true, List, ℤ, None, IfOk, OnOk, slice_index_or};
ghost use Rattle.tableau.specs.Cuts.{cut_row, is_constant, numbers};
ghost use Rattle.tableau.specs.Rows.{Sound};
ghost use Rattle.tableau.specs.Tables.{PivotAt, Ready, in_use, no_row};
ghost use Rattle.tree.specs.Trees.{Tree};
ghost use Rattle.solver.specs.Bounds.{AllConst, ConstForm, Moved, Stepped};
ghost use Rattle.solver.specs.Rules.{Work, cut, turn, with_row};
ghost use Rattle.solver.specs.Runs.{Run, next};
ghost use Rattle.solver.specs.Ties.{after_cut, limits, moved, with_table};

use crate::count::{Count, Stopped, tick};
use crate::start::push_row;
use base::refusal::Place;
use tableau::column::pivot_place;
use tableau::cut::Cut;
use tableau::pivot::pivot;
use tableau::row::fits;
use tableau::table::{Row, Table};

/// Inner: a pivot, which is one step.
pub fn turn(
    t: &mut Table,
    spot: (usize, usize),
    place: Place,
    fuel: u32,
    count: Count,
) -> Result<Count, Stopped>
    requires ready { Ready t.old }
    requires there { PivotAt t.old spot }
    ensures value { (s : Work) (room : ℕ) → turn place (slice_index_or t.old.rows spot.0 no_row) spot.1 (with_table t.old s) (limits fuel room) count ≡ moved t.new s result }
    ensures constants { AllConst (in_use t.old) → OnOk result (AllConst (in_use t.new)) }
    ensures ready { OnOk result (Ready t.new) }
    ensures counts { (t.new.count ≡ t.old.count) × (t.new.unknowns ≡ t.old.unknowns) }
    ensures nodes { IfOk result (λ c. c.nodes ≡ count.nodes) }
    ensures moved { IfOk result (Moved fuel count) }
{
    let next = tick(place, fuel, count)?;
    if !pivot(t, spot) {
        return Err(next.out_of_range(place));
    }
    Ok(next)
}

/// Inner: adds a cut row last, and pivots on it directly if one of its columns is above 0.
pub fn add_row(
    t: &mut Table,
    row: Row,
    place: Place,
    fuel: u32,
    count: Count,
) -> Result<Count, Stopped>
    requires ready { Ready t.old }
    requires room { t.old.count < 64 }
    requires sound { Sound row }
    requires within { count.steps ≤ fuel }
    ensures value { (again : Work → Run Tree) (s : Work) (context : List (List ℤ)) (n room : ℕ) → with_row place again (with_table t.old s) context n row (limits fuel room) count ≡ next (moved t.new (after_cut s context n) result) again (limits fuel room) }
    ensures constants { AllConst (in_use t.old) → ConstForm row → OnOk result (AllConst (in_use t.new)) }
    ensures ready { OnOk result (Ready t.new) }
    ensures counts { OnOk result ((t.new.count ≡ t.old.count + 1) × (t.new.unknowns ≡ t.old.unknowns)) }
    ensures nodes { IfOk result (λ c. c.nodes ≡ count.nodes) }
    ensures stepped { IfOk result (Stepped fuel count) }
{
    if !fits(&row) {
        return Err(count.out_of_range(place));
    }
    let i = t.count;
    push_row(t, row);
    match pivot_place(t, i) {
        Some(spot) => turn(t, spot, place, fuel, count),
        None => Ok(count),
    }
}

/// Inner: the cut of a constant T, which needs no new parameter: one step.
pub fn add_cut(
    t: &mut Table,
    x: &Cut,
    place: Place,
    fuel: u32,
    count: Count,
) -> Result<Count, Stopped>
    requires ready { Ready t.old }
    requires room { t.old.count < 64 }
    ensures value { (again : Work → Run Tree) (s : Work) (n : ℕ) → s.cuts < 24 → is_constant (numbers x.now) ≡ true → cut place again (with_table t.old s) (numbers x.now) (limits fuel n) count ≡ next (moved t.new (after_cut s s.context s.made) result) again (limits fuel n) }
    ensures constants { AllConst (in_use t.old) → ConstForm (cut_row (numbers x.now) None) → OnOk result (AllConst (in_use t.new)) }
    ensures ready { OnOk result (Ready t.new) }
    ensures counts { OnOk result ((t.new.count ≡ t.old.count + 1) × (t.new.unknowns ≡ t.old.unknowns)) }
    ensures nodes { IfOk result (λ c. c.nodes ≡ count.nodes) }
    ensures moved { IfOk result (Moved fuel count) }
{
    let next = tick(place, fuel, count)?;
    add_row(t, x.row(None), place, fuel, next)
}
