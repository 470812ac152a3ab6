//! Node work and split, which call each other with the depth left falling.
ghost use Rattle.std.specs.Prelude.{◌≡◌, suc, ◌<◌, ◌≤◌, true, map, length, IfOk, slice_index_or};
ghost use Rattle.base.specs.Numbers.{within};
ghost use Rattle.tableau.specs.Rows.{Sound};
ghost use Rattle.tableau.specs.Tables.{Ready, no_row, top};
ghost use Rattle.tree.specs.declared.node.Node.TheVariants.{Leaf};
ghost use Rattle.tree.specs.Trees.{six_forms};
ghost use Rattle.solver.specs.Bounds.{StateReady, Stepped};
ghost use Rattle.solver.specs.Ends.{Planted, splitting};
ghost use Rattle.solver.specs.Rules.{node, where_form};
ghost use Rattle.solver.specs.Ties.{limits, solution_of, work_of};

use crate::count::{Count, Stopped, barred_by, tick};
use crate::settle::{End, narrow, settle, write};
use crate::state::State;
use base::divisor::Divisor;
use base::form::{Form, opposite};
use base::number::divide;
use base::refusal::{Place, Refusal};
use tableau::table::{Row, Table};
use tree::node::{Node, NodeForm};

/// The greatest depth of splits.
pub const DEPTH: u8 = 12;

/// The row's form over its divisor, which divides each number of it.
fn solution(row: &Row) -> NodeForm
    requires { Sound row.now }
    ensures value { result ≡ solution_of row.now }
{
    let mut form = row.form;
    divide(Divisor { value: row.div }, &mut form);
    narrow(&form)
}

/// The leaf of a table: a form for each unknown.
fn leaf_of(t: &Table) -> Node
    requires ready { Ready t.now }
    requires few { t.now.unknowns ≤ 6 }
    ensures value { result ≡ Leaf (six_forms (map solution_of (top t.now))) }
{
    let mut forms = [[0; 10]; 6];
    for (h, row) in t.rows[..t.unknowns].iter().enumerate() {
        forms[h] = solution(row);
    }
    Node::Leaf(forms)
}

/// Inner: the tree of a state, written into the work table.
#[cycle(node_split)]
pub fn node(state: &mut State, fuel: u32, work: &mut [Node], start: Count) -> Result<Count, Stopped>
    requires ready { StateReady state.old }
    requires within { start.steps ≤ fuel }
    requires fuel { fuel ≤ 100000 }
    ensures value { Planted work.old start work.new result (node state.old.left (work_of state.old) (limits fuel (length work.old)) start) }
    ensures stepped { IfOk result (Stepped fuel start) }
{
    let (end, count) = settle(state, fuel, work, start)?;
    match end {
        End::Leaf => write(work, leaf_of(&state.table), count),
        End::None => write(work, Node::None, count),
        End::Split(h) => split(state, h, fuel, work, count),
    }
}

/// The split by the form of row h: the branch where it is at least 0, then the other, each on its own
/// copy of the state before the split.
#[cycle(node_split)]
fn split(
    state: &State,
    h: usize,
    fuel: u32,
    work: &mut [Node],
    start: Count,
) -> Result<Count, Stopped>
    requires ready { StateReady state.now }
    requires row { h < state.now.table.count }
    requires within { start.steps ≤ fuel }
    requires fuel { fuel ≤ 100000 }
    ensures value { Planted work.old start work.new result (splitting state.now.left (work_of state.now) (slice_index_or state.now.table.rows h no_row).form (limits fuel (length work.old)) start) }
    ensures stepped { IfOk result (Stepped fuel start) }
{
    if state.left == 0 {
        return Err(barred_by(Refusal::Depth, Place::Node, fuel, start));
    }
    let form = state.table.rows[h].form;
    let count = tick(Place::Node, fuel, start)?;
    let count = write(work, Node::Split(narrow(&form)), count)?;
    let mut first = *state;
    if !branch(&mut first, &form) {
        return Err(count.out_of_range(Place::Node));
    }
    let count = node(&mut first, fuel, work, count)?;
    let mut second = *state;
    if !branch(&mut second, &opposite(&form)) {
        return Err(count.out_of_range(Place::Node));
    }
    node(&mut second, fuel, work, count)
}

// A bool, as of `join`: the caller knows the step.
/// Makes the state one of a branch: where the form is at least 0, with one split less below it.
fn branch(state: &mut State, form: &Form) -> bool
    requires ready { StateReady state.old }
    requires left { 0 < state.old.left }
    ensures value { result ≡ within form.now }
    ensures work { result ≡ true → work_of state.new ≡ where_form (work_of state.old) form.now }
    ensures ready { result ≡ true → StateReady state.new }
    ensures left { state.new.left < state.old.left }
    ensures once { state.old.left ≡ suc state.new.left }
{
    state.left -= 1;
    state.context.join(form)
}
