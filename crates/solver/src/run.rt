//! A solve from end to end: the context's own test, head and keeps, the tree.
ghost use Rattle.std.specs.Prelude.{◌≡◌, ℕ, ◌+◌, ◌≤◌, ◌∷◌, map, length, replicate, IfOk, OnOk};
ghost use Rattle.tree.specs.declared.node.Node.TheVariants.{Head, Keep, None as Blank};
ghost use Rattle.solver.specs.Bounds.{StateReady, Stepped, in_force};
ghost use Rattle.solver.specs.Ends.{Rooted};
ghost use Rattle.solver.specs.Runs.{stopped};
ghost use Rattle.solver.specs.Solves.{context_of, counted_answer, keeps, nothing, run, solve_answer, solved, work_after};
ghost use Rattle.solver.specs.Ties.{Wrote, counted, limits, work_of};

use crate::context::Context;
use crate::count::{Count, Stopped};
use crate::node::node;
use crate::read::read_state;
use crate::settle::{narrow, write};
use crate::state::State;
use crate::test::test;
use base::refusal::Refusal;
use source::source::Source;
use tree::node::Node;

/// The greatest fuel.
pub const FUEL: i64 = 100_000;

/// Before the run nothing is counted.
const NOTHING: Count = Count { steps: 0, nodes: 0 };

/// An accepted solve: the steps made and the nodes written.
#[derive(Clone, Copy, PartialEq, Eq, Debug)]
pub struct Solved {
    pub steps: u32,
    pub nodes: usize,
}

/// The keeps of a tree: the context rows of its system.
fn write_keeps(ctx: &Context, work: &mut [Node], start: Count) -> Result<Count, Stopped>
    ensures value { (fuel : ℕ) → keeps (in_force ctx.now) (limits fuel (length work.old)) start ≡ counted result }
    ensures left { OnOk result (Wrote work.old start.nodes (map Keep (in_force ctx.now)) work.new) }
    ensures nodes { IfOk result (λ c. c.nodes ≡ start.nodes + length (map Keep (in_force ctx.now))) }
    ensures room { start.nodes ≤ length work.old → IfOk result (λ c. c.nodes ≤ length work.old) }
    ensures steps { IfOk result (λ c. c.steps ≡ start.steps) }
{
    let mut count = start;
    for form in &ctx.forms[..ctx.count] {
        count = write(work, Node::Keep(narrow(form)), count)?;
    }
    Ok(count)
}

/// The run of a state: the context's own test, head and keeps, then the tree.
fn run_state(state: &mut State, fuel: u32, work: &mut [Node]) -> Result<Count, Stopped>
    requires ready { StateReady state.old }
    requires left { state.old.left ≡ 12 }
    requires fuel { fuel ≤ 100000 }
    ensures value { Rooted work.old (Head state.old.table.unknowns state.old.context.parameters ∷ map Keep (in_force state.old.context)) work.new result (run (work_of state.old) (limits fuel (length work.old)) nothing) }
    ensures stepped { IfOk result (λ c. c.steps ≤ fuel) }
{
    let (met, count) = test(&state.context, fuel, NOTHING)?;
    if !met {
        return Err(count.stop(Refusal::NoParameterPoint));
    }
    // `as`: proved to fit; `try_from` would add a refusal that never comes
    let n = state.table.unknowns as u8;
    let p = state.context.parameters as u8;
    let count = write(work, Node::Head { n, p }, count)?;
    let count = write_keeps(&state.context, work, count)?;
    node(state, fuel, work, count)
}

/// A run that is refused before it begins.
fn unbegun(why: Refusal) -> Stopped
    ensures { result ≡ stopped why nothing }
{
    NOTHING.stop(why)
}

/// Reads the system, then the fuel, and runs it.
fn read_and_run<S: Source>(source: &S, work: &mut [Node], fuel: i64) -> Result<Count, Stopped>
    ensures value { Rooted work.old (Head (S.meaning source.now).n (S.meaning source.now).p ∷ map Keep (context_of (S.meaning source.now))) work.new result (solved (S.meaning source.now) fuel (length work.old)) }
{
    let mut state = match read_state(source) {
        Ok(state) => state,
        Err(why) => return Err(unbegun(why)),
    };
    if fuel < 0 || fuel > FUEL {
        return Err(unbegun(Refusal::Fuel));
    }
    // `as`: the test above leaves 0 to FUEL; `try_from` would be half of it
    run_state(&mut state, fuel as u32, work)
}

/// Inner: blanks all nodes.
pub fn blank(work: &mut [Node])
    ensures left { work.new ≡ replicate (length work.old) Blank }
{
    work.fill(Node::None);
}

/// As `solve_into`; a refusal comes with the steps and nodes counted by then.
pub fn solve_counted<S: Source>(source: &S, work: &mut [Node], fuel: i64) -> Result<Solved, Stopped>
    ensures answer { result ≡ counted_answer (solved (S.meaning source.now) fuel (length work.old)) }
    ensures left { work.new ≡ work_after (S.meaning source.now) (length work.old) (solved (S.meaning source.now) fuel (length work.old)) }
{
    blank(work);
    match read_and_run(source, work, fuel) {
        Ok(count) => Ok(Solved {
            steps: count.steps,
            nodes: count.nodes,
        }),
        Err(stopped) => {
            blank(work);
            Err(stopped)
        }
    }
}

/// The solution tree of the source's system, written into the work table with blank nodes after it.
/// Refused, the work table is all blank.
pub fn solve_into<S: Source>(source: &S, work: &mut [Node], fuel: i64) -> Result<Solved, Refusal>
    ensures answer { result ≡ solve_answer (solved (S.meaning source.now) fuel (length work.old)) }
    ensures left { work.new ≡ work_after (S.meaning source.now) (length work.old) (solved (S.meaning source.now) fuel (length work.old)) }
{
    solve_counted(source, work, fuel).map_err(|stopped| stopped.why)
}
