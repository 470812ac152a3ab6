//! The sheet.
ghost use Rattle.std.specs.Prelude.{◌≡◌, [], IfErr, IfOk, length};
ghost use Rattle.store.specs.Stores.{node_at};
ghost use Rattle.tree.specs.Finds.{found_in, left_of, said_of};
ghost use Rattle.solver.specs.Runs.{stopped};
ghost use Rattle.sheet.specs.Sheets.{emptied, solve_counts, solve_says, store_after, table_after, uncounted as without_count};
ghost use Rattle.sheet.specs.Events.{find_of, one_find, one_solve, one_wipe, solve_of};
ghost use Rattle.sheet.specs.Arrangements.{LeadsTo, Reached};
ghost use Rattle.sheet.specs.Laws.{LeadsOn, NextFind, NextSolve};
ghost use Rattle.sheet.specs.Paged.{PageStands, RepliesAlike};
ghost use Rattle.sheet.specs.Refused.{RefusalTold};

use base::refusal::Refusal;
use solver::count::{Count, Stopped};
use solver::run::{Solved, blank, solve_counted};
use source::source::Source;
use std::marker::Model;
use store::ask;
use store::install::install;
use store::store::Store;
use tree::node::Node;
use tree::walk::Found;

/// Empties a store and closes it.
fn empty<T: Store>(store: &mut T)
    ensures left { T.meaning store.new ≡ emptied (T.meaning store.old) }
{
    let draft = store.begin();
    let _ = store.scrap(draft);
}

/// A refusal that comes after the run of an accepted solve.
fn after_run(solved: Solved, why: Refusal) -> Stopped
    ensures { result ≡ stopped why (record { steps = solved.steps; nodes = solved.nodes }) }
{
    Stopped {
        why,
        count: Count {
            steps: solved.steps,
            nodes: solved.nodes,
        },
    }
}

/// Solves the source's system, and puts the tree into the store if it fits.
fn solve_on<T: Store, S: Source>(
    store: &mut T,
    source: &S,
    work: &mut [Node],
    fuel: i64,
) -> Result<Solved, Stopped>
    ensures answer { result ≡ solve_counts (T.meaning store.old) (S.meaning source.now) fuel work.old }
    ensures work { work.new ≡ table_after (T.meaning store.old) (S.meaning source.now) fuel work.old }
    ensures left { T.meaning store.new ≡ store_after (T.meaning store.old) (S.meaning source.now) fuel work.old }
{
    let solved = solve_counted(source, work, fuel)?;
    match install(store, work, solved.nodes) {
        Ok(()) => Ok(solved),
        Err(refusal) => {
            blank(work);
            Err(after_run(solved, refusal))
        }
    }
}

/// The answer of a solve without the count that a refusal comes with.
fn uncounted(answer: Result<Solved, Stopped>) -> Result<Solved, Refusal>
    ensures { result ≡ without_count answer }
{
    answer.map_err(|stopped| stopped.why)
}

/// One store, which nothing else reaches. The nodes that it lists are the sheet's tree; to its callers a sheet is what
/// its store means.
#[derive(Drop)]
pub struct Sheet<T: Store> {
    store: T,
}

impl<T: Store> Model for Sheet<T> {
    ghost use Rattle.std.specs.Prelude.{ℕ};
    ghost use Rattle.store.specs.Stores.{Meaning};
    ghost use Rattle.sheet.specs.Arrangements.{Reached};

    ghost Value = { Meaning };

    ghost view = { λ s. T.meaning s.store };

    ghost invariant = { λ s. ∥ Reached (T.meaning s.store) ∥₁ };
}

impl<T: Store> Sheet<T> {
    /// A sheet over this store, which is emptied.
    pub fn new(store: T) -> Self
        ensures made { result ≡ emptied (T.meaning store) }
        ensures law { LeadsTo [] result }
    {
        let mut store = store;
        empty(&mut store);
        Sheet { store }
    }

    // clause `right` follows from `law`: it is the form in which a caller needs it
    /// Solves the source's system. A tree that fits the store's capacity replaces the one before, and stands in the work
    /// table with blank nodes after it; refused, the tree stays, and the work table is all blank.
    pub fn solve<S: Source>(
        &mut self,
        source: &S,
        work: &mut [Node],
        fuel: i64,
    ) -> Result<Solved, Refusal>
        ensures answer { result ≡ solve_says self.old (S.meaning source.now) fuel work.old }
        ensures work { work.new ≡ table_after self.old (S.meaning source.now) fuel work.old }
        ensures left { self.new ≡ store_after self.old (S.meaning source.now) fuel work.old }
        ensures reached { ∥ Reached self.new ∥₁ }
        ensures page { IfOk result (λ v. PageStands self.new.nodes v.nodes) }
        ensures right { NextSolve self.old (solve_of (S.meaning source.now) fuel work.old result work.new) }
        ensures law { LeadsOn self.old (one_solve (S.meaning source.now) fuel work.old result work.new) self.new }
    {
        let answer = self.solve_counted(source, work, fuel);
        uncounted(answer)
    }

    /// As `solve`; a refusal comes with the steps and nodes counted by then.
    pub fn solve_counted<S: Source>(
        &mut self,
        source: &S,
        work: &mut [Node],
        fuel: i64,
    ) -> Result<Solved, Stopped>
        ensures answer { result ≡ solve_counts self.old (S.meaning source.now) fuel work.old }
        ensures work { work.new ≡ table_after self.old (S.meaning source.now) fuel work.old }
        ensures left { self.new ≡ store_after self.old (S.meaning source.now) fuel work.old }
        ensures page { IfOk result (λ v. PageStands self.new.nodes v.nodes) }
        ensures told { IfErr result (RefusalTold (S.meaning source.now) fuel (length work.old)) }
        ensures reached { ∥ Reached self.new ∥₁ }
        ensures right { NextSolve self.old (solve_of (S.meaning source.now) fuel work.old (without_count result) work.new) }
        ensures law { LeadsOn self.old (one_solve (S.meaning source.now) fuel work.old (without_count result) work.new) self.new }
    {
        solve_on(&mut self.store, source, work, fuel)
    }

    // clause `right` follows from `law`: it is the form in which a caller needs it
    /// Asks the sheet's tree at a parameter point: the n numbers of the point are left in the place, zeros after them. Where
    /// there is none, and refused, the place holds zeros. Refused are, in this order: a sheet on which no system stands (41), a
    /// point not of p numbers (42), a number not from 0 to 1,000,000 (43), a point outside the context (44).
    pub fn find(&self, point: &[i64], place: &mut [i64; 6]) -> Result<Found, Refusal>
        ensures answer { result ≡ said_of (found_in self.now.nodes point.now) }
        ensures left { place.new ≡ left_of (found_in self.now.nodes point.now) }
        ensures reached { ∥ Reached self.now ∥₁ }
        ensures page { RepliesAlike self.now (find_of point.now result place.new) }
        ensures right { NextFind self.now (find_of point.now result place.new) }
        ensures law { LeadsOn self.now (one_find point.now result place.new) self.now }
    {
        ask::find(&self.store, point, place)
    }

    /// Empties the store, and answers how many nodes went.
    pub fn wipe(&mut self) -> usize
        ensures answer { result ≡ length self.old.nodes }
        ensures left { self.new ≡ emptied self.old }
        ensures reached { ∥ Reached self.new ∥₁ }
        ensures law { LeadsOn self.old (one_wipe result) self.new }
    {
        let count = self.store.count();
        empty(&mut self.store);
        count
    }

    /// Some arrangement of calls leads to every sheet.
    pub fn was_reached(&self)
        ensures reached { ∥ Reached self.now ∥₁ }
    {
        // nothing is done: what is known of every sheet is handed out
        let _ = &self.store;
    }

    /// How many nodes the sheet's tree has.
    pub fn count(&self) -> usize
        ensures answer { result ≡ length self.now.nodes }
    {
        self.store.count()
    }

    /// A node of the sheet's tree by its place, from 0; the node none past them.
    pub fn node(&self, place: usize) -> Node
        ensures answer { result ≡ node_at self.now place }
    {
        self.store.node(place)
    }
}
