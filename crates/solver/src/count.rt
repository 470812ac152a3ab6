//! Steps and nodes, counted in each result.
ghost use Rattle.std.specs.Prelude.{◌≡◌, IfOk, MatchBool, if◌then◌else◌, nat_lt};
ghost use Rattle.base.specs.declared.refusal.Refusal.TheVariants.{FuelSpent, Range};
ghost use Rattle.solver.specs.Bounds.{Moved};
ghost use Rattle.solver.specs.Runs.{met_at, stopped, stopped_at};
ghost use Rattle.solver.specs.Ties.{ticked};

use base::refusal::{Met, Place, Refusal};

// The fuel is no part of it: each contract would have to say that the limit is the same before and after. Nor is it a type with its
// bound: a step, a barred step and a move answer for any fuel, so it would be taken apart at each call.
/// The steps made and the nodes written so far.
#[derive(Clone, Copy, PartialEq, Eq, Debug)]
pub struct Count {
    pub steps: u32,
    pub nodes: usize,
}

/// A run that was refused: why, and the steps and nodes counted by then.
#[derive(Clone, Copy, PartialEq, Eq, Debug)]
pub struct Stopped {
    pub why: Refusal,
    pub count: Count,
}

impl Count {
    /// Inner: how far the run has come, for a refusal met at this place.
    pub fn met(self, place: Place) -> Met
        ensures { result ≡ record { steps = self.steps; place = place } }
    {
        Met {
            steps: self.steps,
            place,
        }
    }

    /// A run that is refused here.
    pub(crate) fn stop(self, why: Refusal) -> Stopped
        ensures { result ≡ stopped why self }
    {
        Stopped { why, count: self }
    }

    /// A run that is refused because a number leaves the range at this place.
    pub(crate) fn out_of_range(self, place: Place) -> Stopped
        ensures { result ≡ stopped_at Range place self }
    {
        self.stop(Refusal::Range(self.met(place)))
    }
}

/// Whether fuel is left for one step more.
fn has_fuel(fuel: u32, count: Count) -> bool
    ensures { result ≡ nat_lt count.steps fuel }
{
    count.steps < fuel
}

/// Inner: one step more, where fuel is left.
pub fn tick(place: Place, fuel: u32, count: Count) -> Result<Count, Stopped>
    ensures value { result ≡ ticked place fuel count }
    ensures nodes { IfOk result (λ c. c.nodes ≡ count.nodes) }
    ensures moved { IfOk result (Moved fuel count) }
{
    if !has_fuel(fuel, count) {
        return Err(count.stop(Refusal::FuelSpent(count.met(place))));
    }
    Ok(Count {
        steps: count.steps + 1,
        nodes: count.nodes,
    })
}

/// Inner: the refusal of a step that may not be made: spent fuel is said first.
pub fn barred(refusal: Refusal, place: Place, fuel: u32, count: Count) -> Stopped
    ensures value { result.why ≡ (if nat_lt count.steps fuel then refusal else FuelSpent (met_at place count)) }
    ensures count { result.count ≡ count }
{
    count.stop(if has_fuel(fuel, count) {
        refusal
    } else {
        Refusal::FuelSpent(count.met(place))
    })
}

/// Inner: the refusal of a step that may not be made, by its case: spent fuel is said first.
pub fn barred_by<F: FnOnce(Met) -> Refusal>(
    why: F,
    place: Place,
    fuel: u32,
    count: Count,
) -> Stopped
    requires { F.IsAlwaysCallable why }
    ensures value { MatchBool (nat_lt count.steps fuel) (F.post why (met_at place count) result.why) (result.why ≡ FuelSpent (met_at place count)) }
    ensures count { result.count ≡ count }
{
    barred(why(count.met(place)), place, fuel, count)
}
