//! What holds of every solve by the rules.
#![tactic(auto)]

ghost use Rattle.solver_laws.specs.Contexts.{ContextLaws};
ghost use Rattle.solver_laws.specs.Fuel.{FuelLaw};
ghost use Rattle.solver_laws.specs.Laws.{NodesCounted, SolveLaws};
ghost use Rattle.solver_laws.specs.Least.{LeastPoint};
ghost use Rattle.solver_laws.specs.Limits.{TreeLimits};
ghost use Rattle.solver_laws.specs.Stops.{StopsTold};

/// Whatever tree a solve answers gives the least point at every parameter point of its context.
pub fn least_point_stands()
    ensures { LeastPoint }
{}

/// A solve is refused by 13 exactly where no parameter point meets the context; tests and signs are right.
pub fn context_laws_stand()
    ensures { ContextLaws }
{}

/// More fuel never changes an answer, and less only runs out.
pub fn fuel_law_stands()
    ensures { FuelLaw }
{}

/// Whatever tree a solve answers is within the limits of a tree.
pub fn limits_stand()
    ensures { TreeLimits }
{}

/// A refused solve tells, by its refusal's number and values and by its count, the steps made: none before the run.
pub fn stops_stand()
    ensures { StopsTold }
{}

/// Steps stay within the fuel, and nodes within the work table, however a solve ends.
pub fn solve_laws_stand()
    ensures { SolveLaws }
{}

/// The nodes that a solve counts are those that its tree is written in.
pub fn node_count_stands()
    ensures { NodesCounted }
{}
