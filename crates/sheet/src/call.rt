//! Calls on a sheet as values, and their answers.
use base::refusal::Refusal;
use solver::run::Solved;
use tree::walk::Found;

/// A call on a sheet.
#[derive(Drop)]
pub enum Call<S> {
    /// A solve of a source's system, with so much fuel.
    Solve { source: S, fuel: i64 },
    /// A find at a parameter point.
    Find { point: Vec<i64> },
    /// A wipe.
    Wipe,
}

/// What a call answered, and the place of six as a find left it.
#[derive(Clone, Copy, PartialEq, Eq, Debug)]
pub enum Answer {
    /// Of a solve.
    Solved(Result<Solved, Refusal>),
    /// Of a find.
    Found {
        said: Result<Found, Refusal>,
        place: [i64; 6],
    },
    /// Of a wipe: how many nodes went.
    Wiped(usize),
}
