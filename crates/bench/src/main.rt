//! Solves each listing of a file many times: `bench FILE ROUNDS`. What was solved goes to standard
//! output, the times to standard error.
#![tactic(auto)]

use anyhow::Context as _;
use listing::read::{Listing, read};
use listing::solve::WORK;
use solver::run::solve_counted;
use std::time::Instant;
use std::{env, fs};
use tree::node::Node;

/// What a round did: how many listings were solved or refused in a run, and the steps made.
#[derive(Clone, Copy)]
struct Tally {
    runs: u64,
    steps: u64,
}

/// Solves a listing the given number of times, and answers the steps of all of them.
fn solve_rounds(listing: &Listing, rounds: u32, work: &mut [Node]) -> u64 {
    let mut steps = 0u64;
    for _ in 0..rounds {
        let made = match solve_counted(&listing.source, work, listing.fuel) {
            Ok(solved) => solved.steps,
            Err(stopped) => stopped.count.steps,
        };
        steps = steps.saturating_add(u64::from(made));
    }
    steps
}

/// Solves every listing of a text.
fn solve_all(text: &str, rounds: u32) -> Tally {
    let mut tally = Tally { runs: 0, steps: 0 };
    for line in text.lines() {
        if let Ok(listing) = read(line.as_bytes()) {
            let mut work = [Node::None; WORK];
            let steps = solve_rounds(&listing, rounds, &mut work);
            tally.runs = tally.runs.saturating_add(u64::from(rounds));
            tally.steps = tally.steps.saturating_add(steps);
        }
    }
    tally
}

fn run(rt: &HostRuntime) -> anyhow::Result<()> {
    let mut args = env::args(rt)?;
    let _ = args.next();
    let file = args.next().context("bench FILE ROUNDS")?;
    let rounds = args
        .next()
        .context("bench FILE ROUNDS")?
        .as_str()
        .parse::<u32>()?;
    let text = fs::read_to_string(rt, file.as_str())?;
    let start = Instant::now(rt)?;
    let tally = solve_all(text.as_str(), rounds);
    let spent = start.elapsed(rt)?.as_nanos();
    println!(rt; "runs {}", tally.runs)?;
    println!(rt; "steps {}", tally.steps)?;
    let solve = spent / u128::from(tally.runs.max(1));
    let step = spent / u128::from(tally.steps.max(1));
    eprintln!(rt; "{solve} ns a solve, {step} ns a step")?;
    Ok(())
}

fn main(rt: HostRuntime) -> anyhow::Result<()> {
    run(&rt)
}
