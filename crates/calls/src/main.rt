//! Reads a script of calls on a sheet from standard input and prints their answers. `docs/SCRIPT.md` has the form of a
//! script.
#![tactic(auto)]

mod line;
mod serve;
mod show;
#[cfg(test)]
mod tests;

use crate::serve::answer;
use std::io;
use std::io::{BufWriter, Read, Write};

fn run(rt: &HostRuntime) -> anyhow::Result<()> {
    let mut script = Vec::new(rt.alloc());
    rt.stdin().read_to_end(&mut script)?;
    let mut out = BufWriter::new(rt.alloc(), io::writer(rt))?;
    answer(rt.alloc(), script.as_slice(), &mut out)?;
    out.flush()?;
    Ok(())
}

fn main(rt: HostRuntime) -> anyhow::Result<()> {
    run(&rt)
}
