//! Solves each line of a file of listings and prints the line and its answer.
#![tactic(auto)]

ghost use Rattle.std.specs.Prelude.{◌≡◌, length};
ghost use Rattle.figures.specs.Figures.{FiguresStand, figures};

use listing::solve::answer_text;
use std::fs;

/// The worked figures hold of the definitions; the number is how many there are.
pub fn figures_stand() -> u8
    ensures stand { FiguresStand }
    ensures count { result ≡ length figures }
{
    14
}

fn show_answer(rt: &HostRuntime, line: &str) -> anyhow::Result<()> {
    let answer = answer_text(rt.alloc(), line.as_bytes())?;
    println!(rt; "# {line}")?;
    rt.print(answer.as_str())?;
    Ok(())
}

fn run(rt: &HostRuntime) -> anyhow::Result<()> {
    let text = fs::read_to_string(rt, "listings.txt")?;
    for line in text.as_str().lines() {
        show_answer(rt, line)?;
    }
    Ok(())
}

fn main(rt: HostRuntime) -> anyhow::Result<()> {
    run(&rt)
}
