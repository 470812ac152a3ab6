//! Reads a listing from standard input and prints its solution tree, or by which number it is refused.
#![tactic(auto)]

use listing::solve::answer_text;
use std::io::Read;

fn run(rt: &HostRuntime) -> anyhow::Result<()> {
    let mut text = Vec::new(rt.alloc());
    rt.stdin().read_to_end(&mut text)?;
    let answer = answer_text(rt.alloc(), text.as_slice())?;
    rt.print(answer.as_str())?;
    Ok(())
}

fn main(rt: HostRuntime) -> anyhow::Result<()> {
    run(&rt)
}
