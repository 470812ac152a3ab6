//! Scripts by example, each with what is printed for it.
use crate::serve::answer;
use std::test::Fail;

/// 2 × unknown ≥ k: five nodes, 571 bytes.
const SOLVE: &str = "solve 1 1 1 0 12 2 -1 0\n";

/// What is printed for a script that begins so and then solves the worked system.
fn solved(rt: &HostRuntime, begin: &str) -> Result<Vec<u8>, Fail> {
    let script = format!(in rt.alloc(); "{begin}{SOLVE}")?;
    let mut out = Vec::new(rt.alloc());
    answer(rt.alloc(), script.as_bytes(), &mut out)?;
    Ok(out)
}

#[test]
fn stores_and_work_tables_that_hold_a_tree(rt: HostRuntime) -> Result<(), Fail> {
    for (begin, want) in [
        ("store nodes 5\nwork 5\n", "steps 12 nodes 5\n"),
        ("work 5\nstore nodes 5\n", "steps 12 nodes 5\n"),
        ("store nodes 4\nwork 5\n", "refused 23\n"),
        ("store nodes 5\nwork 4\n", "refused 22\n"),
        ("store nodes 0\nwork -0\n", "refused 22\n"),
        ("store page 571\nwork 5\n", "steps 12 nodes 5\n"),
        ("store page 570\nwork 5\n", "refused 23\n"),
        ("store nodes 65536\nwork 65536\n", "steps 12 nodes 5\n"),
    ] {
        let said = solved(&rt, begin)?;
        assert_eq!(rt; said.as_slice(), want.as_bytes(), "after {begin}");
    }
    Ok(())
}

#[test]
fn lines_that_are_refused(rt: HostRuntime) -> Result<(), Fail> {
    for line in [
        "walk",
        "store nodes 9",
        "work 9",
        "find 1234567890",
        "find 1 x",
        "wipe 1",
        "tree all",
        "solve 1 1 1 0 12 2 -1",
        " # no remark",
    ] {
        let begin = format!(in rt.alloc(); "store nodes 5\nwork 5\n{line}\n")?;
        let said = solved(&rt, begin.as_str())?;
        let want = b"refused 16\nsteps 12 nodes 5\n";
        assert_eq!(rt; said.as_slice(), want.as_slice(), "at {line}");
    }
    Ok(())
}
