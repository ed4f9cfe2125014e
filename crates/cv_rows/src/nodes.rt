//! Rows of runs over several nodes: losses, repeats and cuts change nothing of what is printed, and items that name no node that runs are
//! refused.

use super::*;
use std::process::Abort;
use std::test::Fail;

/// A timer of five ticks, an identity and a print, and what they print on one node.
const CHAIN: (&str, &str) = (
    "src : std.CountTimer(sleep=0.1, steps=5)\nmid : std.Identity()\nsnk : io.Print()\nsrc.integer > mid.token\nmid.token > snk.token\n",
    "snk 1\nsnk 2\nsnk 3\nsnk 4\nsnk 5\nfirings 15\nend quiescent\n",
);

/// A sum that is fed back through a first token, and what it prints on one node.
const SUM: (&str, &str) = (
    "one : std.Constant(data=1, n=3)\nini : flow.Init(data=0)\nadd : math.Add()\nsnk : io.Print()\none.token > add.a\nini.out > add.b\nadd.result > ini.in, snk.token\n",
    "snk 1\nsnk 2\nsnk 3\nfirings 13\nend quiescent\n",
);

/// Words of 24 runs over one to four nodes.
const RUNS: [&str; 24] = [
    "run",
    "run --",
    "run --nodes 1",
    "run --nodes 1 --firings 100",
    "run --nodes 2",
    "run --nodes 2 lose:1-2:1",
    "run --nodes 2 lose:2-1:1 lose:1-2:2",
    "run --nodes 2 twice:1-2:1 twice:2-1:1",
    "run --nodes 2 cut:1-2:1 cut:2-1:2",
    "run --nodes 2 lose:1-2:1 lose:1-2:2 lose:1-2:3 lose:1-2:4",
    "run --nodes 3",
    "run --nodes 3 lose:1-2:1 twice:2-3:1 cut:1-3:2",
    "run --nodes 3 -- cut:2-3:1 cut:3-2:1",
    "run --nodes 3 lose:2-1:1 lose:3-2:1 lose:1-3:1",
    "run --nodes 3 twice:1-2:1 twice:1-2:2 twice:2-3:2 twice:3-1:1",
    "run --firings 200 --nodes 3 lose:2-3:3 cut:2-3:5",
    "run --nodes 3 lose:1-2:1 twice:1-2:1 cut:1-2:2",
    "run --nodes 4",
    "run --nodes 4 lose:1-2:1 lose:2-3:1 lose:3-4:1 lose:4-1:1",
    "run --nodes 4 twice:3-4:1 twice:4-2:1 twice:2-3:2",
    "run --nodes 4 cut:1-3:1 cut:2-3:1 cut:3-2:1 cut:3-4:1",
    "run --nodes 4 --firings 300 cut:3-4:2 lose:3-4:4",
    "run --nodes 4 lose:4-3:1 lose:3-2:1 lose:2-1:1",
    "run --nodes 4 -- twice:1-4:1 cut:2-3:9 lose:2-3:999999999",
];

/// Runs a line of words on a script, and holds status and text against what is wanted.
fn prints<R: Threads + Sync + Abort>(
    rt: &R,
    alloc: Global,
    line: &str,
    script: &str,
    wanted: u8,
    text: &str,
) -> Result<(), Fail> {
    let bytes = Vec::from_slice(alloc, script.as_bytes())?;
    let mut source = MemSource::new(bytes, 100, Vec::new(alloc));
    let mut sink = MemSink::new(alloc, 100, Vec::new(alloc));
    let mut words = Vec::new(alloc);
    for word in line.split(' ') {
        words.push(word)?;
    }
    assert_eq!(rt;
        status(rt, alloc, words.as_slice(), &mut source, &mut sink)?,
        wanted,
        "at {line}"
    );
    assert_eq!(rt; sink.bytes(), text.as_bytes(), "at {line}");
    Ok(())
}

#[test]
fn losses_change_no_byte(rt: HostRuntime) -> Result<(), Fail> {
    let alloc = rt.alloc();
    for line in &RUNS {
        for (script, text) in [CHAIN, SUM] {
            prints(&rt, alloc, line, script, 0, text)?;
        }
    }
    Ok(())
}

#[test]
fn items_name_nodes_that_run(rt: HostRuntime) -> Result<(), Fail> {
    let alloc = rt.alloc();
    let script = "src : std.Constant(data=7, n=2)\nsnk : io.Print()\nsrc.token > snk.token\n";
    // the words, the status and the text
    for (line, wanted, text) in [
        ("run --nodes 2 lose:1-3:1", 7, "plan lose:1-3:1\n"),
        ("run --nodes 2 lose:1-2:1 cut:3-1:02", 7, "plan cut:3-1:2\n"),
        (
            "trace --nodes 2 twice:9-1:1 lose:1-3:1",
            7,
            "plan twice:9-1:1\n",
        ),
        ("run lose:1-2:1", 7, "plan lose:1-2:1\n"),
        ("run --nodes 2 lose:1-1:1", 2, "usage\n"),
        ("run --nodes=2 lose:1-65:1", 7, "plan lose:1-65:1\n"),
        ("run --nodes=2 --nodes 2", 2, "usage\n"),
        ("run --nodes 2 lose:1-2:0", 2, "usage\n"),
        ("run lose:1-2:1 --nodes 2", 2, "usage\n"),
        ("run --nodes 2 --nodes 2", 2, "usage\n"),
        ("run --nodes 0", 2, "usage\n"),
        ("run --nodes 17", 2, "usage\n"),
        ("run --nodes", 2, "usage\n"),
        ("solo --nodes 2", 2, "usage\n"),
    ] {
        prints(&rt, alloc, line, script, wanted, text)?;
    }
    // a fault of the script comes first
    prints(
        &rt,
        alloc,
        "run --nodes 2 lose:1-3:1",
        "a : std.Nope()",
        3,
        "script 1:1 NoKind\n",
    )
}
