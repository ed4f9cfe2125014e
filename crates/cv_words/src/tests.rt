//! Words, read, with ample memory.

use super::*;
use std::alloc::{AllocError, Global};

// The words of a line.
fn words_of(alloc: Global, line: &str) -> Result<Vec<String>, AllocError> {
    let mut words = Vec::new(alloc);
    for word in line.split(' ') {
        words.push(String::from_str(alloc, word)?)?;
    }
    Ok(words)
}

// What the words of a line ask for, as text: the nodes, the firings and the items of `run` and `trace`.
fn told(alloc: Global, line: &str) -> Result<String, AllocError> {
    let words = words_of(alloc, line)?;
    match read_command(words.as_slice()) {
        None => String::from_str(alloc, "usage"),
        Some(Command::Gen { number }) => format!(in alloc; "gen {number}"),
        Some(Command::Script(task)) => told_task(alloc, &task),
    }
}

fn told_task(alloc: Global, task: &Task) -> Result<String, AllocError> {
    match task {
        Task::Run(run) => told_run(alloc, run),
        Task::Trace(run) => told_run(alloc, run),
        Task::Solo { firings } => {
            let firings = *firings;
            format!(in alloc; "solo {firings}")
        }
        Task::Compile => String::from_str(alloc, "compile"),
    }
}

fn told_run(alloc: Global, run: &RunWords) -> Result<String, AllocError> {
    let nodes = run.nodes();
    let firings = run.firings();
    let mut text = format!(in alloc; "{nodes} {firings}")?;
    for item in run.items() {
        let word = item.text(alloc)?;
        text.push(' ')?;
        text.push_str(word.as_str())?;
    }
    if let Some(stray) = run.stray() {
        let place = stray.place;
        let word = stray.item.text(alloc)?;
        let mark = format!(in alloc; " stray {place} ")?;
        text.push_str(mark.as_str())?;
        text.push_str(word.as_str())?;
    }
    Ok(text)
}

#[test]
fn words_ask_for_runs(rt: HostRuntime) {
    let alloc = rt.alloc();
    for (line, want) in [
        ("run", "1 1000"),
        ("trace --firings 007", "1 7"),
        ("run --firings 5 --nodes 16", "16 5"),
        (
            "run --nodes 3 lose:1-2:1 twice:02-3:1 cut:1-3:2",
            "3 1000 lose:1-2:1 twice:2-3:1 cut:1-3:2",
        ),
        (
            "run --nodes 2 -- lose:1-3:1 cut:64-1:999999999",
            "2 1000 lose:1-3:1 cut:64-1:999999999 stray 0 lose:1-3:1",
        ),
        (
            "run --nodes=3 --firings=9 lose:1-2:1 cut:3-65:1 lose:999999999-1:1",
            "3 9 lose:1-2:1 cut:3-65:1 lose:999999999-1:1 stray 1 cut:3-65:1",
        ),
        ("trace --firings=9 --nodes 2", "2 9"),
        ("run --nodes=", "usage"),
        ("run --nodes=2 --nodes 2", "usage"),
        ("run --nodes=2 --firings 1 --nodes 2", "usage"),
        ("run --node=2", "usage"),
        ("run lose:1000000000-1:1", "usage"),
        ("solo --firings=3", "solo 3"),
        ("solo --firings 3 lose:1-2:1", "usage"),
        ("run --nodes 17", "usage"),
        ("run --nodes 0", "usage"),
        ("run --nodes 2 --nodes 2", "usage"),
        ("run --nodes", "usage"),
        ("run lose:1-2:1 --nodes 2", "usage"),
        ("run lose:1-1:1", "usage"),
        ("run lose:0-1:1", "usage"),
        ("run lose:1-2:0", "usage"),
        ("run lose:1-2", "usage"),
        ("run loose:1-2:1", "usage"),
        ("solo --firings 3", "solo 3"),
        ("solo --nodes 2", "usage"),
        ("compile", "compile"),
        ("gen -- 2", "gen 2"),
    ] {
        let said = told(alloc, line);
        let Ok(said) = said else {
            assert!(rt; false, "memory");
            return;
        };
        assert_eq!(rt; said.as_str(), want, "at {line}");
    }
}
