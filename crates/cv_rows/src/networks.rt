//! The program's answers on small networks, held against the second reading of what a run means.

use crate::answer;
use crate::reading::Reading;
use cv_io::{MemSink, MemSource};
use cv_protocol::Event;
use cv_top::End;
use std::alloc::{AllocError, Global};
use std::fmt::Write;
use std::process::Abort;
use std::test::Fail;
use std::thread::Threads;

/// Networks: the names of the actors in the order of their declarations, and the joins. A name that begins with `c` is a
/// constant, one with `i` an identity, one with `p` or `P` a print. Each port has the name `token`.
const NETWORKS: [(&str, &str); 10] = [
    ("", ""),
    ("c", ""),
    ("c p", "c>p"),
    ("c i p", "c>i i>p"),
    ("p i2 i1 c", "c>i1 i1>i2 i2>p"),
    ("i", "i>i"),
    ("i c p", "c>p i>i"),
    ("i1 i2 c p", "i1>i2 c>p i2>i1"),
    ("c1 c2 c3 p2 P p", "c1>p2 c3>p c2>P"),
    ("c1 p1 c2 i p2 c3", "c2>i c1>p1 i>p2"),
];

/// The network as a script.
fn script_of(alloc: Global, network: &Reading, joins: &str, n: i64) -> Result<String, AllocError> {
    let mut text = String::new(alloc);
    for (place, actor) in network.actors.iter().enumerate() {
        let name = actor.name;
        if actor.is_constant() {
            write!(text, "{name} : std.Constant(data={place}, n={n})\n")?;
        } else if actor.is_print() {
            write!(text, "{name} : io.Print()\n")?;
        } else {
            write!(text, "{name} : std.Identity()\n")?;
        }
    }
    for join in joins.split(' ') {
        if let Some((producer, consumer)) = join.split_once('>') {
            write!(text, "{producer}.token > {consumer}.token\n")?;
        }
    }
    Ok(text)
}

/// Makes the step in the reading, which must allow it.
fn follow(rt: &impl Abort, reading: &mut Reading, event: &Event) -> Result<(), AllocError> {
    match event {
        Event::Pass { conn } => assert!(rt; reading.pass(conn.place as usize)?),
        Event::Fire { actor, action } => {
            let place = actor.actor as usize;
            assert_eq!(rt; *action, 0);
            assert!(rt; reading.allows(place));
            assert!(rt; reading.can_fire(place));
            reading.fire(place)?;
        }
        _ => {}
    }
    Ok(())
}

/// Runs the script with so many firings at most, and holds the record, the text and the end against the reading.
fn agrees<R: Threads + Sync + Abort>(
    rt: &R,
    alloc: Global,
    script: &str,
    most: usize,
    mut reading: Reading,
) -> Result<(), Fail> {
    let bytes = Vec::from_slice(alloc, script.as_bytes())?;
    let mut source = MemSource::new(bytes, 9, Vec::new(alloc));
    let mut sink = MemSink::new(alloc, 6, Vec::new(alloc));
    let limit = most.to_string(alloc)?;
    let words = ["run", "--firings", limit.as_str()];
    let outcome = answer(rt, alloc, &words, &mut source, &mut sink)?;
    for (place, step) in outcome.merged.entries.as_slice().iter().enumerate() {
        assert_eq!(rt; step.node, 1);
        assert_eq!(rt; step.stamp.checked_sub(1), Some(place as u64));
        follow(rt, &mut reading, &step.event)?;
    }
    let firings = reading.fired.len();
    assert!(rt; firings <= most);
    let is_spent = firings == most;
    assert!(rt; is_spent || reading.is_quiet());
    let (end, word) = if is_spent {
        (End::Spent, "spent")
    } else {
        (End::Quiescent, "quiescent")
    };
    assert_eq!(rt; outcome.end, end);
    assert_eq!(rt; sink.bytes(), reading.text(alloc, word)?.as_bytes());
    Ok(())
}

#[test]
fn runs_are_what_the_lists_say(rt: HostRuntime) -> Result<(), Fail> {
    let alloc = rt.alloc();
    for (names, joins) in NETWORKS {
        for n in [-1, 0, 1, 3] {
            for most in [0, 1, 2, 7, 50] {
                let reading = Reading::of(alloc, names, joins, n)?;
                let script = script_of(alloc, &reading, joins, n)?;
                agrees(&rt, alloc, script.as_str(), most, reading)?;
            }
        }
    }
    Ok(())
}
