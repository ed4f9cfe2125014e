//! Faults with their places, worked out by hand: the first that the walk meets.

use crate::listing::expanded;
use cv_expand::{ExpandFault, Parts};
use std::alloc::{AllocError, Global};
use std::fmt::Write;
use std::process::Abort;
use std::test::Fail;

/// `LINE:COLUMN` of a place, both from 1, the column in bytes.
fn place(source: &str, at: u32) -> (usize, usize) {
    let at = at as usize;
    let mut line: usize = 1;
    let mut start: usize = 0;
    for (index, byte) in source.as_bytes().iter().enumerate() {
        if index < at && *byte == b'\n' {
            line = line.wrapping_add(1);
            start = index.wrapping_add(1);
        }
    }
    (line, at.wrapping_sub(start).wrapping_add(1))
}

/// A fault's name and place.
fn fault_at(fault: ExpandFault) -> (&'static str, u32) {
    match fault {
        ExpandFault::NoComponent { at } => ("NoComponent", at),
        ExpandFault::Recursion { at } => ("Recursion", at),
        ExpandFault::ArgCount { at } => ("ArgCount", at),
        ExpandFault::NoArg { at } => ("NoArg", at),
        ExpandFault::DoubleName { at } => ("DoubleName", at),
        ExpandFault::TooMany { at } => ("TooMany", at),
        ExpandFault::OutOfMemory => ("OutOfMemory", 0),
    }
}

/// How many actors, instances and joins there are.
fn counts(alloc: Global, parts: &Parts) -> Result<String, AllocError> {
    let actors = parts.actors.len();
    let instances = parts.instances.len();
    let feeds = parts.feeds.len();
    format!(in alloc; "{actors} {instances} {feeds}")
}

/// `LINE:COLUMN FAULT`, or the counts.
fn shown(rt: &impl Abort, alloc: Global, source: &str) -> Result<String, Fail> {
    let fault = match expanded(rt, alloc, source)? {
        Ok(flat) => return Ok(counts(alloc, flat.parts())?),
        Err(fault) => fault,
    };
    let (name, at) = fault_at(fault);
    let (line, column) = place(source, at);
    Ok(format!(in alloc; "{line}:{column} {name}")?)
}

/// Checks what each source shows.
fn check_rows(rt: &impl Abort, alloc: Global, rows: &[(&str, &str)]) -> Result<(), Fail> {
    for row in rows {
        let (source, expected) = *row;
        assert_eq!(rt; shown(rt, alloc, source)?.as_str(), expected);
    }
    Ok(())
}

const FAULTS: [(&str, &str); 19] = [
    // two components that hold each other
    (
        "component A() -> out { x : B() x.out > .out }\n\
         component B() -> out { y : A() y.out > .out }\na : A()\n",
        "2:24 Recursion",
    ),
    (
        "component A() -> out { x : A() x.out > .out }\na : A()",
        "1:24 Recursion",
    ),
    ("a : Nope()", "1:1 NoComponent"),
    ("component A(p) -> { }\na : A()", "2:1 ArgCount"),
    ("component A() -> { }\na : A(p=1)", "2:1 ArgCount"),
    ("component A(p) -> { }\na : A(q=1)", "2:7 NoArg"),
    ("a : io.Print(x=nope)", "1:14 NoArg"),
    ("nope > a.b", "1:1 NoArg"),
    ("define A = B\ndefine B = 1", "1:12 NoArg"),
    ("define A = 1\ndefine A = 2", "2:8 DoubleName"),
    (
        "component A() -> { }\ncomponent A() -> { }",
        "2:11 DoubleName",
    ),
    ("component A(p, p) -> { }", "1:16 DoubleName"),
    ("component A() p, p -> { }", "1:18 DoubleName"),
    ("component A() -> p, p { }", "1:21 DoubleName"),
    // an inport and an outport of one name are two ports
    ("component A() p -> p { .p > .p }", "0 0 0"),
    ("rule r : a\nrule r : b", "2:6 DoubleName"),
    ("a : io.Print()\na : io.Print()", "2:1 DoubleName"),
    ("a : io.Print(x=1, x=2)", "1:19 DoubleName"),
    // what a component is given is unknown in another body
    ("component A(p) -> { }\na : A(p=1)\np > b.c", "3:1 NoArg"),
];

#[test]
fn one_fault(rt: HostRuntime) -> Result<(), Fail> {
    check_rows(&rt, rt.alloc(), &FAULTS)
}

const FIRST_FAULTS: [(&str, &str); 10] = [
    // constants, then components, then rules, then statements
    ("a : Nope()\ndefine A = B", "2:12 NoArg"),
    (
        "component A() -> { }\ncomponent A() -> { }\ndefine V = 1\ndefine V = 2",
        "4:8 DoubleName",
    ),
    (
        "rule r : a\nrule r : b\ncomponent A() -> { }\ncomponent A() -> { }",
        "4:11 DoubleName",
    ),
    ("a : Nope()\nrule r : a\nrule r : b", "3:6 DoubleName"),
    // a constant's name, then its value
    ("define A = 1\ndefine A = B", "2:8 DoubleName"),
    // at one declaration
    ("a : io.Print()\na : Nope(x=1, x=2)", "2:1 DoubleName"),
    ("a : Nope(x=1, x=2)", "1:15 DoubleName"),
    (
        "component A(p) -> { x : A() }\na : A(p=1)",
        "1:21 Recursion",
    ),
    ("component A(p) -> { }\na : A(q=nope, r=1)", "2:1 ArgCount"),
    // the walk goes into a component before it goes on
    (
        "component A() -> { x : Nope() }\na : A()\na : A()",
        "1:20 NoComponent",
    ),
];

#[test]
fn the_first_of_two(rt: HostRuntime) -> Result<(), Fail> {
    check_rows(&rt, rt.alloc(), &FIRST_FAULTS)
}

/// Lines of one kind, with a name of its own in front of each where one is asked for, and what stands behind them.
fn many(
    alloc: Global,
    head: &str,
    count: u32,
    named: bool,
    line: &str,
) -> Result<String, AllocError> {
    let mut text = String::from_str(alloc, head)?;
    for number in 0..count {
        if named {
            write!(text, "a{number}")?;
        }
        write!(text, "{line}\n")?;
    }
    Ok(text)
}

#[test]
fn too_many(rt: HostRuntime) -> Result<(), Fail> {
    let component = "component A() -> { x : io.Print() }\n";
    let behind_one = "component A() -> { x : io.Print() }\nz : io.Print()\n";
    // what stands in front, how many lines there are, whether each has a name, the line, and what comes of it
    let rows = [
        ("", 256, true, " : io.Print()", "256 0 0"),
        ("", 257, true, " : io.Print()", "257:1 TooMany"),
        // an instance counts, and what stands in it
        (component, 128, true, " : A()", "128 128 0"),
        (component, 129, true, " : A()", "130:1 TooMany"),
        (behind_one, 128, true, " : A()", "1:20 TooMany"),
        // a constant counts as an actor
        ("", 257, false, "1 > a.b", "257:1 TooMany"),
        ("", 4096, false, "a.b > c.d", "0 0 4096"),
        ("", 4097, false, "a.b > c.d", "4097:1 TooMany"),
        // each target is a join, voidport too; the place is the source's
        ("", 2049, false, "a.b > c.d, voidport", "2049:1 TooMany"),
    ];
    for row in rows {
        let (head, count, named, line, expected) = row;
        let source = many(rt.alloc(), head, count, named, line)?;
        assert_eq!(rt; shown(&rt, rt.alloc(), source.as_str())?.as_str(), expected);
    }
    Ok(())
}
