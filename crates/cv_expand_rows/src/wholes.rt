//! Scripts with all that they stand for, worked out by hand: actors, then instances, then joins.

use crate::listing::{expanded, write_actor, write_feed, write_instance};
use cv_expand::path::copy_path;
use cv_expand::{Named, Parts, Path, Step, path_text};
use cv_token::Text;
use std::alloc::{AllocError, Global};
use std::process::Abort;
use std::test::Fail;

/// Arguments along the path, constants by number in their own body, a join for each target.
const LEVELS: &str = "component Inner(v) -> out { c : std.Constant(data=v, n=1) c.token > .out }\n\
define SEVEN = 7\n\
component Outer(w) -> out { i : Inner(v=w) i.out > .out w > .out }\n\
o : Outer(w=SEVEN)\n5 > o.x, p.token\np : io.Print()\n\"hi\" > p.token\n";

const LEVELS_PARTS: &str = "o/i/c std.Constant data=7 n=1\n\
o/#1 std.Constant data=7 n=-1\n\
#1 std.Constant data=5 n=-1\n\
p io.Print\n\
#2 std.Constant data='hi' n=-1\n\
o Outer -> out\n\
o/i Inner -> out\n\
o/i: c.token > .out\n\
o: i.out > .out\n\
o: #1.token > .out\n\
: #1.token > o.x\n\
: #1.token > p.token\n\
: #2.token > p.token\n";

/// An argument hides a constant of its name, in its own body alone; a constant stands for one before it.
const HIDDEN: &str = "define V = 0.5\ndefine W = V\n\
component A(V) in -> out { c : std.Constant(data=V) .in > voidport }\n\
a : A(V=2)\nb : std.Constant(data=V)\nc : A(V=W)\nvoidport > a.in\n";

const HIDDEN_PARTS: &str = "a/c std.Constant data=2\n\
b std.Constant data=0.5\n\
c/c std.Constant data=0.5\n\
a A in -> out\n\
c A in -> out\n\
a: .in > voidport\n\
c: .in > voidport\n\
: voidport > a.in\n";

/// A line for each part.
fn lines(alloc: Global, parts: &Parts) -> Result<String, AllocError> {
    let mut text = String::new(alloc);
    for actor in parts.actors.as_slice() {
        write_actor(&mut text, actor)?;
    }
    for instance in parts.instances.as_slice() {
        write_instance(&mut text, instance)?;
    }
    for feed in parts.feeds.as_slice() {
        write_feed(&mut text, feed)?;
    }
    Ok(text)
}

/// The parts of a script without a fault, a line each.
fn listing(rt: &impl Abort, alloc: Global, source: &str) -> Result<String, Fail> {
    let flat = expanded(rt, alloc, source)??;
    Ok(lines(alloc, flat.parts())?)
}

#[test]
fn scripts_are_expanded(rt: HostRuntime) -> Result<(), Fail> {
    let alloc = rt.alloc();
    let rows = [
        ("", ""),
        (LEVELS, LEVELS_PARTS),
        (HIDDEN, HIDDEN_PARTS),
        // a component that is not used is not walked, whatever is in it
        ("component A() -> { x : A() y : Nope() }", ""),
        // one component twice side by side is no recursion
        (
            "component A() -> { }\ncomponent B() -> { x : A() y : A() }\nb : B()",
            "b B ->\nb/x A ->\nb/y A ->\n",
        ),
    ];
    for row in rows {
        let (source, expected) = row;
        assert_eq!(rt; listing(&rt, alloc, source)?.as_str(), expected);
    }
    Ok(())
}

/// The path of the script's first actor.
fn first_path(rt: &impl Abort, alloc: Global, source: &str) -> Result<Path, Fail> {
    let flat = expanded(rt, alloc, source)??;
    let Some(actor) = flat.parts().actors.get(0) else {
        return Err(Fail::new("nothing there"));
    };
    Ok(copy_path(alloc, &actor.path)?)
}

/// The number of a constant's step.
fn number_of(step: &Step) -> Option<usize> {
    match step {
        Step::Name(_) => None,
        Step::Constant(number) => Some(*number),
    }
}

#[test]
fn paths_are_copied(rt: HostRuntime) -> Result<(), Fail> {
    let alloc = rt.alloc();
    let path = first_path(&rt, alloc, "component A() -> { 1 > b.c }\na : A()")?;
    assert_eq!(rt; path.len(), 2);
    assert_eq!(rt; path_text(alloc, path.as_slice())?.as_str(), "a/#1");
    let Some(last) = path.get(1) else {
        return Err(Fail::new("nothing there"));
    };
    assert_eq!(rt; number_of(&last.copy(alloc)?), Some(1));
    Ok(())
}

#[test]
fn names_have_values(rt: HostRuntime) -> Result<(), Fail> {
    let alloc = rt.alloc();
    let key = Text::from_string(String::from_str(alloc, "a")?);
    let named = Named::new(alloc).with(alloc, key, 5_u32)?;
    assert!(rt; named.has("a"));
    assert_eq!(rt; named.get("a").copied(), Some(5));
    assert!(rt; !named.has("b"));
    Ok(())
}
