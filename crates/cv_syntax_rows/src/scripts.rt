//! Small scripts with the number of their items or their fault, worked out by hand from the grammar.

use cv_lex::lex;
use cv_syntax::{ParseFault, parse};
use std::alloc::Global;
use std::process::Abort;
use std::test::Fail;

/// A fault's name and place.
fn fault_at(fault: ParseFault) -> (&'static str, u32) {
    match fault {
        ParseFault::Unexpected { at } => ("Unexpected", at),
        ParseFault::TooDeep { at } => ("TooDeep", at),
        ParseFault::OutOfMemory => ("OutOfMemory", 0),
    }
}

/// How many items there are, or the fault by its name and place.
fn shown(rt: &impl Abort, alloc: Global, source: &str) -> Result<String, Fail> {
    assert!(rt; source.len() < 1000);
    let found = lex(alloc, source)?;
    let fault = match parse(alloc, source, &found) {
        Ok(script) => return Ok(format!(in alloc; "{} items", script.items.len())?),
        Err(fault) => fault,
    };
    let (name, at) = fault_at(fault);
    Ok(format!(in alloc; "{name} {at}")?)
}

/// Checks what each source shows.
fn check_rows(rt: &impl Abort, alloc: Global, rows: &[(&str, &str)]) -> Result<(), Fail> {
    for row in rows {
        let (source, expected) = *row;
        assert_eq!(rt; shown(rt, alloc, source)?.as_str(), expected);
    }
    Ok(())
}

#[test]
fn joins_and_ends(rt: HostRuntime) -> Result<(), Fail> {
    let rows = [
        ("", "0 items"),
        ("a : std.Constant(data=1)", "1 items"),
        ("a : A", "Unexpected 5"),
        ("a : std.Counter() >", "Unexpected 18"),
        ("a.b > c.d", "1 items"),
        ("a.b > c.d, e.f", "1 items"),
        ("a.b > c.d,", "Unexpected 10"),
        ("a.null > b.c", "Unexpected 2"),
        ("0.5 > a.b", "Unexpected 0"),
        ("5 > a.b", "1 items"),
        ("a > b.c", "1 items"),
        ("a > b", "Unexpected 5"),
        ("a > voidport", "1 items"),
        ("voidport > a.b", "1 items"),
        ("voidport > voidport", "1 items"),
        (".a > .b", "1 items"),
        (". > a.b", "Unexpected 2"),
        ("a.b.c > d.e", "Unexpected 3"),
    ];
    check_rows(&rt, rt.alloc(), &rows)
}

#[test]
fn ends_and_arguments(rt: HostRuntime) -> Result<(), Fail> {
    let rows = [
        ("a.b", "Unexpected 3"),
        ("a", "Unexpected 1"),
        ("a b", "Unexpected 2"),
        ("a , b", "Unexpected 2"),
        ("a   ", "Unexpected 4"),
        ("   a", "Unexpected 4"),
        ("a : A()", "1 items"),
        ("a : A(,)", "Unexpected 6"),
        ("a : A(x=1,)", "Unexpected 10"),
        ("a : A(x=1 y=2)", "Unexpected 10"),
        ("a : A(x=0.5)", "1 items"),
        ("a : A(x=y)", "1 items"),
        ("a : A(x=[0.5])", "Unexpected 9"),
        ("a : A(x=[y])", "Unexpected 9"),
        ("a : A(x=[1,2,[]])", "1 items"),
        ("a : A(x=[1,])", "Unexpected 11"),
        ("a : A(x={})", "1 items"),
        ("a : A(x={\"k\":1,\"k\":2})", "1 items"),
    ];
    check_rows(&rt, rt.alloc(), &rows)
}

#[test]
fn literals_and_constants(rt: HostRuntime) -> Result<(), Fail> {
    let rows = [
        ("a : A(x={\"k\"})", "Unexpected 12"),
        ("a : A(x={k:1})", "Unexpected 9"),
        ("a : A.B.C()", "Unexpected 7"),
        ("a : 5()", "Unexpected 4"),
        ("true : A()", "Unexpected 5"),
        ("define X = 1", "1 items"),
        ("define X = 0.5 define Y = X", "2 items"),
        ("define X 1", "Unexpected 9"),
        ("define = 1", "Unexpected 7"),
        ("define null = 1", "Unexpected 7"),
        ("component C() -> { }", "1 items"),
        (
            "component C(a, b) p, q -> r, s { a : A() .p > a.x a.y > .r }",
            "1 items",
        ),
    ];
    check_rows(&rt, rt.alloc(), &rows)
}

#[test]
fn components_and_rules(rt: HostRuntime) -> Result<(), Fail> {
    let rows = [
        ("component C() -> {", "Unexpected 18"),
        ("component C() { }", "Unexpected 14"),
        ("component C() -> { component D() -> { } }", "Unexpected 19"),
        ("component C(a,) -> { }", "Unexpected 14"),
        ("component C() p, -> { }", "Unexpected 17"),
        ("}", "Unexpected 0"),
        ("rule r : a", "1 items"),
        ("rule r : a | b & c", "1 items"),
        ("rule r : a |", "Unexpected 12"),
        ("rule r : (a | b", "Unexpected 15"),
        ("rule r : ~~a", "1 items"),
        ("rule r : a ~ b", "Unexpected 11"),
        ("rule r : a b > c.d", "2 items"),
        (
            "rule r : node_attr_match(index=[\"g\", {\"f\": \"v\"}])",
            "1 items",
        ),
        ("rule r : node_attr_match(index=[\"g\", {}])", "1 items"),
    ];
    check_rows(&rt, rt.alloc(), &rows)
}

#[test]
fn matches_and_applies(rt: HostRuntime) -> Result<(), Fail> {
    let rows = [
        ("rule r : node_attr_match", "Unexpected 24"),
        ("rule r : node_attr_match(x=", "Unexpected 25"),
        ("rule r : node_attr_match(index=[\"g\"])", "Unexpected 35"),
        ("apply a, b : r", "1 items"),
        ("apply : r", "Unexpected 6"),
        ("apply a, : r", "Unexpected 9"),
        ("apply a", "Unexpected 7"),
        ("[[[[[[[[[[[[[[[[]]]]]]]]]]]]]]]] > a.b", "1 items"),
        ("[[[[[[[[[[[[[[[[[]]]]]]]]]]]]]]]]] > a.b", "TooDeep 16"),
    ];
    check_rows(&rt, rt.alloc(), &rows)
}

#[test]
fn levels(rt: HostRuntime) -> Result<(), Fail> {
    let rows = [
        ("[[[[[[[[[[[[[[[[[", "TooDeep 16"),
        ("[[[[[[[[[[[[[[[[}", "Unexpected 16"),
        ("rule r : ~~~~~~~~~~~~~~~~a", "1 items"),
        ("rule r : ~~~~~~~~~~~~~~~~~a", "TooDeep 25"),
        ("rule r : ~~~~~~~~~~~~~~~~(a)", "TooDeep 25"),
        (
            "rule r : ~~~~~~~~~~~~~node_attr_match(index=[\"g\", {}])",
            "1 items",
        ),
        (
            "rule r : ~~~~~~~~~~~~~~node_attr_match(index=[\"g\", {}])",
            "TooDeep 51",
        ),
        ("rule r : ~~~~~~~~~~~~~~~~node_attr_match(", "TooDeep 40"),
    ];
    check_rows(&rt, rt.alloc(), &rows)
}

#[test]
fn names(rt: HostRuntime) -> Result<(), Fail> {
    let rows = [
        ("\"t\" > a.b", "1 items"),
        ("node_attr_match : A()", "1 items"),
        ("index > a.b", "1 items"),
        ("rule node_attr_match : a", "1 items"),
        ("a.b > c.d e.f > g.h", "2 items"),
        ("null > a.b", "1 items"),
    ];
    check_rows(&rt, rt.alloc(), &rows)
}
