//! Faults with their places, worked out by hand.

use crate::compiled::check_rows;
use std::test::Fail;

const FAULTS: [(&str, &str); 17] = [
    // two components that hold each other
    (
        "component A() -> out { x : B() x.out > .out }\ncomponent B() -> out { y : A() y.out > .out }\na : A()\n",
        "2:24 Recursion",
    ),
    ("a : std.Nope()", "1:1 NoKind"),
    ("src : std.Constant(data=0.5)", "1:20 Fraction"),
    ("src : std.CountTimer(sleep=0.0005)", "1:22 BadArg"),
    // an argument that is missing
    ("a : std.Constant(n=1)", "1:1 BadArg"),
    ("a : std.Constant(data=1, n=-2)", "1:26 BadArg"),
    (
        "a : math.Compare(op=\"<>\")\n1 > a.a\n2 > a.b\n",
        "1:18 BadArg",
    ),
    (
        "a : std.Constant(data=1)\nb : io.Print()\na.token > b.nope",
        "3:11 NoPort",
    ),
    // a name that is not declared, and an own port at the root
    ("x.out > voidport", "1:1 NoPort"),
    (".p > voidport", "1:1 NoPort"),
    (
        "a : std.Constant(data=1)\nb : io.Print()\na.token > b.token\na.token > b.token\n",
        "4:11 FedTwice",
    ),
    ("snk : io.Print()", "1:1 Unfed"),
    // own ports in a circle feed nothing
    (
        "component C() p -> p { .p > .p }\nc : C()\nb : io.Print()\nc.p > c.p, b.token",
        "3:1 Unfed",
    ),
    (
        "s : std.Sequence(data=[1])\nb : flow.Batch(n=5)\np : io.Print()\ns.token > b.token\nb.list > p.token",
        "2:1 BatchOverQueue",
    ),
    // also at an inport that `voidport` feeds
    (
        "b : flow.Batch(n=5)\nvoidport > b.token",
        "1:1 BatchOverQueue",
    ),
    ("rule r : node_attr_match(index=[\"a\", {}])", "1:1 Unbuilt"),
    ("a : std.Counter()\napply a : r", "2:1 Unbuilt"),
];

#[test]
fn one_fault(rt: HostRuntime) -> Result<(), Fail> {
    check_rows(&rt, rt.alloc(), &FAULTS)
}

#[test]
fn the_first_of_two(rt: HostRuntime) -> Result<(), Fail> {
    let rows = [
        // actors in order, kinds and arguments of each
        (
            "a : std.Constant(data=1, n=-2)\nb : std.Nope()",
            "1:26 BadArg",
        ),
        // actors before joins
        ("a : std.Nope()\nb.c > d.e", "1:1 NoKind"),
        // joins in order
        (
            "a : std.Constant(data=1)\nb : io.Print()\na.nope > b.token\na.token > b.token\n",
            "3:1 NoPort",
        ),
        ("5 > a.t, b.t\na : std.Identity()", "1:5 NoPort"),
        // a second feed before a later target that is not there
        (
            "5 > a.token, a.token, a.nope\na : std.Identity()",
            "1:14 FedTwice",
        ),
        // joins before inports
        ("snk : io.Print()\nsnk.nope > voidport", "2:1 NoPort"),
        // inports before queues
        (
            "bat : flow.Batch(n=5)\nsnk : io.Print()\nbat.list > snk.token",
            "1:1 Unfed",
        ),
        // any fault before a rule
        (
            "rule r : node_attr_match(index=[\"a\", {}])\nsnk : io.Print()",
            "2:1 Unfed",
        ),
    ];
    check_rows(&rt, rt.alloc(), &rows)
}
