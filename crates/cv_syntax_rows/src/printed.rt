//! Printed scripts: each word with a space behind it, worked out by hand, and the same once more when that text is read.

use cv_lex::lex;
use cv_syntax::parse;
use cv_token::Text;
use cv_writing::print;
use std::alloc::Global;
use std::process::Abort;
use std::test::Fail;

/// The text of the script that a source spells.
fn printed(rt: &impl Abort, alloc: Global, source: &str) -> Result<Text, Fail> {
    assert!(rt; source.len() < 1000);
    let found = lex(alloc, source)?;
    let script = parse(alloc, source, &found)?;
    Ok(print(alloc, &script)?)
}

/// Whether the source is printed so, and that text once more.
fn is_printed(rt: &impl Abort, alloc: Global, source: &str, expected: &str) -> Result<bool, Fail> {
    let text = printed(rt, alloc, source)?;
    let again = printed(rt, alloc, text.as_str())?;
    Ok(text.as_str() == expected && again.as_str() == expected)
}

/// Checks how each source is printed.
fn check_rows(rt: &impl Abort, alloc: Global, rows: &[(&str, &str)]) -> Result<(), Fail> {
    for row in rows {
        let (source, expected) = *row;
        assert!(rt; is_printed(rt, alloc, source, expected)?, "{source}");
    }
    Ok(())
}

#[test]
fn ramp_component(rt: HostRuntime) -> Result<(), Fail> {
    let source =
        "component Ramp(step) -> out {\n\"\"\"Counts and scales.\"\"\"\nc : std.CountTimer(sleep=0.5, steps=3)\nm : math.Multiply()\nc.integer > m.a\nstep > m.b\nm.result > .out\n}\ndefine STEP = 10\nr : Ramp(step=STEP)\nsnk : io.Print()\nr.out > snk.token\n";
    let expected =
        "component Ramp ( step ) -> out { c : std . CountTimer ( sleep = 0.5 , steps = 3 ) m : math . Multiply ( ) c . integer > m . a step > m . b m . result > . out } define STEP = 10 r : Ramp ( step = STEP ) snk : io . Print ( ) r . out > snk . token ";
    assert!(rt; is_printed(&rt, rt.alloc(), source, expected)?);
    Ok(())
}

#[test]
fn literals(rt: HostRuntime) -> Result<(), Fail> {
    let rows = [
        ("", ""),
        (
            "[null,true,false,-12,0,\"t\"]>a.b",
            "[ null , true , false , -12 , 0 , \"t\" ] > a . b ",
        ),
        ("9223372036854775807 > a.b", "9223372036854775807 > a . b "),
        (
            "-9223372036854775808 > a.b",
            "-9223372036854775808 > a . b ",
        ),
        ("007 > a.b -0 > a.b", "7 > a . b 0 > a . b "),
        ("\"\" > a.b", "\"\" > a . b "),
        ("[\"\",\"\"] > a.b", "[ \"\" , \"\" ] > a . b "),
        ("\"\\\"\\\\\" > a.b", "\"\\\"\\\\\" > a . b "),
        ("\"\\n\\u0041\\/é\\u00e9\" > a.b", "\"\nA/éé\" > a . b "),
        (
            "{\"k\":[1,{\"k\":{}}],\"k\":[]} > a.b",
            "{ \"k\" : [ 1 , { \"k\" : { } } ] , \"k\" : [ ] } > a . b ",
        ),
        ("a : A(x=-00.50, y=b)", "a : A ( x = -00.50 , y = b ) "),
    ];
    check_rows(&rt, rt.alloc(), &rows)
}

#[test]
fn sentences(rt: HostRuntime) -> Result<(), Fail> {
    let rows = [
        (
            "rule r:~a&(b|~(c))|d",
            "rule r : ~ a & ( b | ~ ( c ) ) | d ",
        ),
        (
            "rule r:node_attr_match(index=[\"g\",{\"f\":\"v\",\"h\":\"\"}])",
            "rule r : node_attr_match ( index = [ \"g\" , { \"f\" : \"v\" , \"h\" : \"\" } ] ) ",
        ),
        (
            "apply a,b:node_attr_match(index=[\"g\",{}])",
            "apply a , b : node_attr_match ( index = [ \"g\" , { } ] ) ",
        ),
        (
            "voidport>a.b,.c,voidport",
            "voidport > a . b , . c , voidport ",
        ),
        (".p>voidport x>a.b // end", ". p > voidport x > a . b "),
        ("component C()->{}", "component C ( ) -> { } "),
        (
            "component C(a,b)p,q->r,s{.p>.r}",
            "component C ( a , b ) p , q -> r , s { . p > . r } ",
        ),
        ("define X=0.5 define Y=X", "define X = 0.5 define Y = X "),
    ];
    check_rows(&rt, rt.alloc(), &rows)
}
