//! Long and deep scripts.

use crate::compiled::compiled;
use cv_deploy::compile;
use std::alloc::{AllocError, Global};
use std::fmt::Write;
use std::test::Fail;

/// A component with fifteen ways through it.
fn push_component(text: &mut String) -> Result<(), AllocError> {
    text.push_str("component P() i0")?;
    for port in 1..15 {
        write!(text, ", i{port}")?;
    }
    text.push_str(" -> o0")?;
    for port in 1..15 {
        write!(text, ", o{port}")?;
    }
    text.push_str(" {\n")?;
    for port in 0..15 {
        write!(text, ".i{port} > .o{port}\n")?;
    }
    text.push_str("}\n")
}

/// A source and a sink for each way, and the joins to the first component and from the last.
fn push_ends(text: &mut String) -> Result<(), AllocError> {
    for port in 0..15 {
        write!(text, "s{port} : std.Counter()\nk{port} : io.Print()\n")?;
        write!(text, "s{port}.integer > p0.i{port}\n")?;
        write!(text, "p129.o{port} > k{port}.token\n")?;
    }
    Ok(())
}

/// The joins from each of the components to the next.
fn push_links(text: &mut String) -> Result<(), AllocError> {
    for before in 0..129_u32 {
        let place = before.saturating_add(1);
        for port in 0..15 {
            write!(text, "p{before}.o{port} > p{place}.i{port}\n")?;
        }
    }
    Ok(())
}

/// Fifteen ways through 130 components one after another, by 3,915 joins.
fn long_script(alloc: Global) -> Result<String, AllocError> {
    let mut text = String::new(alloc);
    push_component(&mut text)?;
    push_ends(&mut text)?;
    for place in 0..130 {
        write!(text, "p{place} : P()\n")?;
    }
    push_links(&mut text)?;
    Ok(text)
}

#[test]
fn a_long_script(rt: HostRuntime) -> Result<(), Fail> {
    let text = long_script(rt.alloc())?;
    assert!(rt; text.len() < 1_000_000);
    let Ok(net) = compile(rt.alloc(), text.as_bytes()) else {
        let none = compiled(&rt, rt.alloc(), text.as_str())?;
        assert_eq!(rt; none.as_str(), "a network");
        return Ok(());
    };
    assert_eq!(rt; net.actors().len(), 30);
    assert_eq!(rt; net.connections().len(), 15);
    Ok(())
}

/// A way through components that stand sixteen deep.
fn deep_script(alloc: Global) -> Result<String, AllocError> {
    let mut text = String::new(alloc);
    for depth in 1..16 {
        let inner = depth + 1;
        write!(
            text,
            "component C{depth}() in -> out {{ c : C{inner}() .in > c.in c.out > .out }}\n"
        )?;
    }
    text.push_str(
        "component C16() in -> out { i : std.Identity() .in > i.token i.token > .out }\n",
    )?;
    text.push_str("a : C1()\nk : io.Print()\n3 > a.in\na.out > k.token\n")?;
    Ok(text)
}

#[test]
fn a_deep_script(rt: HostRuntime) -> Result<(), Fail> {
    let text = deep_script(rt.alloc())?;
    let found = compiled(&rt, rt.alloc(), text.as_str())?;
    assert_eq!(rt;
        found.as_str(),
        r##"{"actors":[["a/c/c/c/c/c/c/c/c/c/c/c/c/c/c/c/i","std.Identity",[false],null],["k","io.Print",[],null],["#1","std.Constant",[3,-1],null]],"connections":[[2,"token",0,"token"],[0,"token",1,"token"]]}"##
    );
    Ok(())
}
