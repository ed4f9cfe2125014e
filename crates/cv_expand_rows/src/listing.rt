//! What a script is expanded to, as lines.

use cv_expand::{Actor, ExpandFault, Feed, Flat, Given, Instance, Origin, Path, Step, expand};
use cv_lex::{NameText, lex};
use cv_readers::Name;
use cv_syntax::{Literal, Target, parse};
use std::alloc::{AllocError, Global};
use std::fmt::Write;
use std::process::Abort;
use std::test::Fail;

/// The parts of the script that a source spells, or its fault.
pub fn expanded(
    rt: &impl Abort,
    alloc: Global,
    source: &str,
) -> Result<Result<Flat, ExpandFault>, Fail> {
    assert!(rt; source.len() < 100_000);
    let found = lex(alloc, source)?;
    let script = parse(alloc, source, &found)?;
    Ok(expand(alloc, &script))
}

/// A name, or `#NUMBER`.
fn write_step(text: &mut String, step: &Step) -> Result<(), AllocError> {
    match step {
        Step::Name(name) => text.push_str(name.as_str()),
        Step::Constant(number) => write!(text, "#{number}"),
    }
}

fn write_path(text: &mut String, path: &Path) -> Result<(), AllocError> {
    let mut mark = "";
    for step in path.as_slice() {
        text.push_str(mark)?;
        write_step(text, step)?;
        mark = "/";
    }
    Ok(())
}

fn write_given(text: &mut String, given: &Given) -> Result<(), AllocError> {
    match given {
        Given::Literal(Literal::Int(number)) => write!(text, "{number}"),
        Given::Literal(Literal::Text(letters)) => write!(text, "'{}'", letters.as_str()),
        Given::Literal(_) => text.push_str("other"),
        Given::Fraction(letters) => text.push_str(letters.as_str()),
    }
}

/// `PATH KIND NAME=VALUE ..`
pub fn write_actor(text: &mut String, actor: &Actor) -> Result<(), AllocError> {
    write_path(text, &actor.path)?;
    write!(text, " {}", actor.kind.as_str())?;
    for argument in actor.args.as_slice() {
        write!(text, " {}=", argument.name.text.as_str())?;
        write_given(text, &argument.given)?;
    }
    text.push_str("\n")
}

fn write_ports(text: &mut String, ports: &[Name]) -> Result<(), AllocError> {
    for port in ports {
        write!(text, " {}", port.text.as_str())?;
    }
    Ok(())
}

/// `PATH COMPONENT INPORT .. -> OUTPORT ..`
pub fn write_instance(text: &mut String, instance: &Instance) -> Result<(), AllocError> {
    write_path(text, &instance.path)?;
    write!(text, " {}", instance.component.as_str())?;
    write_ports(text, instance.inports.as_slice())?;
    text.push_str(" ->")?;
    write_ports(text, instance.outports.as_slice())?;
    text.push_str("\n")
}

/// `.PORT`
fn write_port(text: &mut String, port: &NameText) -> Result<(), AllocError> {
    write!(text, ".{}", port.as_str())
}

fn write_origin(text: &mut String, origin: &Origin) -> Result<(), AllocError> {
    match origin {
        Origin::Void => text.push_str("voidport"),
        Origin::Own(port) => write_port(text, port),
        Origin::Port(step, port) => {
            write_step(text, step)?;
            write_port(text, port)
        }
    }
}

fn write_target(text: &mut String, target: &Target) -> Result<(), AllocError> {
    match target {
        Target::Voidport => text.push_str("voidport"),
        Target::Own(port) => write_port(text, port),
        Target::Port(actor, port) => {
            text.push_str(actor.as_str())?;
            write_port(text, port)
        }
    }
}

/// `BODY: SOURCE > TARGET`
pub fn write_feed(text: &mut String, feed: &Feed) -> Result<(), AllocError> {
    write_path(text, &feed.body)?;
    text.push_str(": ")?;
    write_origin(text, &feed.origin)?;
    text.push_str(" > ")?;
    write_target(text, &feed.target)?;
    text.push_str("\n")
}
