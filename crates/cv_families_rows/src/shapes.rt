//! What each action of the kinds of flow needs and gives, the guard port, the pause and the timed actions.

use super::lines::list;
use cv_behave::Behave;
use cv_flow::FlowKind;
use cv_token::Items;
use std::alloc::{AllocError, Global};
use std::fmt::Write;
use std::test::Fail;

/// Adds what the action needs of each inport, what it gives to each outport, and `*` where it is timed.
fn add_action<K: Behave>(
    told: &mut String,
    kind: &K,
    args: &Items,
    i: u8,
) -> Result<(), AllocError> {
    for port in 0..kind.inports() {
        write!(told, " {}", kind.needs(args, i, port))?;
    }
    told.push_str(" >")?;
    for port in 0..kind.outports() {
        write!(told, " {}", kind.gives(i, port))?;
    }
    told.push_str(if kind.timed(i) { " *" } else { "" })
}

/// Adds the guard port, `-` for none, and the pause.
fn add_waits<K: Behave>(told: &mut String, kind: &K, args: &Items) -> Result<(), AllocError> {
    match kind.guard_port() {
        Some(port) => write!(told, "{port}")?,
        None => told.push_str("-")?,
    }
    write!(told, " {}", kind.pause(args))
}

/// Adds the guard port, the pause, and the shape of each action.
fn add_shape<K: Behave>(told: &mut String, kind: &K, args: &Items) -> Result<(), AllocError> {
    add_waits(told, kind, args)?;
    for i in 0..kind.actions() {
        told.push_str(",")?;
        add_action(told, kind, args, i)?;
    }
    Ok(())
}

/// The shape of a kind with the arguments that are written in JSON.
fn shape<K: Behave>(alloc: Global, kind: &K, written: &str) -> Result<String, Fail> {
    let args = list(alloc, written)?;
    let mut told = String::new(alloc);
    add_shape(&mut told, kind, &args)?;
    Ok(told)
}

/// The arguments, then the shape.
const SHAPES: [(FlowKind, &str); 31] = [
    (FlowKind::Constant, "[5,3] = - 0, > 1"),
    (FlowKind::Counter, "[1] = - 0, > 1"),
    (FlowKind::CountTimer, "[100,1,3] = - 100, > 1 *"),
    (FlowKind::Identity, "[false] = - 0, 1 > 1"),
    (FlowKind::Sequence, "[[4,5]] = - 0, > 1"),
    (FlowKind::Trigger, "[1000,7] = - 1000, > 1 *"),
    (FlowKind::Delay, "[500] = - 500, 0 > 1 *, 1 > 0"),
    (FlowKind::Sum, "[] = - 0, 1 > 1"),
    (FlowKind::Tally, "[] = - 0, 1 > 1"),
    (FlowKind::Print, "[] = - 0, 1 >"),
    (FlowKind::Terminator, "[] = - 0, 1 >"),
    (FlowKind::Init, "[5] = - 0, 0 > 1, 1 > 1"),
    (FlowKind::Join, "[] = - 0, 1 0 > 1, 0 1 > 1"),
    (FlowKind::Alternate2, "[] = - 0, 1 0 > 1, 0 1 > 1"),
    (
        FlowKind::Alternate3,
        "[] = - 0, 1 0 0 > 1, 0 1 0 > 1, 0 0 1 > 1",
    ),
    (FlowKind::Dealternate2, "[] = - 0, 1 > 1 0, 1 > 0 1"),
    (FlowKind::Select, "[] = 0 0, 1 1 > 1 0, 1 1 > 0 1"),
    (FlowKind::Switch, "[] = 0 0, 1 1 0 > 1, 1 0 1 > 1"),
    (FlowKind::Batch, "[2] = - 0, 2 > 1"),
    (FlowKind::Unbatch, "[] = - 0, 0 > 1, 1 > 0"),
    (FlowKind::Take, "[2] = - 0, 1 > 1, 1 > 0"),
    (FlowKind::Skip, "[2] = - 0, 1 > 0, 1 > 1"),
    (FlowKind::Every, "[3] = - 0, 1 > 1, 1 > 0"),
    (FlowKind::Valve, "[] = - 0, 1 0 > 0, 0 1 > 1, 0 1 > 0"),
    (FlowKind::Zip, "[] = - 0, 1 1 > 1"),
    (FlowKind::Unzip, "[] = - 0, 1 > 1 1"),
    (FlowKind::Change, "[] = 0 0, 1 > 1, 1 > 0"),
    (FlowKind::Batch, "[64] = - 0, 64 > 1"),
    (FlowKind::Batch, "[65] = - 0, 1 > 1"),
    (FlowKind::Delay, "[-1] = - 0, 0 > 1 *, 1 > 0"),
    (
        FlowKind::Trigger,
        "[9223372036854775807] = - 9223372036854775807, > 1 *",
    ),
];

#[test]
fn has_the_shape_of_its_row(rt: HostRuntime) -> Result<(), Fail> {
    for (kind, line) in SHAPES {
        let (args, want) = line.split_once(" = ").ok_or("two parts")?;
        let told = shape(rt.alloc(), &kind, args)?;
        assert_eq!(rt; told.as_str(), want, "{kind:?}");
        let is_alone = kind != FlowKind::Join && kind != FlowKind::Valve;
        assert_eq!(rt; kind.is_deterministic(), is_alone, "{kind:?}");
    }
    Ok(())
}
