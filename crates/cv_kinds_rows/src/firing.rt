//! Firings that are not allowed, and some that are.

use cv_fixtures::constant_to_print;
use cv_solo::{Solo, SoloFault};
use std::alloc::Global;
use std::process::Abort;
use std::test::Fail;

/// An actor, its action, and how the firing is refused, one firing after another: actor 0 is a constant of two tokens, actor 1
/// its print.
const FIRINGS: [(u16, u8, Option<SoloFault>); 8] = [
    (1, 0, Some(SoloFault::NotEnabled)),
    (0, 0, None),
    (1, 0, None),
    // no token is left, and there is no such actor or action
    (1, 0, Some(SoloFault::NotEnabled)),
    (0, 1, Some(SoloFault::NotEnabled)),
    (2, 0, Some(SoloFault::NotEnabled)),
    // its two tokens are all that the constant gives
    (0, 0, None),
    (0, 0, Some(SoloFault::NotEnabled)),
];

/// Each firing is allowed or refused as its row says.
fn check_firings(rt: &impl Abort, alloc: Global, solo: &mut Solo) {
    for row in &FIRINGS {
        let (actor, action, _) = *row;
        let refused = solo.fire(alloc, actor, action).err();
        assert_eq!(rt; (actor, action, refused), *row);
    }
}

#[test]
fn a_print_fires_once_it_has_a_token(rt: HostRuntime) -> Result<(), Fail> {
    let alloc = rt.alloc();
    let net = constant_to_print(alloc, 2)?;
    let mut solo = Solo::new(alloc, &net)?;
    check_firings(&rt, alloc, &mut solo);
    assert_eq!(rt; solo.print(alloc)?.as_str(), "snk 7\n");
    Ok(())
}
