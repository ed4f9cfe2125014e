//! Random events of small networks: node and reading answer and end alike.

use crate::worlds::World;
use std::alloc::Global;
use std::process::Abort;
use std::test::Fail;

/// How many worlds there are, and how many events each has.
const WORLDS: u64 = 32;

const EVENTS: u32 = 600;

/// A world of that seed, with all its events: how many were done.
fn lived(rt: &impl Abort, alloc: Global, seed: u64) -> Result<u32, Fail> {
    let mut world = World::new(rt, alloc, seed)?;
    world.begin(rt, alloc)?;
    for _ in 0..EVENTS {
        world.step(rt, alloc)?;
    }
    Ok(world.done)
}

// Each event is compared as it is done; some fifth of them are done, and the others are refused.
#[test]
fn nodes_follow_the_table(rt: HostRuntime) -> Result<(), Fail> {
    let alloc = rt.alloc();
    for seed in 0..WORLDS {
        assert!(rt; lived(&rt, alloc, seed)? > 50);
    }
    Ok(())
}
