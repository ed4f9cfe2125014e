//! A settle, sweep by sweep.

ghost use Rattle.std.specs.Prelude.{is_err};
ghost use Rattle.cv_mesh.specs.Moving.{AreMeshed};
ghost use Rattle.cv_settle.specs.Settling.{Settled, Sweeps};

use crate::carrying::carry_all;
use crate::exchanging::exchange;
use cv_mesh::{end_turns, look_all};
use cv_station::Station;
use cv_token::OutOfMemory;
use std::alloc::Global;

/// After a round without firings: tokens are sent and delivered, sweep by sweep, until one in which no connection advances and no frame
/// is lost. Nothing fires.
#[tactic(auto, using(crate::proofs::Settles::settled_none, crate::proofs::Settles::settled_then))]
pub fn settle(alloc: Global, stations: &mut [Station]) -> Result<(), OutOfMemory>
    requires { AreMeshed stations.old }
    ensures { Settled (is_err result) stations.old stations.new }
{
    for _sweep in 0..u32::MAX {
        if !sweep(alloc, stations)? {
            return Ok(());
        }
    }
    Ok(())
}

/// A sweep over all connections, after which the turns of the links end; tells whether a connection advanced or a frame was lost.
fn sweep(alloc: Global, stations: &mut [Station]) -> Result<bool, OutOfMemory>
    requires { AreMeshed stations.old }
    ensures { Settled (is_err result) stations.old stations.new }
{
    let answer = carry_each(alloc, stations);
    look_all(stations);
    end_turns(stations);
    answer
}

/// Delivers what lies in the rings, and carries tokens over each connection; tells whether that had an effect.
fn carry_each(alloc: Global, stations: &mut [Station]) -> Result<bool, OutOfMemory>
    requires { AreMeshed stations.old }
    ensures { Sweeps (is_err result) stations.old stations.new }
{
    let mut moved = exchange(alloc, stations)?;
    for place in 0..stations.len() {
        moved |= carry_all(alloc, stations, place)?;
    }
    Ok(moved)
}
