//! What lies in the rings is delivered.

ghost use Rattle.std.specs.Prelude.{is_err};
ghost use Rattle.cv_mesh.specs.Moving.{AreMeshed};
ghost use Rattle.cv_settle.specs.Settling.{Sweeps};

use crate::acting::{Came, deliver_at};
use cv_mesh::look_all;
use cv_station::Station;
use cv_token::OutOfMemory;
use std::alloc::Global;

/// Delivers at each station what is known to be in its rings.
fn deliver_each(alloc: Global, stations: &mut [Station]) -> Result<Came, OutOfMemory>
    requires { AreMeshed stations.old }
    ensures { Sweeps (is_err result) stations.old stations.new }
{
    let mut came = Came {
        frames: false,
        losses: false,
    };
    for place in 0..stations.len() {
        let one = deliver_at(alloc, stations, place)?;
        came.frames |= one.frames;
        came.losses |= one.losses;
    }
    Ok(came)
}

/// Looks at all rings, and delivers what lies there.
fn deliver_once(alloc: Global, stations: &mut [Station]) -> Result<Came, OutOfMemory>
    requires { AreMeshed stations.old }
    ensures { Sweeps (is_err result) stations.old stations.new }
{
    look_all(stations);
    deliver_each(alloc, stations)
}

/// Delivers what lies in the rings, and what is answered, until nothing comes; tells whether a frame was lost.
pub(crate) fn exchange(alloc: Global, stations: &mut [Station]) -> Result<bool, OutOfMemory>
    requires { AreMeshed stations.old }
    ensures { Sweeps (is_err result) stations.old stations.new }
{
    let mut lost = false;
    for _pass in 0..u32::MAX {
        let came = deliver_once(alloc, stations)?;
        lost |= came.losses;
        if !came.frames {
            return Ok(lost);
        }
    }
    Ok(lost)
}
