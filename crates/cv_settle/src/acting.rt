//! What one station does in a settle.

ghost use Rattle.std.specs.Prelude.{◌≡◌, ◌<◌, length, true, is_err};
ghost use Rattle.cv_mesh.specs.Moving.{AreMeshed};
ghost use Rattle.cv_settle.specs.Settling.{Carries, Sweeps, is_carrying};

use cv_node::JOURNAL_LENGTH;
use cv_protocol::{Entry, Event, StepRefusal};
use cv_station::Station;
use cv_token::OutOfMemory;
use std::alloc::{AllocError, Global};

/// How many entries a station makes of what it is delivered at once, at most: two of each of 64 frames of each of 64 nodes.
const MOST_ENTRIES: usize = 8_192;

/// What came to stations: whether a frame did, and whether one was lost.
#[derive(Clone, Copy)]
pub(crate) struct Came {
    pub(crate) frames: bool,
    pub(crate) losses: bool,
}

/// Does an event of the node's own; tells whether. One that is refused changes nothing.
fn act(alloc: Global, station: &mut Station, event: Event) -> Result<bool, OutOfMemory>
    requires { is_carrying event ≡ true }
    ensures { Carries (is_err result) station.old station.new }
{
    if station.entries() >= JOURNAL_LENGTH {
        return Err(AllocError);
    }
    match station.step(alloc, event) {
        Ok(()) => Ok(true),
        Err(StepRefusal::StampSpent | StepRefusal::OutOfMemory) => Err(AllocError),
        Err(_cause) => Ok(false),
    }
}

/// Does an event of the node at that place.
pub(crate) fn act_at(
    alloc: Global,
    stations: &mut [Station],
    at: usize,
    event: Event,
) -> Result<bool, OutOfMemory>
    requires meshed { AreMeshed stations.old }
    requires place { at < length stations.old }
    requires own { is_carrying event ≡ true }
    ensures { Sweeps (is_err result) stations.old stations.new }
{
    act(alloc, &mut stations[at], event)
}

/// Whether a frame was lost by one of the entries from that place on.
fn has_lost(entries: &[Entry], from: usize) -> bool {
    for place in from..entries.len() {
        if matches!(&entries[place].event, Event::Lose { .. }) {
            return true;
        }
    }
    false
}

/// Delivers what all peers have pushed. Where the journal might be filled it's want of memory.
fn deliver(alloc: Global, station: &mut Station) -> Result<Came, OutOfMemory>
    ensures { Carries (is_err result) station.old station.new }
{
    let before = station.entries();
    if before > JOURNAL_LENGTH - MOST_ENTRIES {
        return Err(AllocError);
    }
    station.deliver_all(alloc, JOURNAL_LENGTH)?;
    Ok(Came {
        frames: station.entries() != before,
        losses: has_lost(&station.node.journal().entries, before),
    })
}

/// Delivers at the station of that place what its peers have pushed.
pub(crate) fn deliver_at(
    alloc: Global,
    stations: &mut [Station],
    at: usize,
) -> Result<Came, OutOfMemory>
    requires meshed { AreMeshed stations.old }
    requires place { at < length stations.old }
    ensures { Sweeps (is_err result) stations.old stations.new }
{
    deliver(alloc, &mut stations[at])
}
