//! A round: each station is lent to a worker of its own.

ghost use Rattle.std.specs.Prelude.{◌≡◌, ◌<◌, ◌≤◌, ◌^◌, ℕ, false, length, slice_index_or};
ghost use Rattle.cv_station.specs.declared.station.Station.{Station};
ghost use Rattle.cv_mesh.specs.Moving.{AllFine, AreMeshed, Each, Worked, fired_in};
ghost use Rattle.cv_cluster.specs.Rounds.{Advances};

use crate::sharing::share;
use cv_io::Gate;
use cv_mesh::{end_turns, look_all};
use cv_station::Station;
use std::alloc::Global;
use std::thread;
use std::thread::Threads;

/// What a round came to.
#[derive(Debug, Clone, Copy, PartialEq, Eq)]
pub(crate) struct Outcome {
    /// How many firings there were.
    pub fired: u32,
    /// Whether memory was wanting at a station.
    pub failed: bool,
}

/// The station does its work of the round.
fn work_one<G: Gate>(alloc: Global, station: &mut Station, round: u32, gate: &G)
    ensures { Worked station.old station.new }
{
    station.work(alloc, gate, round);
}

/// Each station does its work of the round, on a thread of its own.
fn lend<R: Threads + Sync, G: Gate>(
    rt: &R,
    alloc: Global,
    stations: &mut [Station],
    round: u32,
    gate: &G,
)
    ensures { (i : ℕ) (d : Station) → i < length stations.old → Worked (slice_index_or stations.old i d) (slice_index_or stations.new i d) }
{
    let count = stations.len().max(1);
    thread::for_each_mut(
        rt,
        stations,
        count,
        &|_, station| { work_one(alloc, station, round, gate) },
    );
}

/// What the stations tell of their round.
fn tally(stations: &[Station]) -> Outcome
    requires { fired_in stations.now < 2 ^ 32 }
    ensures fired { result.fired ≡ fired_in stations.now }
    ensures fine { result.failed ≡ false → AllFine stations.now }
{
    let mut outcome = Outcome {
        fired: 0,
        failed: false,
    };
    for station in stations {
        outcome.fired += station.fired;
        outcome.failed |= station.failed;
    }
    outcome
}

/// The round of that number, with so many firings at most.
pub(crate) fn work_round<R: Threads + Sync, G: Gate>(
    rt: &R,
    alloc: Global,
    stations: &mut [Station],
    round: u32,
    most: u32,
    gate: &G,
) -> Outcome
    requires { AreMeshed stations.old }
    ensures within { result.fired ≤ most }
    ensures goes { Advances result.failed result.fired stations.old stations.new }
{
    share(stations, most, round);
    lend(rt, alloc, stations, round, gate);
    let outcome = tally(stations);
    look_all(stations);
    end_turns(stations);
    outcome
}
