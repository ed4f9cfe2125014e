//! Time goes on at all nodes.

ghost use Rattle.std.specs.Prelude.{◌≡◌, false, length, OnErr, OnOk};
ghost use Rattle.cv_mesh.specs.Moving.{AreMeshed, Each, Settles};
ghost use Rattle.cv_cluster.specs.Holding.{IsNear};
ghost use Rattle.cv_cluster.specs.Rounds.{Advances};
ghost use Rattle.cv_cluster.specs.Ticking.{AllReady, AllTake, DueBelow, IsReady, MakesRoom, MayMakeRoom, StationTicks, earlier};

use cv_mesh::look_all;
use cv_protocol::Event;
use cv_station::Station;
use cv_token::OutOfMemory;
use std::alloc::Global;

/// The earlier one of two moments, where there are any.
fn earlier(due: Option<u64>, other: Option<u64>) -> Option<u64>
    ensures { result ≡ earlier due other }
{
    match (due, other) {
        (Some(due), Some(other)) => Some(due.min(other)),
        (Some(due), None) => Some(due),
        (None, other) => other,
    }
}

/// The least moment that an action of a live actor of a station waits for.
pub(crate) fn due_in(stations: &[Station]) -> Option<u64>
    ensures { DueBelow stations.now (length stations.now) result }
{
    let mut due = None;
    for place in 0..stations.len() {
        due = earlier(due, stations[place].node.next_due());
    }
    due
}

/// Makes room for one entry more at one node.
fn reserve_one(station: &mut Station) -> Result<(), OutOfMemory>
    ensures kept { MayMakeRoom station.old station.new }
    ensures room { OnOk result (MakesRoom station.old station.new) }
{
    station.node.reserve(1)
}

/// Makes room for one entry more at each node.
fn reserve_each(stations: &mut [Station]) -> Result<(), OutOfMemory>
    ensures kept { Each MayMakeRoom stations.old stations.new }
    ensures room { OnOk result (Each MakesRoom stations.old stations.new) }
{
    for place in 0..stations.len() {
        reserve_one(&mut stations[place])?;
    }
    Ok(())
}

/// Lets time go on to that moment at one node, which has room for it.
fn tick_one(alloc: Global, station: &mut Station, moment: u64)
    requires { IsReady moment station.old }
    ensures goes { Settles false station.old station.new }
    ensures ticks { StationTicks moment station.old station.new }
{
    let _ = station.node.journal();
    match station.step(alloc, Event::Tick { now: moment }) {
        Ok(()) => {}
        Err(_cause) => unreachable!(),
    }
}

/// Lets time go on to that moment at each node.
fn tick_each(alloc: Global, stations: &mut [Station], moment: u64)
    requires { AllReady moment stations.old }
    ensures goes { Each (Settles false) stations.old stations.new }
    ensures ticks { Each (StationTicks moment) stations.old stations.new }
{
    for place in 0..stations.len() {
        tick_one(alloc, &mut stations[place], moment);
    }
}

/// Lets time go on to that moment at each node, and looks at all rings. Room is made at all of them before.
pub(crate) fn tick_all(
    alloc: Global,
    stations: &mut [Station],
    moment: u64,
) -> Result<(), OutOfMemory>
    requires meshed { AreMeshed stations.old }
    requires near { IsNear stations.old moment }
    requires take { AllTake moment stations.old }
    ensures goes { Advances false 0 stations.old stations.new }
    ensures ticks { OnOk result (Each (StationTicks moment) stations.old stations.new) }
    ensures err { OnErr result (Each MayMakeRoom stations.old stations.new) }
{
    reserve_each(stations)?;
    tick_each(alloc, stations, moment);
    look_all(stations);
    Ok(())
}
