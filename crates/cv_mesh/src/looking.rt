//! The rings, while nobody works: they are looked at, and the turns of their links end.

ghost use Rattle.std.specs.Prelude.{◌≡◌, ◌<◌, ◌++◌, ℕ, length};
ghost use Rattle.cv_link.specs.Ring.{AreEnds, known, pushed, taken};
ghost use Rattle.cv_mesh.specs.Moving.{AllLooked, AreMeshed, Each, EndsMeet, IsLooked, Looks, LooksAtEnds, LooksAtItself, LooksBetween, PeerLooks};

use cv_station::{Peer, Station};

/// Looks at each ring: all frames in it, and all its room, are known from then on.
pub fn look_all(stations: &mut [Station])
    requires { AreMeshed stations.old }
    ensures looks { Each Looks stations.old stations.new }
    ensures looked { AllLooked stations.new }
{
    for from in 0..stations.len() {
        look_from(stations, from);
    }
}

/// Looks at the rings that lead from one station to the others.
fn look_from(stations: &mut [Station], from: usize)
    requires meshed { AreMeshed stations.old }
    requires there { from < length stations.old }
    ensures looks { Each Looks stations.old stations.new }
    ensures looked { (j : ℕ) → IsLooked stations.new from j }
    ensures kept { (i j : ℕ) → IsLooked stations.old i j → IsLooked stations.new i j }
{
    for to in 0..stations.len() {
        look_at(stations, from, to);
    }
}

/// Looks at the ring from one station to another.
fn look_at(stations: &mut [Station], from: usize, to: usize)
    requires meshed { AreMeshed stations.old }
    requires places { (from < length stations.old) × (to < length stations.old) }
    ensures looks { Each Looks stations.old stations.new }
    ensures looked { IsLooked stations.new from to }
    ensures kept { (i j : ℕ) → IsLooked stations.old i j → IsLooked stations.new i j }
{
    if from < to {
        let (left, right) = stations.split_at_mut(to);
        look(&mut left[from], &mut right[0], from, to);
    } else if to < from {
        let (left, right) = stations.split_at_mut(from);
        look(&mut right[0], &mut left[to], from, to);
    } else {
        look_itself(&mut stations[from], from);
    }
}

/// Looks at the ring from one station, at place `from`, to another one at place `to`, where both have each other as peers.
fn look(sender: &mut Station, receiver: &mut Station, from: usize, to: usize)
    requires { EndsMeet sender.old receiver.old from to }
    ensures { LooksBetween sender.old receiver.old from to sender.new receiver.new }
{
    look_ends(&mut sender.peers[to], &mut receiver.peers[from]);
}

/// Looks at the two ends of a ring.
fn look_ends(to: &mut Peer, from: &mut Peer)
    requires { AreEnds to.old.tx from.old.rx }
    ensures looks { LooksAtEnds to.old from.old to.new from.new }
{
    from.rx.look(&mut to.tx);
}

/// Looks at the ring from a station to itself.
fn look_itself(station: &mut Station, place: usize)
    requires { EndsMeet station.old station.old place place }
    ensures { LooksAtItself station.old place station.new }
{
    look_own(&mut station.peers[place]);
}

/// Looks at both ends of a ring, which one peer has.
fn look_own(peer: &mut Peer)
    requires { AreEnds peer.old.tx peer.old.rx }
    ensures looks { PeerLooks peer.old peer.new }
    ensures looked { taken peer.new.rx ++ known peer.new.rx ≡ pushed peer.new.tx }
{
    peer.rx.look(&mut peer.tx);
}
