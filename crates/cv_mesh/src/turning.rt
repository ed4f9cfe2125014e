//! The turns of the links end.

ghost use Rattle.cv_mesh.specs.Moving.{Each, PeerTurns, Turns};

use cv_station::{Peer, Station};

/// Ends the turn of each link.
pub fn end_turns(stations: &mut [Station])
    ensures { Each Turns stations.old stations.new }
{
    for place in 0..stations.len() {
        end_turn(&mut stations[place]);
    }
}

/// Ends the turn of each link to a station.
fn end_turn(station: &mut Station)
    ensures { Turns station.old station.new }
{
    end_all(&mut station.peers);
}

/// Ends the turns of these links.
fn end_all(peers: &mut [Peer])
    ensures { Each PeerTurns peers.old peers.new }
{
    for place in 0..peers.len() {
        end_one(&mut peers[place]);
    }
}

/// Ends the turn of the link from a peer.
fn end_one(peer: &mut Peer)
    ensures { PeerTurns peer.old peer.new }
{
    peer.rx.turn();
}
