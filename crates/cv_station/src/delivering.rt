//! What comes through the rings is delivered.

ghost use Rattle.std.specs.Prelude.{◌≡◌, ◌<◌, ◌+◌, ◌≤◌, length, is_err};
ghost use Rattle.cv_station.specs.Going.{Goes, Takes, TakesOne};

use crate::station::{Peer, Station};
use cv_link::Taken;
use cv_token::OutOfMemory;
use std::alloc::Global;

/// How many frames are taken from a ring in a turn at most.
const MOST_FRAMES: u32 = 64;

/// How many entries a frame makes at most.
const MOST_ENTRIES: usize = 2;

/// Takes a frame from the peer's ring.
fn take_from(peer: &mut Peer) -> Option<Taken>
    ensures { TakesOne result peer.old peer.new }
{
    peer.rx.take()
}

/// Takes a frame from the ring of the peer at that place.
fn take_at(peers: &mut [Peer], place: usize) -> Option<Taken>
    requires { place < length peers.old }
    ensures { Takes place result peers.old peers.new }
{
    take_from(&mut peers[place])
}

impl Station {
    /// Takes a frame from the ring of the peer at that place.
    fn pop(&mut self, place: usize) -> Option<Taken>
        requires { place < length self.old.peers.items }
        ensures takes { Takes place result self.old.peers.items self.new.peers.items }
        ensures node { self.new.node ≡ self.old.node }
        ensures fired { self.new.fired ≡ self.old.fired }
        ensures quota { self.new.quota ≡ self.old.quota }
    {
        take_at(&mut self.peers, place)
    }

    /// Takes a frame from the ring of the peer at that place, where there is one, and does its steps; tells whether.
    fn take(&mut self, alloc: Global, place: usize, most: usize) -> Result<bool, OutOfMemory>
        requires place { place < length self.old.peers.items }
        requires room { length self.old.node.entries + 2 ≤ most }
        ensures goes { Goes most self.old (is_err result) self.new }
        ensures fired { self.new.fired ≡ self.old.fired }
    {
        let Some(told) = self.pop(place) else {
            return Ok(false);
        };
        self.receive(alloc, told)?;
        Ok(true)
    }

    /// Takes what the peer at that place has pushed, as long as there is room for the entries.
    #[tactic(auto, using(crate::proofs::Goes::goes_none, crate::proofs::Goes::goes_then))]
    fn take_all(&mut self, alloc: Global, place: usize, most: usize) -> Result<(), OutOfMemory>
        requires { place < length self.old.peers.items }
        ensures goes { Goes most self.old (is_err result) self.new }
        ensures fired { self.new.fired ≡ self.old.fired }
    {
        for _frame in 0..MOST_FRAMES {
            if most - self.entries().min(most) < MOST_ENTRIES || !self.take(alloc, place, most)? {
                return Ok(());
            }
        }
        Ok(())
    }

    /// Delivers what all peers have pushed.
    #[tactic(auto, using(crate::proofs::Goes::goes_none, crate::proofs::Goes::goes_then))]
    pub fn deliver_all(&mut self, alloc: Global, most: usize) -> Result<(), OutOfMemory>
        ensures goes { Goes most self.old (is_err result) self.new }
        ensures fired { self.new.fired ≡ self.old.fired }
    {
        for place in 0..self.peers.len() {
            self.take_all(alloc, place, most)?;
        }
        Ok(())
    }
}
