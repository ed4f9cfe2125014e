//! Frames that a step sent go into the rings.

ghost use Rattle.std.specs.Prelude.{◌≡◌, ◌<◌, [], ◌∷◌, length, slice_get, IfSome, IsSomeAnd};
ghost use Rattle.cv_state.specs.Steps.{frames_of};
ghost use Rattle.cv_station.specs.Acts.{PeerWorks};
ghost use Rattle.cv_station.specs.Going.{Pushes};

use crate::station::Peer;
use cv_protocol::{Frame, Frames, Sent};

/// The place of the peer of that number.
fn place_of(peers: &[Peer], no: u16) -> Option<usize>
    ensures within { IfSome result (λ place. place < length peers.now) }
    ensures number { IfSome result (λ place. IsSomeAnd (slice_get peers.now place) (λ p. p.no ≡ no)) }
{
    for (place, peer) in peers.iter().enumerate() {
        if peer.no == no {
            return Some(place);
        }
    }
    None
}

/// Pushes a frame that is addressed to the peer; it is dropped where the ring takes none.
#[tactic(auto, using(crate::proofs::Pushes::works_told))]
fn push_to(peer: &mut Peer, frame: Frame)
    requires { frame.to ≡ peer.old.no }
    ensures { PeerWorks (frame ∷ []) [] [] peer.old peer.new }
{
    let _ = peer.tx.push(frame);
}

/// Pushes the frame into the ring to the peer that it is addressed to. It is dropped where that ring takes none, and where there is
/// no other node of that number than `own`.
fn push(peers: &mut [Peer], own: u16, frame: Frame)
    ensures { Pushes (frame ∷ []) peers.old peers.new }
{
    if frame.to == own {
        return;
    }
    let Some(place) = place_of(peers, frame.to) else {
        return;
    };
    push_to(&mut peers[place], frame);
}

/// Pushes these frames.
fn push_all(peers: &mut [Peer], own: u16, frames: Frames)
    ensures { Pushes frames peers.old peers.new }
{
    let mut frames = frames;
    while let Some(frame) = frames.pop() {
        push(peers, own, frame);
    }
}

/// Pushes all frames that a step of node `own` sent.
pub(crate) fn push_sent(peers: &mut [Peer], own: u16, sent: Sent)
    ensures { Pushes (frames_of sent) peers.old peers.new }
{
    match sent {
        Sent::Nothing => {}
        Sent::One(frame) => push(peers, own, frame),
        Sent::All(frames) => push_all(peers, own, frames),
    }
}
