//! `Feed`: the frames of a stream that comes in pieces.

ghost use Rattle.std.specs.Prelude.{◌≡◌, ◌≢◌, ◌<◌, ◌+◌, [], ◌++◌, None, Some, Ok, Err, length, option_to_list, IfNone, IfSome, IsOkAnd, OnOk};
ghost use Rattle.cv_feed.specs.Streams.{HasNone, IsSilent, Takes, place_after};
ghost use Rattle.cv_frame.specs.State.{fault_at};
ghost use Rattle.cv_frame.specs.Texts.{most_bytes};
ghost use Rattle.cv_frame.specs.Wire.{IsFramed, Stands};

use crate::fault::FrameFault;
use crate::flaw::Flaw;
use crate::format::Wire;
use cv_feed::Refusal;
use cv_protocol::Frame;
use cv_token::OutOfMemory;
use std::alloc::Global;
use std::marker::Model;

/// The frames of a stream that comes in pieces. Contracts see the frames that wait to be taken, what has come of the next
/// one, the fault that stands there, and how many bytes of the stream came before it.
#[derive(Drop)]
pub struct Feed {
    inner: cv_feed::Feed<Wire>,
}

impl Model for Feed {
    ghost use Rattle.std.specs.Coded.{codes};
    ghost use Rattle.cv_protocol.specs.contracts.frame.Frame as frame;
    ghost use Rattle.cv_frame.specs.State.{State};

    ghost Value = { State };

    ghost coded = { Prim.hlevel (codes, frame.the_row.coded) };

    ghost view = { λ f. record { waiting = f.inner.waiting.items; rest = f.inner.rest.items; fault = f.inner.fault; begun = f.inner.begun } };
}

/// The fault of what begins at a byte of the stream.
fn fault_at(begun: u64, flaw: Flaw) -> FrameFault
    ensures { result ≡ fault_at begun flaw }
{
    match flaw {
        Flaw::FrameTooLong => FrameFault::FrameTooLong,
        Flaw::StampTooFar => FrameFault::StampTooFar,
        Flaw::BadFrame => FrameFault::BadFrame { at: begun },
    }
}

impl Feed {
    /// A feed of which no byte has come. It takes no memory.
    pub fn new(alloc: Global) -> Result<Feed, OutOfMemory>
        ensures { IsOkAnd result (λ f. (f.waiting ≡ []) × (f.rest ≡ []) × (f.fault ≡ None) × (f.begun ≡ 0)) }
    {
        Ok(Feed {
            inner: cv_feed::Feed::new(alloc),
        })
    }

    /// Takes the next piece of the stream, and reads each frame that is whole now. A fault is told once the frames before
    /// it were read, and from then on again; where memory is wanting, the piece is not taken.
    pub fn push(&mut self, alloc: Global, piece: &[u8]) -> Result<(), FrameFault>
        // The frames of the stream so far are read, and no fault stands behind them; what is left is bounded.
        ensures ok { OnOk result ((self.old.fault ≡ None) × (self.new.fault ≡ None)
            × IsSilent IsFramed Stands self.new.rest × (length self.new.rest < 4 + most_bytes)) }
        ensures told { (f : FrameFault) → self.old.fault ≡ None → result ≡ Err f → f ≢ FrameFault.OutOfMemory
            → (flaw : Flaw) × (self.new.fault ≡ Some flaw) × Stands flaw self.new.rest × (f ≡ fault_at self.new.begun flaw) }
        ensures frames { self.old.fault ≡ None → result ≢ Err FrameFault.OutOfMemory
            → Takes IsFramed self.old.waiting self.new.waiting (self.old.rest ++ piece.now) self.new.rest }
        ensures begun { self.old.fault ≡ None → result ≢ Err FrameFault.OutOfMemory
            → self.new.begun ≡ place_after self.old.begun (self.old.rest ++ piece.now) self.new.rest }

        // A fault that was told is told again; then, and where memory is wanting, nothing changes.
        ensures again { IfSome self.old.fault (λ flaw. result ≡ Err (fault_at self.old.begun flaw)) }
        ensures unchanged { (self.old.fault ≡ None → result ≡ Err FrameFault.OutOfMemory) → self.new ≡ self.old }
    {
        match self.inner.push(alloc, piece) {
            Ok(()) => Ok(()),
            Err(Refusal::Fault(flaw)) => Err(fault_at(self.inner.begun, flaw)),
            Err(Refusal::OutOfMemory) => Err(FrameFault::OutOfMemory),
        }
    }

    /// The next frame that was read and not taken.
    pub fn take(&mut self) -> Option<Frame>
        ensures frames { self.old.waiting ≡ option_to_list result ++ self.new.waiting }
        ensures none { IfNone result ((self.old.waiting ≡ []) × HasNone IsFramed self.old.rest) }
        ensures rest { self.new.rest ≡ self.old.rest }
        ensures fault { self.new.fault ≡ self.old.fault }
        ensures begun { self.new.begun ≡ self.old.begun }
    {
        self.inner.take()
    }
}
