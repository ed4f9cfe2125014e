//! `Feed`: the messages of a stream that comes in pieces.

ghost use Rattle.std.specs.Prelude.{◌≡◌, ℕ, ◌<◌, ◌≤◌, List, [], ◌++◌, None, Some, Ok, Err, length, option_to_list, IfNone, IfSome, OnOk, ◌≢◌};
ghost use Rattle.cv_feed.specs.Streams.{HasNone, IsSilent, Waits, Takes, place_after};

use crate::advance::advance;
use crate::format::{Format, Refusal};
use std::alloc::Global;
use std::collections::VecDeque;

/// The messages of a stream that comes in pieces. A fault that was told once is told again.
#[derive(Drop)]
pub struct Feed<T: Format> {
    /// What has come of the next message.
    pub rest: Vec<u8>,
    /// Below so many bytes of `rest` nothing more is known of it.
    pub need: usize,
    /// The messages that were read and not taken.
    pub waiting: VecDeque<T::Message>,
    /// The fault that stands at the front of `rest`.
    pub fault: Option<T::Fault>,
    /// How many bytes of the stream came before `rest`, counted up to 2^64 - 1.
    pub begun: u64,
    ghost bounded: { need ≤ T.most },
    ghost none: { HasNone T.Spells rest.items },
    ghost waits: { fault ≡ None → Waits T.Spells T.Due need rest.items },
    ghost short: { fault ≡ None → length rest.items ≤ T.most },
}

impl<T: Format> Feed<T> {
    /// A feed of which no byte has come.
    pub fn new(alloc: Global) -> Feed<T>
        ensures rest { result.rest.items ≡ [] }
        ensures waiting { result.waiting.items ≡ [] }
        ensures fault { result.fault ≡ None }
        ensures begun { result.begun ≡ 0 }
    {
        Feed {
            rest: Vec::new(alloc),
            need: 0,
            waiting: VecDeque::new(alloc),
            fault: None,
            begun: 0,
        }
    }

    /// Takes the next piece of the stream, and reads each message that is whole now. A fault is told once the
    /// messages before it were read; where memory is wanting, the piece is not taken.
    pub fn push(&mut self, alloc: Global, piece: &[u8]) -> Result<(), Refusal<T::Fault>>
        // The messages of the stream so far are read, and no fault stands behind them; what is left is short.
        ensures ok { OnOk result ((self.old.fault ≡ None) × (self.new.fault ≡ None)
            × IsSilent T.Spells T.Due self.new.rest.items × (length self.new.rest.items < T.most)) }
        ensures told { (f : T.Fault) → self.old.fault ≡ None → result ≡ Err (Refusal.Fault f)
            → (self.new.fault ≡ Some f) × T.Stands f self.new.rest.items }
        ensures messages { self.old.fault ≡ None → result ≢ Err Refusal.OutOfMemory
            → Takes T.Spells self.old.waiting.items self.new.waiting.items (self.old.rest.items ++ piece.now) self.new.rest.items }
        ensures begun { self.old.fault ≡ None → result ≢ Err Refusal.OutOfMemory
            → self.new.begun ≡ place_after self.old.begun (self.old.rest.items ++ piece.now) self.new.rest.items }

        // A fault that was told is told again; then, and where memory is wanting, nothing changes.
        ensures again { IfSome self.old.fault (λ f. result ≡ Err (Refusal.Fault f)) }
        ensures unchanged { (self.old.fault ≡ None → result ≡ Err Refusal.OutOfMemory)
            → (self.new.waiting.items ≡ self.old.waiting.items) × (self.new.rest.items ≡ self.old.rest.items)
            × (self.new.fault ≡ self.old.fault) × (self.new.begun ≡ self.old.begun) }
    {
        if let Some(fault) = self.fault {
            return Err(Refusal::Fault(fault));
        }
        let begun = self.begun;
        let held = self.rest.len();
        self.rest.extend_from_slice(piece)?;
        if self.rest.len() < self.need {
            return Ok(());
        }
        let count = self.waiting.len();
        match advance::<T>(alloc, self.rest.as_slice(), &mut self.waiting) {
            Ok(reach) => {
                drop(self.rest.drain(..reach.at));
                self.begun = begun.saturating_add(reach.at as u64);
                self.need = reach.need;
                self.fault = reach.fault;
                match reach.fault {
                    Some(fault) => Err(Refusal::Fault(fault)),
                    None => Ok(()),
                }
            }
            Err(_) => {
                self.rest.truncate(held);
                self.waiting.truncate(count);
                Err(Refusal::OutOfMemory)
            }
        }
    }

    /// The next message that was read and not taken.
    pub fn take(&mut self) -> Option<T::Message>
        ensures items { self.old.waiting.items ≡ option_to_list result ++ self.new.waiting.items }
        ensures none { IfNone result ((self.old.waiting.items ≡ []) × HasNone T.Spells self.old.rest.items) }
        ensures rest { self.new.rest.items ≡ self.old.rest.items }
        ensures fault { self.new.fault ≡ self.old.fault }
        ensures begun { self.new.begun ≡ self.old.begun }
    {
        self.waiting.pop_front()
    }
}
