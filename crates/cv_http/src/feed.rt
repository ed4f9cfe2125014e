//! `Feed`: the requests of a stream that comes in pieces.

ghost use Rattle.std.specs.Prelude.{◌≡◌, ◌≢◌, ◌<◌, ◌+◌, ◌↔◌, [], ◌++◌, None, Some, Ok, Err, length, option_to_list, IfNone, IfSome, IsOkAnd, OnOk, IsTrue};
ghost use Rattle.cv_feed.specs.Streams.{HasNone, IsSilent, Takes};
ghost use Rattle.cv_http.specs.Requests.{SpellsRequest, Stands, Due};
ghost use Rattle.cv_http.specs.declared.window.TheConstants.{MOST_HEAD};
ghost use Rattle.cv_http.specs.declared.length.TheConstants.{MOST_BODY};

use crate::fault::HttpFault;
use crate::format::Requests;
use crate::request::Request;
use cv_feed::Refusal;
use cv_token::OutOfMemory;
use std::alloc::Global;
use std::marker::Model;

/// The requests of a stream that comes in pieces. Contracts see the requests that wait to be taken, what has come of the
/// next one, and the fault that stands there.
#[derive(Drop)]
pub struct Feed {
    inner: cv_feed::Feed<Requests>,
}

impl Model for Feed {
    ghost use Rattle.cv_http.specs.State.{State};

    ghost Value = { State };

    ghost view = { λ f. record { waiting = f.inner.waiting.items; rest = f.inner.rest.items; fault = f.inner.fault } };
}

impl Feed {
    /// A feed of which no byte has come. It takes no memory.
    pub fn new(alloc: Global) -> Result<Feed, OutOfMemory>
        ensures { IsOkAnd result (λ f. (f.waiting ≡ []) × (f.rest ≡ []) × (f.fault ≡ None)) }
    {
        Ok(Feed {
            inner: cv_feed::Feed::new(alloc),
        })
    }

    /// Takes the next piece of the stream, and reads each request that is whole now. A fault is told once the requests
    /// before it were read, and from then on again; where memory is wanting, the piece is not taken.
    pub fn push(&mut self, alloc: Global, piece: &[u8]) -> Result<(), HttpFault>
        // The requests of the stream so far are read, and no fault stands behind them; what is left is bounded.
        ensures ok { OnOk result ((self.old.fault ≡ None) × (self.new.fault ≡ None)
            × IsSilent SpellsRequest Due self.new.rest × (length self.new.rest < MOST_HEAD + MOST_BODY)) }
        ensures told { (f : HttpFault) → self.old.fault ≡ None → result ≡ Err f → f ≢ HttpFault.OutOfMemory
            → (self.new.fault ≡ Some f) × Stands f self.new.rest }
        ensures requests { self.old.fault ≡ None → result ≢ Err HttpFault.OutOfMemory
            → Takes SpellsRequest self.old.waiting self.new.waiting (self.old.rest ++ piece.now) self.new.rest }

        // A fault that was told is told again; then, and where memory is wanting, nothing changes.
        ensures again { IfSome self.old.fault (λ f. result ≡ Err f) }
        ensures unchanged { (self.old.fault ≡ None → result ≡ Err HttpFault.OutOfMemory) → self.new ≡ self.old }
    {
        match self.inner.push(alloc, piece) {
            Ok(()) => Ok(()),
            Err(Refusal::Fault(fault)) => Err(fault),
            Err(Refusal::OutOfMemory) => Err(HttpFault::OutOfMemory),
        }
    }

    /// The next request that was read and not taken.
    pub fn take(&mut self) -> Option<Request>
        ensures requests { self.old.waiting ≡ option_to_list result ++ self.new.waiting }
        ensures none { IfNone result ((self.old.waiting ≡ []) × HasNone SpellsRequest self.old.rest) }
        ensures rest { self.new.rest ≡ self.old.rest }
        ensures fault { self.new.fault ≡ self.old.fault }
    {
        self.inner.take()
    }

    /// Whether each byte that was pushed belongs to a request that was taken.
    pub fn empty(&self) -> bool
        ensures { IsTrue result ↔ ((self.now.waiting ≡ []) × (self.now.rest ≡ [])) }
    {
        self.inner.waiting.is_empty() && self.inner.rest.is_empty()
    }
}
