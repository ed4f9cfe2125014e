//! The front of bytes: a request's head, a fault, or too few bytes to tell.

ghost use Rattle.std.specs.Prelude.{◌≡◌, ◌<◌, length, if◌then◌else◌};
ghost use Rattle.cv_http.specs.Fronts.{IsHeadOf, ForHead, ForFault, ForMore};
ghost use Rattle.cv_http.specs.Requests.{SpellsRequest, Stands, Due};
ghost use Rattle.cv_http.specs.declared.window.TheConstants.{MOST_HEAD};
ghost use Rattle.cv_feed.specs.Streams.{IsSilent};

use crate::fault::HttpFault;
use crate::fields::{body_length, closes};
use crate::window::{MOST_FIELDS, window_of};
use httparse::spans::{EMPTY_HEADER_SPAN, parse_request};
use httparse::{Error, Status};

/// The parts of a head.
#[derive(Clone, Copy)]
pub(crate) struct Head<'a> {
    pub(crate) method: &'a [u8],
    pub(crate) path: &'a [u8],
    /// The bytes of the head, with the empty lines before it.
    pub(crate) len: usize,
    /// The bytes of the body.
    pub(crate) body: usize,
    pub(crate) close: bool,
}

/// What stands at the front of bytes.
#[derive(Clone, Copy)]
pub(crate) enum Front<'a> {
    Head(Head<'a>),
    Fault(HttpFault),
    /// More bytes are needed to tell.
    More,
}

/// What stands where the window has no head so far.
fn no_head(full: bool) -> Front<'static>
    ensures { result ≡ (if full then Front.Fault HttpFault.HeadTooLong else Front.More) }
{
    if full {
        Front::Fault(HttpFault::HeadTooLong)
    } else {
        Front::More
    }
}

/// What stands at the front of the bytes.
pub(crate) fn front_of(bytes: &[u8]) -> Front<'_>
    ensures head { ForHead result (IsHeadOf bytes.now) }
    ensures fault { ForFault result (λ f. Stands f bytes.now) }
    ensures more { ForMore result (IsSilent SpellsRequest Due bytes.now × (length bytes.now < MOST_HEAD)) }
{
    let window = window_of(bytes);
    let seen = &bytes[..window.len];
    let mut spans = [EMPTY_HEADER_SPAN; MOST_FIELDS];
    match parse_request(seen, &mut spans) {
        Ok(Status::Complete(head)) => {
            let fields = &spans[..head.headers];
            match body_length(seen, fields) {
                Ok(body) => Front::Head(Head {
                    method: head.method.of(seen),
                    path: head.path.of(seen),
                    len: head.len,
                    body,
                    close: closes(head.version, seen, fields),
                }),
                Err(fault) => Front::Fault(fault),
            }
        }
        Ok(Status::Partial) => no_head(window.full),
        Err(Error::TooManyHeaders) => no_head(window.full),
        Err(_) => Front::Fault(HttpFault::BadHead),
    }
}
