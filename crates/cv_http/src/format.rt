//! Requests as a format of streams.

ghost use Rattle.std.specs.Prelude.{◌≡◌, ◌+◌, IfOk, take, length};
ghost use Rattle.httparse.specs.Grammar.{IsToken};
ghost use Rattle.std.specs.Prelude.{IsUtf8};

use crate::fault::HttpFault;
use crate::front::{Front, Head, front_of};
use crate::request::{Body, Request};
use cv_feed::{Format, Judged};
use cv_token::Text;
use http::Method;
use http::method::MethodError;
use std::alloc::{AllocError, Global};

/// The requests of a stream.
pub struct Requests;

/// The request of this head and this body.
fn request(alloc: Global, head: Head<'_>, body: &[u8]) -> Result<Request, AllocError>
    requires method { IsToken head.method.now }
    requires path { IsUtf8 head.path.now }
    ensures method { IfOk result (λ r. r.method ≡ head.entry.method.now) }
    ensures path { IfOk result (λ r. r.path ≡ head.entry.path.now) }
    ensures body { IfOk result (λ r. r.body ≡ body.now) }
    ensures close { IfOk result (λ r. r.close ≡ head.entry.close) }
{
    let method = match Method::from_bytes(alloc, head.method) {
        Ok(method) => method,
        Err(MethodError::OutOfMemory) => return Err(AllocError),
        Err(MethodError::Invalid) => unreachable!(),
    };
    let path = Text::from_string(String::from_utf8_lossy(alloc, head.path)?);
    let body = Body::from_slice(alloc, body)?;
    Ok(Request {
        method,
        path,
        body,
        close: head.close,
    })
}

impl Format for Requests {
    type Message = Request;

    type Fault = HttpFault;

    ghost use Rattle.std.specs.Prelude.{◌+◌};
    ghost use Rattle.cv_http.specs.Requests as requests;
    ghost use Rattle.cv_http.specs.declared.window.TheConstants.{MOST_HEAD};
    ghost use Rattle.cv_http.specs.declared.length.TheConstants.{MOST_BODY};
    ghost use Rattle.cv_http.specs.RequestLaws as laws;

    ghost Spells = { requests.SpellsRequest };

    ghost Stands = { requests.Stands };

    ghost Due = { requests.Due };

    ghost most = { MOST_HEAD + MOST_BODY };

    fn judge(alloc: Global, bytes: &[u8]) -> Result<Judged<Request, HttpFault>, AllocError> {
        match front_of(bytes) {
            Front::Head(head) => {
                let whole = head.len + head.body;
                if bytes.len() < whole {
                    return Ok(Judged::Need(whole));
                }
                let request = request(alloc, head, &bytes[head.len..whole])?;
                Ok(Judged::Message(request, whole))
            }
            Front::Fault(fault) => Ok(Judged::Fault(fault)),
            Front::More => Ok(Judged::Need(bytes.len() + 1)),
        }
    }

    ghost one = { laws.one };

    ghost some = { laws.some };

    ghost stuck = { laws.stuck };
}
