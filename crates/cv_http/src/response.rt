//! Responses as bytes.

ghost use Rattle.std.specs.Prelude.{◌≡◌, IfOk, IsTrue, string_bytes};
ghost use Rattle.cv_http.specs.Responses.{is_answered, phrase, response_head, response};

use cv_token::OutOfMemory;
use http::StatusCode;
use std::alloc::Global;

/// The canonical phrase of the status.
fn phrase_of(status: u16) -> &'static str
    requires { IsTrue (is_answered status) }
    ensures { result.now ≡ phrase status }
{
    StatusCode::from_u16(status)
        .unwrap()
        .canonical_reason()
        .unwrap()
}

/// The lines of a response before its body.
fn head_of(alloc: Global, status: u16, phrase: &str, len: usize) -> Result<String, OutOfMemory>
    ensures { IfOk result (λ text. string_bytes text ≡ response_head status phrase.now len) }
{
    format!(in alloc;
        "HTTP/1.1 {status} {phrase}\r\nContent-Type: application/json\r\nContent-Length: {len}\r\n\r\n"
    )
}

/// The bytes of the response with this status and this JSON body.
pub fn respond(alloc: Global, status: u16, body: &[u8]) -> Result<Vec<u8>, OutOfMemory>
    requires { IsTrue (is_answered status) }
    ensures { IfOk result (λ bytes. bytes.items ≡ response status body.now) }
{
    let head = head_of(alloc, status, phrase_of(status), body.len())?;
    let mut bytes = head.into_bytes();
    bytes.extend_from_slice(body)?;
    Ok(bytes)
}
