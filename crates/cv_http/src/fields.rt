//! What the fields of a head say of the body and of the connection.

ghost use Rattle.std.specs.Prelude.{◌≡◌, ◌≤◌, List, length, map, All, codes, MatchResult, option_map, option_to_list, IfOk, IfSome};
ghost use Rattle.std.specs.List.{list_any};
ghost use Rattle.httparse.specs.Spans.{IsWithin, IsHeaderWithin, header_bytes, span_bytes};
ghost use Rattle.http1.specs.Fields.{values_named};
ghost use Rattle.cv_http.specs.Fields.{is_coding, body_of, closes};
ghost use Rattle.cv_http.specs.declared.fault.HttpFault.TheVariants.{BadLength};

use crate::fault::HttpFault;
use crate::length::number_of;
use http1::fields::KnownFields;
use http1::text::eq_ignore_case;
use httparse::spans::{HeaderSpan, Span};

/// Whether a field says that the body is coded.
fn is_coding(name: &[u8], value: &[u8]) -> bool
    ensures { result ≡ is_coding (name.now, value.now) }
{
    eq_ignore_case(name, b"transfer-encoding")
        || (eq_ignore_case(name, b"content-encoding") && !eq_ignore_case(value, b"identity"))
}

/// Whether some field says that the body is coded.
fn has_coding(window: &[u8], fields: &[HeaderSpan]) -> bool
    requires { All (IsHeaderWithin (length window.now)) fields.now }
    ensures { result ≡ list_any is_coding (map (header_bytes window.now) fields.now) }
{
    for field in fields {
        if is_coding(field.name.of(window), field.value.of(window)) {
            return true;
        }
    }
    false
}

/// The value of the only length field, if there is one.
fn length_value(window: &[u8], fields: &[HeaderSpan]) -> Result<Option<Span>, HttpFault>
    requires { All (IsHeaderWithin (length window.now)) fields.now }
    ensures value { MatchResult result
        (λ v. values_named (codes "content-length") (map (header_bytes window.now) fields.now) ≡ option_to_list (option_map (span_bytes window.now) v))
        (λ e. (e ≡ BadLength) × (2 ≤ length (values_named (codes "content-length") (map (header_bytes window.now) fields.now)))) }
    ensures within { IfOk result (λ v. IfSome v (IsWithin (length window.now))) }
{
    let mut value = None;
    for field in fields {
        if eq_ignore_case(field.name.of(window), b"content-length") {
            if value.is_some() {
                return Err(HttpFault::BadLength);
            }
            value = Some(field.value);
        }
    }
    Ok(value)
}

/// The length of the body, or the first fault of the fields.
#[tactic(auto, using(crate::proofs::FieldLemmas::second_length), unfolding(crate::specs::Fields::body_of, crate::specs::Fields::length_of))]
pub(crate) fn body_length(window: &[u8], fields: &[HeaderSpan]) -> Result<usize, HttpFault>
    requires { All (IsHeaderWithin (length window.now)) fields.now }
    ensures { result ≡ body_of (map (header_bytes window.now) fields.now) }
{
    if has_coding(window, fields) {
        return Err(HttpFault::Coding);
    }
    match length_value(window, fields)? {
        None => Ok(0),
        Some(value) => number_of(value.of(window)),
    }
}

/// Whether the connection is to be closed behind the response.
#[tactic(auto, unfolding(crate::specs::Fields::closes, http1::specs::Fields::known_fields))]
pub(crate) fn closes(version: u8, window: &[u8], fields: &[HeaderSpan]) -> bool
    requires { All (IsHeaderWithin (length window.now)) fields.now }
    ensures { result ≡ closes version (map (header_bytes window.now) fields.now) }
{
    version == 0 || KnownFields::from_spans(window, fields).close
}
