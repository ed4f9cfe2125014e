//! Ten requests behind each other, cut in many ways.

use super::{Reading, fed};
use cv_http::{Feed, HttpFault, Request};
use std::test::Fail;

const STREAM: &str = "GET /actors HTTP/1.1\r\nHost: x\r\n\r\n\
POST /deploy HTTP/1.1\r\nHost: x\r\nContent-Length: 27\r\n\r\n{\"name\":\"a\",\"script\":\"x:y\"}\
\r\n\nGET /id HTTP/1.1\nHost: x\n\n\
DELETE /application/7 HTTP/1.0\r\n\r\n\
POST /actor/5/migrate HTTP/1.1\r\ncontent-length: 4\r\nConnection: a, Close\r\n\r\n\r\n\r\n\
GET /nope HTTP/1.1\r\nHost: x\r\n\r\n\
POST /empty HTTP/1.1\r\nContent-Length: 0\r\n\r\n\
M-SEARCH * HTTP/1.1\r\nX: close\r\n\r\n\
PUT /\u{e9} HTTP/1.1\r\nContent-Encoding: identity\r\nContent-Length: 1\r\n\r\n!\
GET /last?a=b HTTP/1.1\r\n\r\n";

/// Method, path, body, and whether the connection is to be closed.
const REQUESTS: [(&str, &str, &str, bool); 10] = [
    ("GET", "/actors", "", false),
    (
        "POST",
        "/deploy",
        "{\"name\":\"a\",\"script\":\"x:y\"}",
        false,
    ),
    ("GET", "/id", "", false),
    ("DELETE", "/application/7", "", true),
    ("POST", "/actor/5/migrate", "\r\n\r\n", true),
    ("GET", "/nope", "", false),
    ("POST", "/empty", "", false),
    ("M-SEARCH", "*", "", false),
    ("PUT", "/\u{e9}", "!", false),
    ("GET", "/last?a=b", "", false),
];

fn is_request(request: &Request, row: (&str, &str, &str, bool)) -> bool {
    let (method, path, body, close) = row;
    request.method.as_str() == method
        && request.path.as_str() == path
        && request.body.as_slice() == body.as_bytes()
        && request.close == close
}

fn are_all(read: &Reading) -> bool {
    let mut same = read.requests.len() == REQUESTS.len() && read.empty && read.fault.is_none();
    for (request, row) in read.requests.iter().zip(REQUESTS.iter()) {
        same &= is_request(request, *row);
    }
    same
}

#[test]
fn ten_requests_come_in_any_pieces(rt: HostRuntime) -> Result<(), Fail> {
    let alloc = rt.alloc();
    let stream = STREAM.as_bytes();
    assert!(rt; are_all(&fed(alloc, stream, 1, 1)?));
    for seed in 0..1000 {
        assert!(rt; are_all(&fed(alloc, stream, 90, seed)?), "{seed}");
    }
    let mut feed = Feed::new(alloc)?;
    assert!(rt; feed.push(alloc, stream).is_ok());
    assert!(rt; !feed.empty());
    for _ in 0..10 {
        assert!(rt; feed.take().is_some());
    }
    assert!(rt; feed.take().is_none());
    assert!(rt; feed.empty());
    Ok(())
}

#[test]
fn a_feed_is_empty_between_requests_alone(rt: HostRuntime) -> Result<(), Fail> {
    let alloc = rt.alloc();
    let mut feed = Feed::new(alloc)?;
    assert!(rt; feed.empty());
    assert!(rt; feed.push(alloc, b"").is_ok());
    assert!(rt; feed.empty());
    assert!(rt;
        feed.push(alloc, b"POST / HTTP/1.1\r\nContent-Length: 2\r\n\r\na")
            .is_ok()
    );
    assert!(rt; feed.take().is_none());
    assert!(rt; !feed.empty());
    assert!(rt; feed.push(alloc, b"b").is_ok());
    assert!(rt; !feed.empty());
    assert!(rt; feed.take().is_some());
    assert!(rt; feed.empty());
    // What stands before a fault is taken, and the fault stays.
    assert!(rt; feed.push(alloc, b"GET / HTTP/1.1\r\n\r\n\0").err() == Some(HttpFault::BadHead));
    assert!(rt; feed.take().is_some());
    assert!(rt; feed.push(alloc, b"GET / HTTP/1.1\r\n\r\n").err() == Some(HttpFault::BadHead));
    assert!(rt; feed.take().is_none());
    assert!(rt; !feed.empty());
    Ok(())
}
