//! Which bytes are requests, and which have a fault.

use super::{Reading, fed};
use cv_http::HttpFault;
use std::test::Fail;

/// A stream, how many requests it has, the fault behind them, and whether the last request closes the connection.
struct Row(&'static str, usize, Option<HttpFault>, bool);

const ROWS: [Row; 45] = [
    Row("", 0, None, false),
    Row("GET / HTTP/1.1\r\n\r\n", 1, None, false),
    Row("GET / HTTP/1.1\r\n\r", 0, None, false),
    Row(
        "GET / HTTP/1.1\r\n\r\nGET /a HTTP/1.1\r\n\r\nG",
        2,
        None,
        false,
    ),
    Row("\r\n\n\r\nGET / HTTP/1.1\r\n\r\n", 1, None, false),
    // A line may end in a line feed alone.
    Row("GET / HTTP/1.1\nHost: x\n\n", 1, None, false),
    Row("M-SEARCH * HTTP/1.1\r\n\r\n", 1, None, false),
    // Bodies.
    Row(
        "POST / HTTP/1.1\r\nContent-Length: 2\r\n\r\nabGET / HTTP/1.1\r\n\r\n",
        2,
        None,
        false,
    ),
    Row(
        "POST / HTTP/1.1\r\nContent-Length: 2\r\n\r\na",
        0,
        None,
        false,
    ),
    Row(
        "POST / HTTP/1.1\r\nCONTENT-length:\t 00000000000000000002 \r\n\r\nab",
        1,
        None,
        false,
    ),
    Row(
        "POST / HTTP/1.1\r\nContent-Length: 0\r\n\r\n",
        1,
        None,
        false,
    ),
    // The connection.
    Row("GET / HTTP/1.0\r\n\r\n", 1, None, true),
    Row(
        "GET / HTTP/1.0\r\nConnection: keep-alive\r\n\r\n",
        1,
        None,
        true,
    ),
    Row("GET / HTTP/1.1\r\nConnection: close\r\n\r\n", 1, None, true),
    Row(
        "GET / HTTP/1.1\r\nconnection: Keep-Alive ,\tCLOSE\r\n\r\n",
        1,
        None,
        true,
    ),
    Row(
        "GET / HTTP/1.1\r\nConnection: upgrade\r\nConnection: x, close\r\n\r\n",
        1,
        None,
        true,
    ),
    Row(
        "GET / HTTP/1.1\r\nConnection: closed, clos\r\nX: close\r\n\r\n",
        1,
        None,
        false,
    ),
    // Faults of the head.
    Row(
        "GET  / HTTP/1.1\r\n\r\n",
        0,
        Some(HttpFault::BadHead),
        false,
    ),
    Row(
        " GET / HTTP/1.1\r\n\r\n",
        0,
        Some(HttpFault::BadHead),
        false,
    ),
    Row("GET / HTTP/1.2\r\n\r\n", 0, Some(HttpFault::BadHead), false),
    Row("GET / HTTP/2.0\r\n\r\n", 0, Some(HttpFault::BadHead), false),
    Row("GET /\r\n\r\n", 0, Some(HttpFault::BadHead), false),
    Row("G(T / HTTP/1.1\r\n\r\n", 0, Some(HttpFault::BadHead), false),
    Row(
        "GET /\0 HTTP/1.1\r\n\r\n",
        0,
        Some(HttpFault::BadHead),
        false,
    ),
    Row(
        "GET / HTTP/1.1\r\nX: a\0b\r\n\r\n",
        0,
        Some(HttpFault::BadHead),
        false,
    ),
    Row(
        "GET / HTTP/1.1\r\nX : a\r\n\r\n",
        0,
        Some(HttpFault::BadHead),
        false,
    ),
    Row(
        "GET / HTTP/1.1\r\nno field\r\n\r\n",
        0,
        Some(HttpFault::BadHead),
        false,
    ),
    Row(
        "GET / HTTP/1.1\r\nX: a\r\n b\r\n\r\n",
        0,
        Some(HttpFault::BadHead),
        false,
    ),
    Row(
        "GET / HTTP/1.1\r\nX: a\rb\r\n\r\n",
        0,
        Some(HttpFault::BadHead),
        false,
    ),
    Row("GET / HTTP/1.1\r\n\r\n*", 1, None, false),
    Row(
        "GET / HTTP/1.1\r\n\r\n\0",
        1,
        Some(HttpFault::BadHead),
        false,
    ),
    // Codings.
    Row(
        "POST / HTTP/1.1\r\nTransfer-Encoding: chunked\r\n\r\n0\r\n\r\n",
        0,
        Some(HttpFault::Coding),
        false,
    ),
    Row(
        "POST / HTTP/1.1\r\ntransfer-encoding:\r\n\r\n",
        0,
        Some(HttpFault::Coding),
        false,
    ),
    Row(
        "POST / HTTP/1.1\r\nTransfer-Encoding: identity\r\n\r\n",
        0,
        Some(HttpFault::Coding),
        false,
    ),
    Row(
        "POST / HTTP/1.1\r\nContent-Encoding: gzip\r\n\r\n",
        0,
        Some(HttpFault::Coding),
        false,
    ),
    Row(
        "POST / HTTP/1.1\r\nContent-Encoding: Identity\r\n\r\n",
        1,
        None,
        false,
    ),
    // Lengths.
    Row(
        "POST / HTTP/1.1\r\nContent-Length: 0\r\nContent-Length: 0\r\n\r\n",
        0,
        Some(HttpFault::BadLength),
        false,
    ),
    Row(
        "POST / HTTP/1.1\r\nContent-Length: 000000000000000000002\r\n\r\nab",
        0,
        Some(HttpFault::BadLength),
        false,
    ),
    Row(
        "POST / HTTP/1.1\r\nContent-Length:\r\n\r\n",
        0,
        Some(HttpFault::BadLength),
        false,
    ),
    Row(
        "POST / HTTP/1.1\r\nContent-Length: +2\r\n\r\nab",
        0,
        Some(HttpFault::BadLength),
        false,
    ),
    Row(
        "POST / HTTP/1.1\r\nContent-Length: 2, 2\r\n\r\nab",
        0,
        Some(HttpFault::BadLength),
        false,
    ),
    Row(
        "POST / HTTP/1.1\r\nContent-Length: 99999999999999999999\r\n\r\n",
        0,
        Some(HttpFault::BodyTooLong),
        false,
    ),
    // Of several faults of the fields the first in the order is told.
    Row(
        "POST / HTTP/1.1\r\nContent-Length: x\r\nTransfer-Encoding: chunked\r\n\r\n",
        0,
        Some(HttpFault::Coding),
        false,
    ),
    Row(
        "POST / HTTP/1.1\r\nContent-Length: 1048577\r\nContent-Encoding: br\r\n\r\n",
        0,
        Some(HttpFault::Coding),
        false,
    ),
    Row(
        "POST / HTTP/1.1\r\nContent-Length: 1048577\r\nContent-Length: 1\r\n\r\n",
        0,
        Some(HttpFault::BadLength),
        false,
    ),
];

fn is_read_so(read: &Reading, row: &Row) -> bool {
    let closes = match read.requests.last() {
        Some(last) => last.close,
        None => false,
    };
    read.requests.len() == row.1 && read.fault == row.2 && closes == row.3
}

#[test]
fn streams_are_read_up_to_their_fault(rt: HostRuntime) -> Result<(), Fail> {
    let alloc = rt.alloc();
    for row in &ROWS {
        for most in [1, 7, 1000] {
            let read = fed(alloc, row.0.as_bytes(), most, 5)?;
            let stream = row.0;
            assert!(rt; is_read_so(&read, row), "{stream}");
        }
    }
    Ok(())
}

#[test]
fn a_target_that_is_no_text_is_refused(rt: HostRuntime) -> Result<(), Fail> {
    let alloc = rt.alloc();
    for most in [1, 1000] {
        let read = fed(alloc, b"GET /\xff HTTP/1.1\r\n\r\n", most, 5)?;
        assert!(rt; read.fault == Some(HttpFault::BadHead));
    }
    Ok(())
}
