//! Responses byte by byte.

use cv_http::respond;
use std::test::Fail;

/// Status, body and response.
const RESPONSES: [(u16, &str, &str); 8] = [
    (
        200,
        "[]",
        "HTTP/1.1 200 OK\r\nContent-Type: application/json\r\nContent-Length: 2\r\n\r\n[]",
    ),
    (
        400,
        "{\"error\":\"CutOff\"}",
        "HTTP/1.1 400 Bad Request\r\nContent-Type: application/json\r\nContent-Length: 18\r\n\r\n{\"error\":\"CutOff\"}",
    ),
    (
        404,
        "{\"error\":\"NoPath\"}",
        "HTTP/1.1 404 Not Found\r\nContent-Type: application/json\r\nContent-Length: 18\r\n\r\n{\"error\":\"NoPath\"}",
    ),
    (
        405,
        "{\"error\":\"BadMethod\"}",
        "HTTP/1.1 405 Method Not Allowed\r\nContent-Type: application/json\r\nContent-Length: 21\r\n\r\n{\"error\":\"BadMethod\"}",
    ),
    (
        409,
        "{\"error\":\"Moving\"}",
        "HTTP/1.1 409 Conflict\r\nContent-Type: application/json\r\nContent-Length: 18\r\n\r\n{\"error\":\"Moving\"}",
    ),
    (
        413,
        "{\"error\":\"BodyTooLong\"}",
        "HTTP/1.1 413 Payload Too Large\r\nContent-Type: application/json\r\nContent-Length: 23\r\n\r\n{\"error\":\"BodyTooLong\"}",
    ),
    (
        503,
        "{\"error\":\"Memory\"}",
        "HTTP/1.1 503 Service Unavailable\r\nContent-Type: application/json\r\nContent-Length: 18\r\n\r\n{\"error\":\"Memory\"}",
    ),
    (
        200,
        "",
        "HTTP/1.1 200 OK\r\nContent-Type: application/json\r\nContent-Length: 0\r\n\r\n",
    ),
];

#[test]
fn responses_have_their_bytes(rt: HostRuntime) -> Result<(), Fail> {
    let alloc = rt.alloc();
    for (status, body, want) in RESPONSES {
        let is_answered = [200, 400, 404, 405, 409, 413, 503].contains(&status);
        assert!(rt; is_answered);
        let bytes = respond(alloc, status, body.as_bytes())?;
        assert!(rt; bytes.as_slice() == want.as_bytes(), "{status}");
    }
    Ok(())
}
