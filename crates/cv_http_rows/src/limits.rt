//! Each limit at its edge and one past it.

use super::{Reading, fed};
use cv_http::{HttpFault, MOST_BODY, MOST_FIELDS, MOST_HEAD};
use std::alloc::{AllocError, Global};
use std::test::Fail;

/// A head of so many bytes with one field.
fn long_head(alloc: Global, len: usize) -> Result<String, AllocError> {
    let mut text = String::from_str(alloc, "GET / HTTP/1.1\r\nX: ")?;
    for _ in 0..len {
        if text.len() + 4 >= len {
            break;
        }
        text.push_str("v")?;
    }
    text.push_str("\r\n\r\n")?;
    Ok(text)
}

/// A head of so many fields with so many empty lines before it.
fn many_fields(alloc: Global, blank: usize, fields: usize) -> Result<String, AllocError> {
    let mut text = String::new(alloc);
    for _ in 0..blank {
        text.push_str("\r\n")?;
    }
    text.push_str("GET / HTTP/1.1\r\n")?;
    for _ in 0..fields {
        text.push_str("A: b\r\n")?;
    }
    text.push_str("\r\n")?;
    Ok(text)
}

/// A request with a body of so many bytes.
fn long_body(alloc: Global, len: usize) -> Result<Vec<u8>, AllocError> {
    let head = format!(in alloc; "POST / HTTP/1.1\r\nContent-Length: {len}\r\n\r\n")?;
    let mut bytes = head.into_bytes();
    for _ in 0..len {
        bytes.push(b'b')?;
    }
    Ok(bytes)
}

fn is_taken(read: &Reading) -> bool {
    read.requests.len() == 1 && read.fault.is_none() && read.empty
}

fn is_refused(read: &Reading, fault: HttpFault) -> bool {
    read.requests.is_empty() && read.fault == Some(fault) && !read.empty
}

#[test]
fn the_bytes_of_a_head_are_bounded(rt: HostRuntime) -> Result<(), Fail> {
    let alloc = rt.alloc();
    let fits = long_head(alloc, MOST_HEAD)?;
    let over = long_head(alloc, MOST_HEAD + 1)?;
    assert_eq!(rt; fits.len(), 16_384);
    assert_eq!(rt; over.len(), 16_385);
    for most in [100, 100_000] {
        assert!(rt; is_taken(&fed(alloc, fits.as_bytes(), most, 1)?));
        let read = fed(alloc, over.as_bytes(), most, 1)?;
        assert!(rt; is_refused(&read, HttpFault::HeadTooLong));
    }
    Ok(())
}

#[test]
fn a_head_without_an_end_is_bounded(rt: HostRuntime) -> Result<(), Fail> {
    let alloc = rt.alloc();
    let letters = vec![in alloc; b'a'; MOST_HEAD]?;
    let read = fed(alloc, letters.as_slice(), 50_000, 1)?;
    assert!(rt; is_refused(&read, HttpFault::HeadTooLong));
    let read = fed(alloc, &letters.as_slice()[..16_383], 50_000, 1)?;
    assert_eq!(rt; read.fault, None);
    Ok(())
}

#[test]
fn the_lines_of_a_head_are_bounded(rt: HostRuntime) -> Result<(), Fail> {
    let alloc = rt.alloc();
    assert_eq!(rt; MOST_FIELDS, 64);
    // empty lines before the head, fields, and whether they are taken
    let rows = [
        (0, 0, true),
        (0, 64, true),
        (0, 65, false),
        (1, 63, true),
        (1, 64, false),
        (64, 0, true),
        (65, 0, false),
    ];
    for (blank, fields, taken) in rows {
        let text = many_fields(alloc, blank, fields)?;
        for most in [1, 40, 100_000] {
            let read = fed(alloc, text.as_bytes(), most, 9)?;
            if taken {
                assert!(rt; is_taken(&read), "{blank} {fields}");
            } else {
                assert!(rt;
                    is_refused(&read, HttpFault::HeadTooLong),
                    "{blank} {fields}"
                );
            }
        }
    }
    Ok(())
}

#[test]
fn the_bytes_of_a_body_are_bounded(rt: HostRuntime) -> Result<(), Fail> {
    let alloc = rt.alloc();
    let fits = long_body(alloc, MOST_BODY)?;
    let read = fed(alloc, fits.as_slice(), 9_000, 3)?;
    assert!(rt; is_taken(&read));
    let Some(request) = read.requests.first() else {
        return Ok(());
    };
    assert_eq!(rt; request.body.len(), 1_048_576);
    let over = long_body(alloc, MOST_BODY + 1)?;
    assert!(rt;
        is_refused(
            &fed(alloc, over.as_slice(), 9_000, 3)?,
            HttpFault::BodyTooLong
        )
    );
    Ok(())
}
