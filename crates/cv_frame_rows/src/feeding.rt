//! Streams of frames, cut in many ways, and the faults in them.

use cv_frame::{Feed, FrameFault, frame_text};
use std::alloc::Global;
use std::process::Abort;
use std::test::Fail;

const ACK: &str = "{\"body\":[\"ack\",[1,1,0],[1,1,0],3],\"from\":2,\"stamp\":9,\"to\":1}";

const CANCEL: &str = "{\"body\":[\"cancel\",[2,1,5],1],\"from\":2,\"stamp\":21,\"to\":3}";

/// The bytes of a text behind its length, which is below 256.
fn framed(alloc: Global, length: u8, text: &str) -> Result<Vec<u8>, Fail> {
    let mut bytes = Vec::from_slice(alloc, &[0, 0, 0, length])?;
    bytes.extend_from_slice(text.as_bytes())?;
    Ok(bytes)
}

/// The next frame's text, empty where none waits.
fn taken(alloc: Global, feed: &mut Feed) -> Result<String, Fail> {
    match feed.take() {
        Some(frame) => Ok(String::from_str(alloc, frame_text(alloc, &frame)?.as_str())?),
        None => Ok(String::new(alloc)),
    }
}

/// Whether the frames that wait have these texts, and none waits behind them.
fn holds(alloc: Global, feed: &mut Feed, texts: &[&str]) -> Result<bool, Fail> {
    for text in texts {
        if taken(alloc, feed)?.as_str() != *text {
            return Ok(false);
        }
    }
    Ok(feed.take().is_none())
}

/// The bytes of two frames, each behind its length.
fn two_framed(alloc: Global, first: (u8, &str), second: (u8, &str)) -> Result<Vec<u8>, Fail> {
    let mut stream = framed(alloc, first.0, first.1)?;
    stream.extend_from_slice(&framed(alloc, second.0, second.1)?)?;
    Ok(stream)
}

// None until the last byte, then that frame, then none.
#[test]
fn a_frame_in_single_bytes(rt: HostRuntime) -> Result<(), Fail> {
    let alloc = rt.alloc();
    let mut feed = Feed::new(alloc)?;
    for byte in &framed(alloc, 0x3c, ACK)? {
        assert!(rt; feed.take().is_none());
        assert!(rt; feed.push(alloc, &[*byte]).is_ok());
    }
    assert!(rt; holds(alloc, &mut feed, &[ACK])?);
    Ok(())
}

// Two frames in pieces of each size.
#[test]
fn two_frames_in_pieces(rt: HostRuntime) -> Result<(), Fail> {
    let alloc = rt.alloc();
    let stream = two_framed(alloc, (0x3c, ACK), (0x38, CANCEL))?;
    for size in 1..=stream.len() {
        let mut feed = Feed::new(alloc)?;
        for piece in stream.as_slice().chunks(size) {
            assert!(rt; feed.push(alloc, piece).is_ok());
        }
        assert!(rt; holds(alloc, &mut feed, &[ACK, CANCEL])?, "{size}");
    }
    Ok(())
}

/// Whether the bytes are refused by this fault, and then again.
fn is_refused(alloc: Global, bytes: &[u8], fault: FrameFault) -> Result<bool, Fail> {
    let mut feed = Feed::new(alloc)?;
    Ok(feed.push(alloc, bytes) == Err(fault) && feed.push(alloc, b"") == Err(fault))
}

/// An ack with a space.
const SPACED: &str = "{\"body\":[\"ack\", [1,1,0],[1,1,0],3],\"from\":2,\"stamp\":9,\"to\":1}";

#[test]
fn faults_are_told(rt: HostRuntime) -> Result<(), Fail> {
    let alloc = rt.alloc();
    let spaced = framed(alloc, 0x3d, SPACED)?;
    for (bytes, fault) in [
        (spaced.as_slice(), FrameFault::BadFrame { at: 0 }),
        ([0, 0x10, 0, 1].as_slice(), FrameFault::FrameTooLong),
        ([0, 0, 0, 0].as_slice(), FrameFault::BadFrame { at: 0 }),
    ] {
        assert!(rt; is_refused(alloc, bytes, fault)?);
    }
    Ok(())
}

// The greatest length that a frame may have is no fault.
#[test]
fn the_greatest_length_is_taken(rt: HostRuntime) -> Result<(), Fail> {
    let mut feed = Feed::new(rt.alloc())?;
    assert!(rt; feed.push(rt.alloc(), b"\x00\x10\x00\x00{").is_ok());
    Ok(())
}

// The frame before the fault is read, and the fault told at the byte behind it.
#[test]
fn a_fault_behind_a_frame(rt: HostRuntime) -> Result<(), Fail> {
    let alloc = rt.alloc();
    let stream = two_framed(alloc, (0x3c, ACK), (2, "{}"))?;
    for size in 1..=stream.len() {
        let mut feed = Feed::new(alloc)?;
        let mut told = Ok(());
        for piece in stream.as_slice().chunks(size) {
            told = feed.push(alloc, piece);
        }
        assert!(rt; told == Err(FrameFault::BadFrame { at: 64 }), "{size}");
        assert!(rt; holds(alloc, &mut feed, &[ACK])?, "{size}");
    }
    Ok(())
}

/// Stamps that are too far, and texts that are not told so.
const FAR: [(u8, &str); 3] = [
    (
        0x4e,
        "{\"body\":[\"ack\",[1,1,0],[1,1,0],3],\"from\":2,\"stamp\":4611686018427387904,\"to\":1}",
    ),
    (
        0x4e,
        "{\"body\":[\"ack\",[1,1,0],[1,1,0],3],\"from\":2,\"stamp\":9223372036854775808,\"to\":1}",
    ),
    (
        0x4f,
        "{\"body\":[\"ack\",[1,1,0],[1,1,0],3],\"from\":2,\"stamp\":18446744073709551615,\"to\":1}",
    ),
];

const BAD: [(u8, &str); 4] = [
    (
        0x4f,
        "{\"body\":[\"ack\",[1,1,0],[1,1,0],3],\"from\":2,\"stamp\":18446744073709551616,\"to\":1}",
    ),
    (
        0x4e,
        "{\"body\":[\"ack\",[1,1,0],[1,1,0],3],\"from\":0,\"stamp\":4611686018427387904,\"to\":1}",
    ),
    (
        0x4f,
        "{\"body\":[\"ack\",[1,1,0],[1,1,0],3],\"from\":2,\"stamp\":04611686018427387904,\"to\":1}",
    ),
    (
        0x4f,
        "{\"body\":[\"ack\",[1,1,0],[1,1,0],3],\"from\":2,\"stamp\":4611686018427387904,\"to\":65}",
    ),
];

#[test]
fn stamps_that_are_too_far(rt: HostRuntime) -> Result<(), Fail> {
    let alloc = rt.alloc();
    for (length, text) in FAR {
        let bytes = framed(alloc, length, text)?;
        assert!(rt;
            is_refused(alloc, &bytes, FrameFault::StampTooFar)?,
            "{text}"
        );
    }
    for (length, text) in BAD {
        let bytes = framed(alloc, length, text)?;
        assert!(rt;
            is_refused(alloc, &bytes, FrameFault::BadFrame { at: 0 })?,
            "{text}"
        );
    }
    Ok(())
}
