//! The bytes of each body of a frame.

use super::values::{actor, conn, state};
use cv_frame::{encode, frame_text, state_text};
use cv_protocol::{Body, Frame, Verdict};
use cv_token::{AppId, read};
use sqlite_items::Boxed;
use std::alloc::Global;
use std::process::Abort;
use std::test::Fail;

const STATE: &str = "[\"cs1\",\"mid\",\"std.Identity\",[false],[],0,null,\
[[[1,1,0],[1,1,0],2,[7]]],[[3,[5],[[[1,1,1],[1,1,2],2]]]],[[[1,1,0],0,1],[[1,1,2],3,2]]]";

/// Whether the frame's bytes are the text behind these bytes of length.
fn is_spelled(alloc: Global, frame: Frame, length: [u8; 4], text: &str) -> Result<bool, Fail> {
    let written = frame_text(alloc, &frame)?;
    let bytes = encode(alloc, &frame)?;
    Ok(
        written.as_str() == text
            && bytes.starts_with(&length)
            && bytes.len() == 4 + text.len()
            && bytes.ends_with(text.as_bytes()),
    )
}

fn frame(from: u16, to: u16, stamp: u64, body: Body) -> Frame {
    Frame {
        from,
        to,
        stamp,
        body,
    }
}

#[test]
fn a_token_frame(rt: HostRuntime) -> Result<(), Fail> {
    let alloc = rt.alloc();
    let Ok(token) = read(alloc, b"{\"a\":[null,-5]}") else {
        return Err(Fail::new("no token"));
    };
    let body = Body::Token {
        conn: conn(1, 1, 0),
        actor: actor(1, 1, 2),
        n: 17,
        token,
    };
    let text =
        "{\"body\":[\"token\",[1,1,0],[1,1,2],17,{\"a\":[null,-5]}],\"from\":1,\"stamp\":4,\"to\":2}";
    assert!(rt; is_spelled(alloc, frame(1, 2, 4, body), [0, 0, 0, 0x4f], text)?);
    Ok(())
}

#[test]
fn an_ack_frame(rt: HostRuntime) -> Result<(), Fail> {
    let alloc = rt.alloc();
    let body = Body::Ack {
        conn: conn(1, 1, 0),
        actor: actor(1, 1, 0),
        upto: 3,
    };
    let text = "{\"body\":[\"ack\",[1,1,0],[1,1,0],3],\"from\":2,\"stamp\":9,\"to\":1}";
    assert!(rt; is_spelled(alloc, frame(2, 1, 9, body), [0, 0, 0, 0x3c], text)?);
    Ok(())
}

const NACK: &str = "{\"body\":[\"nack\",[64,4294967295,65535],[64,4294967295,65535],0],\
\"from\":64,\"stamp\":4611686018427387903,\"to\":63}";

// Each number is the greatest of its field.
#[test]
fn a_nack_frame(rt: HostRuntime) -> Result<(), Fail> {
    let alloc = rt.alloc();
    let body = Body::Nack {
        conn: conn(64, 4_294_967_295, 65535),
        actor: actor(64, 4_294_967_295, 65535),
        upto: 0,
    };
    let stamp = (1 << 62) - 1;
    assert!(rt; is_spelled(alloc, frame(64, 63, stamp, body), [0, 0, 0, 0x6d], NACK)?);
    Ok(())
}

#[test]
fn a_state_is_spelled(rt: HostRuntime) -> Result<(), Fail> {
    let travelling = state(&rt, rt.alloc())?;
    assert!(rt; state_text(rt.alloc(), &travelling)?.as_str() == STATE);
    Ok(())
}

const TRANSFER: &str =
    "{\"body\":[\"transfer\",[1,1,1],1,[\"cs1\",\"mid\",\"std.Identity\",[false],[],0,null,\
[[[1,1,0],[1,1,0],2,[7]]],[[3,[5],[[[1,1,1],[1,1,2],2]]]],[[[1,1,0],0,1],[[1,1,2],3,2]]]],\
\"from\":1,\"stamp\":12,\"to\":2}";

#[test]
fn a_transfer_frame(rt: HostRuntime) -> Result<(), Fail> {
    let alloc = rt.alloc();
    let travelling = state(&rt, alloc)?;
    let Ok(state) = Boxed::new(alloc, travelling) else {
        return Err(Fail::new("no memory"));
    };
    let body = Body::Transfer {
        actor: actor(1, 1, 1),
        attempt: 1,
        state,
    };
    assert!(rt; is_spelled(alloc, frame(1, 2, 12, body), [0, 0, 0, 0xc1], TRANSFER)?);
    Ok(())
}

#[test]
fn a_verdict_frame(rt: HostRuntime) -> Result<(), Fail> {
    let alloc = rt.alloc();
    let body = Body::Verdict {
        actor: actor(1, 2, 0),
        attempt: 6,
        verdict: Verdict::Gone,
    };
    let text = "{\"body\":[\"verdict\",[1,2,0],6,3],\"from\":3,\"stamp\":20,\"to\":1}";
    assert!(rt; is_spelled(alloc, frame(3, 1, 20, body), [0, 0, 0, 0x3b], text)?);
    Ok(())
}

#[test]
fn a_cancel_frame(rt: HostRuntime) -> Result<(), Fail> {
    let alloc = rt.alloc();
    let body = Body::Cancel {
        actor: actor(2, 1, 5),
        attempt: 1,
    };
    let text = "{\"body\":[\"cancel\",[2,1,5],1],\"from\":2,\"stamp\":21,\"to\":3}";
    assert!(rt; is_spelled(alloc, frame(2, 3, 21, body), [0, 0, 0, 0x38], text)?);
    Ok(())
}

#[test]
fn a_located_frame(rt: HostRuntime) -> Result<(), Fail> {
    let alloc = rt.alloc();
    let body = Body::Located {
        actor: actor(1, 1, 3),
        attempt: 2,
        node: 4,
    };
    let text = "{\"body\":[\"located\",[1,1,3],2,4],\"from\":1,\"stamp\":22,\"to\":2}";
    assert!(rt; is_spelled(alloc, frame(1, 2, 22, body), [0, 0, 0, 0x3b], text)?);
    Ok(())
}

#[test]
fn a_destroy_frame(rt: HostRuntime) -> Result<(), Fail> {
    let alloc = rt.alloc();
    let body = Body::Destroy {
        app: AppId { node: 1, seq: 7 },
    };
    let text = "{\"body\":[\"destroy\",[1,7]],\"from\":1,\"stamp\":23,\"to\":2}";
    assert!(rt; is_spelled(alloc, frame(1, 2, 23, body), [0, 0, 0, 0x35], text)?);
    Ok(())
}
