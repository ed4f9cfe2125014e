//! Texts that are read back, and those that are refused.

use super::values::actor;
use cv_frame::{frame_read, frame_text, state_read, state_text};
use std::alloc::Global;
use std::process::Abort;
use std::test::Fail;

/// Whether the text is read as a frame whose text it is.
fn reads_back(alloc: Global, text: &str) -> Result<bool, Fail> {
    let Some(frame) = frame_read(alloc, text.as_bytes())? else {
        return Ok(false);
    };
    Ok(frame_text(alloc, &frame)?.as_str() == text)
}

fn is_refused(alloc: Global, text: &str) -> Result<bool, Fail> {
    Ok(frame_read(alloc, text.as_bytes())?.is_none())
}

/// The text of each body, and a second spelling of it or one with a part out of its range.
const FRAMES: [(&str, &str); 7] = [
    (
        "{\"body\":[\"token\",[1,1,0],[1,1,2],17,{\"a\":[null,-5]}],\"from\":1,\"stamp\":4,\"to\":2}",
        "{\"body\":[\"token\",[1,1,0],[1,1,2],17,{\"a\":[null, -5]}],\"from\":1,\"stamp\":4,\"to\":2}",
    ),
    (
        "{\"body\":[\"ack\",[1,1,0],[1,1,0],3],\"from\":2,\"stamp\":9,\"to\":1}",
        "{\"body\":[\"\\u0061ck\",[1,1,0],[1,1,0],3],\"from\":2,\"stamp\":9,\"to\":1}",
    ),
    (
        "{\"body\":[\"nack\",[64,4294967295,65535],[64,4294967295,65535],0],\"from\":64,\"stamp\":4611686018427387903,\"to\":63}",
        "{\"body\":[\"nack\",[64,4294967295,65535],[64,4294967295,65535],0],\"from\":64,\"stamp\":4611686018427387904,\"to\":63}",
    ),
    (
        "{\"body\":[\"verdict\",[1,2,0],6,3],\"from\":3,\"stamp\":20,\"to\":1}",
        "{\"body\":[\"verdict\",[1,2,0],6,5],\"from\":3,\"stamp\":20,\"to\":1}",
    ),
    (
        "{\"body\":[\"cancel\",[2,1,5],1],\"from\":2,\"stamp\":21,\"to\":3}",
        "{\"body\":[\"cancel\",[2,1,5]],\"from\":2,\"stamp\":21,\"to\":3}",
    ),
    (
        "{\"body\":[\"located\",[1,1,3],2,4],\"from\":1,\"stamp\":22,\"to\":2}",
        "{\"body\":[\"located\",[1,1,3],02,4],\"from\":1,\"stamp\":22,\"to\":2}",
    ),
    (
        "{\"body\":[\"destroy\",[1,7]],\"from\":1,\"stamp\":23,\"to\":2}",
        "{\"body\":[\"destroy\",[1,7]],\"from\":1,\"to\":2,\"stamp\":23}",
    ),
];

#[test]
fn frames_have_one_spelling(rt: HostRuntime) -> Result<(), Fail> {
    let alloc = rt.alloc();
    for (text, other) in FRAMES {
        assert!(rt; reads_back(alloc, text)?, "{text}");
        assert!(rt; is_refused(alloc, other)?, "{other}");
    }
    Ok(())
}

/// Frames with a part that no frame has.
const REFUSED: [&str; 10] = [
    "",
    "{}",
    "{\"body\":[\"ack\",[1,1,0],[1,1,0],3],\"from\":2,\"stamp\":9,\"to\":1} ",
    "{\"body\":[\"ack\",[1,1,0],[1,1,0],3],\"from\":2,\"stamp\":9,\"to\":0}",
    "{\"body\":[\"ack\",[1,1,0],[1,1,0],3],\"from\":65,\"stamp\":9,\"to\":1}",
    "{\"body\":[\"ack\",[1,1,0],[1,1,0],-3],\"from\":2,\"stamp\":9,\"to\":1}",
    "{\"body\":[\"ack\",[1,1,65536],[1,1,0],3],\"from\":2,\"stamp\":9,\"to\":1}",
    "{\"body\":[\"ack\",[1,4294967296,0],[1,1,0],3],\"from\":2,\"stamp\":9,\"to\":1}",
    "{\"body\":[\"ack\",[1,1,0],[1,1,0],3],\"from\":2,\"more\":0,\"stamp\":9,\"to\":1}",
    "{\"body\":[\"sync\",[1,1,0],[1,1,0],3],\"from\":2,\"stamp\":9,\"to\":1}",
];

#[test]
fn frames_out_of_range_are_refused(rt: HostRuntime) -> Result<(), Fail> {
    let alloc = rt.alloc();
    for text in REFUSED {
        assert!(rt; is_refused(alloc, text)?, "{text}");
    }
    Ok(())
}

const TRANSFER: &str =
    "{\"body\":[\"transfer\",[1,1,1],1,[\"cs1\",\"mid\",\"std.Identity\",[false],[],0,null,\
[[[1,1,0],[1,1,0],2,[7]]],[[3,[5],[[[1,1,1],[1,1,2],2]]]],[[[1,1,0],0,1],[[1,1,2],3,2]]]],\
\"from\":1,\"stamp\":12,\"to\":2}";

/// A transfer of a state whose spelling is of another number.
const OTHER_TRANSFER: &str =
    "{\"body\":[\"transfer\",[1,1,1],1,[\"cs2\",\"mid\",\"std.Identity\",[false],[],0,null,\
[[[1,1,0],[1,1,0],2,[7]]],[[3,[5],[[[1,1,1],[1,1,2],2]]]],[[[1,1,0],0,1],[[1,1,2],3,2]]]],\
\"from\":1,\"stamp\":12,\"to\":2}";

#[test]
fn a_transfer_is_read_back(rt: HostRuntime) -> Result<(), Fail> {
    let alloc = rt.alloc();
    assert!(rt; reads_back(alloc, TRANSFER)?);
    assert!(rt; is_refused(alloc, OTHER_TRANSFER)?);
    Ok(())
}

/// States that are read back: one of each arrangement of ports.
const STATES: [&str; 4] = [
    "[\"cs1\",\"src\",\"std.Constant\",[7,2],[2],0,null,[],[[0,[],[]]],[]]",
    "[\"cs1\",\"snk\",\"io.Print\",[],[],0,null,[null],[],[]]",
    "[\"cs1\",\"t\",\"std.CountTimer\",[500,1,3],[2,2],2147483647,null,[],[[1,[1],[[[1,1,0],[1,1,1],0]]]],[[[1,1,1],0,1]]]",
    "[\"cs1\",\"a/b\",\"math.Add\",[],[],0,null,[[[1,1,0],[1,1,0],9,[1,2,3,4]],null],[[4611686018427387903,[],[]]],[]]",
];

/// States that are refused: too many tokens, positions out of order, a kind that is unknown, arguments and slots that are not the
/// row's, a port too many or missing, a wait too long, a rule, hints out of order or told twice, a token that does not fit.
const NO_STATES: [&str; 14] = [
    "[\"cs1\",\"snk\",\"io.Print\",[],[],0,null,[[[1,1,0],[1,1,0],0,[1,2,3,4,5]]],[],[]]",
    "[\"cs1\",\"snk\",\"io.Print\",[],[],0,null,[[[1,1,0],[1,1,0],4611686018427387903,[1,2]]],[],[]]",
    "[\"cs1\",\"src\",\"std.Constant\",[7,2],[2],0,null,[],[[3,[5],[[[1,1,0],[1,1,1],1]]]],[]]",
    "[\"cs1\",\"src\",\"std.Constant\",[7,2],[2],0,null,[],[[3,[5],[]]],[]]",
    "[\"cs1\",\"src\",\"std.Nothing\",[7,2],[2],0,null,[],[[0,[],[]]],[]]",
    "[\"cs1\",\"src\",\"std.Constant\",[7,-2],[2],0,null,[],[[0,[],[]]],[]]",
    "[\"cs1\",\"src\",\"std.Constant\",[7],[2],0,null,[],[[0,[],[]]],[]]",
    "[\"cs1\",\"src\",\"std.Constant\",[7,2],[],0,null,[],[[0,[],[]]],[]]",
    "[\"cs1\",\"snk\",\"io.Print\",[],[],0,null,[null,null],[],[]]",
    "[\"cs1\",\"snk\",\"io.Print\",[],[],0,null,[null],[[0,[],[]]],[]]",
    "[\"cs1\",\"snk\",\"io.Print\",[],[],2147483648,null,[null],[],[]]",
    "[\"cs1\",\"snk\",\"io.Print\",[],[],0,[\"match\",\"a\",{}],[null],[],[]]",
    "[\"cs1\",\"snk\",\"io.Print\",[],[],0,null,[null],[],[[[1,1,2],0,1],[[1,1,1],0,1]]]",
    "[\"cs1\",\"snk\",\"io.Print\",[],[],0,null,[null],[],[[[1,1,1],0,1],[[1,1,1],0,1]]]",
];

/// Whether the text is read as a state whose text it is.
fn state_reads_back(alloc: Global, text: &str) -> Result<bool, Fail> {
    let Some(state) = state_read(alloc, actor(1, 1, 0), text.as_bytes())? else {
        return Ok(false);
    };
    Ok(state_text(alloc, &state)?.as_str() == text)
}

fn is_no_state(alloc: Global, text: &str) -> Result<bool, Fail> {
    Ok(state_read(alloc, actor(1, 1, 0), text.as_bytes())?.is_none())
}

#[test]
fn states_are_read_back_or_refused(rt: HostRuntime) -> Result<(), Fail> {
    let alloc = rt.alloc();
    for text in STATES {
        assert!(rt; state_reads_back(alloc, text)?, "{text}");
    }
    for text in NO_STATES {
        assert!(rt; is_no_state(alloc, text)?, "{text}");
    }
    Ok(())
}
