//! The line of each event's entry, and lines that are no entry's.

use super::values;
use cv_entry::{entry_read, entry_text};
use cv_protocol::Entry;
use std::alloc::Global;
use std::process::Abort;
use std::test::Fail;

/// The line of an entry of each event, and a second spelling of it or one with a part out of its range.
const ENTRIES: [(&str, &str); 15] = [
    // keys turned
    (
        "[1,[\"meet\",64,{\"node.name\":\"n\\\"1\",\"zone.id\":\"\"}]]",
        "[1,[\"meet\",64,{\"zone.id\":\"\",\"node.name\":\"n\\\"1\"}]]",
    ),
    // no rule's place
    (
        "[2,[\"deploy\",\"run\",{\"actors\":[[\"src\",\"std.Constant\",[1,5],null],[\"snk\",\"io.Print\",[],null]],\"connections\":[[0,\"token\",1,\"token\"]]}]]",
        "[2,[\"deploy\",\"run\",{\"actors\":[[\"src\",\"std.Constant\",[1,5]],[\"snk\",\"io.Print\",[],null]],\"connections\":[[0,\"token\",1,\"token\"]]}]]",
    ),
    // a number of 2^62
    (
        "[3,[\"tick\",4611686018427387903]]",
        "[3,[\"tick\",4611686018427387904]]",
    ),
    // an inport past 8 bits
    (
        "[4,[\"peek\",[2,3,65535],255]]",
        "[4,[\"peek\",[2,3,65535],256]]",
    ),
    // a space
    ("[5,[\"fire\",[1,1,0],0]]", "[5, [\"fire\",[1,1,0],0]]"),
    // a leading zero
    ("[6,[\"pass\",[1,1,0]]]", "[6,[\"pass\",[1,1,00]]]"),
    // a number past 32 bits
    (
        "[7,[\"send\",[1,4294967295,65535]]]",
        "[7,[\"send\",[1,4294967296,65535]]]",
    ),
    // an escape
    ("[8,[\"rewind\",[1,1,3]]]", "[8,[\"re\\u0077ind\",[1,1,3]]]"),
    // a node past 64
    ("[9,[\"freeze\",[1,1,2],64]]", "[9,[\"freeze\",[1,1,2],65]]"),
    // no field
    ("[10,[\"resend\",[1,1,2]]]", "[10,[\"resend\"]]"),
    // a field too many
    (
        "[11,[\"withdraw\",[1,1,2]]]",
        "[11,[\"withdraw\",[1,1,2],0]]",
    ),
    // a field too few
    ("[12,[\"hint\",[1,1,2],7,3]]", "[12,[\"hint\",[1,1,2],7]]"),
    // node 0
    ("[13,[\"destroy\",[1,1]]]", "[13,[\"destroy\",[0,1]]]"),
    // a frame with a space
    (
        "[14,[\"lose\",{\"body\":[\"ack\",[1,1,0],[1,1,0],3],\"from\":2,\"stamp\":9,\"to\":1}]]",
        "[14,[\"lose\",{\"body\":[\"ack\",[1,1,0],[1,1,0],3],\"from\":2,\"stamp\":9, \"to\":1}]]",
    ),
    // a stamp of 2^62
    (
        "[4611686018427387903,[\"deliver\",{\"body\":[\"token\",[1,1,0],[1,1,1],0,\"a\"],\"from\":1,\"stamp\":14,\"to\":2}]]",
        "[4611686018427387904,[\"deliver\",{\"body\":[\"token\",[1,1,0],[1,1,1],0,\"a\"],\"from\":1,\"stamp\":14,\"to\":2}]]",
    ),
];

/// Lines that look like an entry's.
const NONE: [&str; 12] = [
    "",
    "5",
    "[5]",
    "{}",
    "[5,\"fire\",[1,1,0],0]",
    "[-1,[\"fire\",[1,1,0],0]]",
    "[5,[\"Fire\",[1,1,0],0]]",
    "[5,[\"fire\",[1,1],0]]",
    "[5,[\"meet\",2,{\"name\":\"x\"}]]",
    "[5,[\"meet\",2,{\"node.name\":1}]]",
    "[5,[\"fire\",[1,1,0],0]]\n",
    "[\"node\",1,10,4,{},0]",
];

/// Whether the text is read as an entry whose text it is.
fn reads_back(alloc: Global, text: &str) -> Result<bool, Fail> {
    let Some(entry) = entry_read(alloc, text.as_bytes())? else {
        return Ok(false);
    };
    Ok(entry_text(alloc, &entry)?.as_str() == text)
}

fn is_refused(alloc: Global, text: &str) -> Result<bool, Fail> {
    Ok(entry_read(alloc, text.as_bytes())?.is_none())
}

#[test]
fn each_entry_is_read_back(rt: HostRuntime) -> Result<(), Fail> {
    let alloc = rt.alloc();
    for (text, other) in ENTRIES {
        assert!(rt; reads_back(alloc, text)?, "{text}");
        assert!(rt; is_refused(alloc, other)?, "{other}");
    }
    for text in NONE {
        assert!(rt; is_refused(alloc, text)?, "{text}");
    }
    Ok(())
}

fn is_written(alloc: Global, entry: &Entry, place: usize) -> Result<bool, Fail> {
    let Some((text, _)) = ENTRIES.get(place) else {
        return Ok(false);
    };
    Ok(entry_text(alloc, entry)?.as_str() == *text)
}

#[test]
fn each_entry_is_written(rt: HostRuntime) -> Result<(), Fail> {
    let alloc = rt.alloc();
    let entries = values::entries(alloc)?;
    assert_eq!(rt; entries.len(), 15);
    for (place, entry) in entries.iter().enumerate() {
        assert!(rt; is_written(alloc, entry, place)?, "{place}");
    }
    Ok(())
}

// The entry of the row: action 0 of actor (1,1,0) fires at stamp 5.
#[test]
fn entry_reads_back(rt: HostRuntime) -> Result<(), Fail> {
    let alloc = rt.alloc();
    assert!(rt; reads_back(alloc, "[5,[\"fire\",[1,1,0],0]]")?);
    assert!(rt; is_refused(alloc, "[5, [\"fire\",[1,1,0],0]]")?);
    Ok(())
}
