//! Texts of journals, and their first lines that are not of the form.

use cv_protocol::Journal;
use cv_record::{LineFault, read, write};
use std::alloc::Global;
use std::process::Abort;
use std::test::Fail;

/// Two nodes, of which the first learned of the second and fired.
const TEXT: &str =
    "[\"node\",1,65535,64,{\"node.name\":\"a\"},0]\n[1,[\"meet\",3,{}]]\n[2,[\"fire\",[1,1,0],0]]\n[\"node\",3,0,1,{},0]\n[1,[\"meet\",1,{\"node.name\":\"a\"}]]\n";

/// Texts, each with its first line that is not of the form.
const BAD: [(&str, u64); 20] = [
    ("\n", 1),
    ("[\"node\",1,10,4,{},0]", 1),
    ("[\"node\",1,10,4,{},0]\r\n", 1),
    (" [\"node\",1,10,4,{},0]\n", 1),
    ("[\"node\",1,10,4,{},1]\n", 1),
    ("[\"node\",0,10,4,{},0]\n", 1),
    ("[\"node\",65,10,4,{},0]\n", 1),
    ("[\"node\",1,65536,4,{},0]\n", 1),
    ("[\"node\",1,10,0,{},0]\n", 1),
    ("[\"node\",1,10,65,{},0]\n", 1),
    ("[\"node\",1,10,4,{\"name\":\"a\"},0]\n", 1),
    ("[\"node\",1,10,4,0]\n", 1),
    ("[1,[\"meet\",3,{}]]\n[\"node\",1,10,4,{},0]\n", 1),
    ("[\"node\",2,10,4,{},0]\n[\"node\",1,10,4,{},0]\n", 2),
    ("[\"node\",2,10,4,{},0]\n[\"node\",2,10,4,{},0]\n", 2),
    ("[\"node\",2,10,4,{},0]\n\n[\"node\",3,10,4,{},0]\n", 2),
    (
        "[\"node\",1,10,4,{},0]\n[1,[\"meet\",3,{}]]\n[2,[\"fire\",[1,1,0],256]]\n[3,[\"no\"]]\n",
        3,
    ),
    (
        "[\"node\",1,10,4,{},0]\n[1,[\"meet\",3,{}]]\n[\"node\",2,10,4,{},0]\n[\"node\",1,10,4,{},0]\n",
        4,
    ),
    (
        "[\"node\",1,10,4,{},0]\n[1,[\"meet\",3,{}]]\n[2,[\"fire\",[1,1,0],0]]",
        3,
    ),
    (
        "[\"node\",1,10,4,{},0]\n[1,[\"meet\",3,{}]]\n[2,[\"fire\",[1,1,0],0]]\n ",
        4,
    ),
];

/// Whether the text is read as journals whose text it is.
fn reads_back(alloc: Global, text: &str) -> Result<bool, Fail> {
    match read(alloc, text.as_bytes()) {
        Ok(journals) => Ok(write(alloc, &journals)?.as_slice() == text.as_bytes()),
        Err(_) => Ok(false),
    }
}

fn is_told(alloc: Global, text: &str, line: u64) -> bool {
    match read(alloc, text.as_bytes()) {
        Ok(_) => false,
        Err(fault) => fault == LineFault::BadLine { line },
    }
}

#[test]
fn journals_are_read_back(rt: HostRuntime) -> Result<(), Fail> {
    for text in ["", "[\"node\",64,0,64,{},0]\n", TEXT] {
        assert!(rt; reads_back(rt.alloc(), text)?, "{text}");
    }
    Ok(())
}

/// A node's number, room and window, and how many attributes and entries it has.
fn counts(journal: &Journal) -> (u16, u16, u16, usize, usize) {
    let spec = &journal.spec;
    let attributes = spec.attrs.as_slice().len();
    (
        spec.no,
        spec.room,
        spec.window,
        attributes,
        journal.entries.len(),
    )
}

#[test]
fn what_is_read(rt: HostRuntime) -> Result<(), Fail> {
    let Ok(journals) = read(rt.alloc(), TEXT.as_bytes()) else {
        return Err("no journals".into());
    };
    let [first, second] = journals.as_slice() else {
        return Err("not two journals".into());
    };
    assert_eq!(rt; counts(first), (1, 65535, 64, 1, 2));
    assert_eq!(rt; counts(second), (3, 0, 1, 0, 1));
    Ok(())
}

#[test]
fn the_first_bad_line_is_told(rt: HostRuntime) -> Result<(), Fail> {
    let alloc = rt.alloc();
    for (text, line) in BAD {
        assert!(rt; is_told(alloc, text, line), "{text}");
    }
    Ok(())
}
