//! Rows of `trace`: the journals of whole runs, each line worked out by hand from the turns of a run.

use super::*;
use cv_record::{read, write};
use std::test::Fail;

const CONSTANT: &str = "src : std.Constant(data=7, n=2)\nsnk : io.Print()\nsrc.token > snk.token\n";

/// In a turn a token passes where one can, and then each actor is polled once: the source fires in the first two turns; the
/// print reads the first token in the second turn and takes it in the third, where the second token comes, which it reads in
/// the fourth and takes in the fifth.
const TRACED: &str = "[\"node\",1,1024,1,{\"node_name.name\":\"node1\"},0]\n\
[1,[\"deploy\",\"run\",{\"actors\":[[\"src\",\"std.Constant\",[7,2],null],[\"snk\",\"io.Print\",[],null]],\"connections\":[[0,\"token\",1,\"token\"]]}]]\n\
[2,[\"fire\",[1,1,0],0]]\n\
[3,[\"pass\",[1,1,0]]]\n\
[4,[\"fire\",[1,1,0],0]]\n\
[5,[\"peek\",[1,1,1],0]]\n\
[6,[\"pass\",[1,1,0]]]\n\
[7,[\"fire\",[1,1,1],0]]\n\
[8,[\"peek\",[1,1,1],0]]\n\
[9,[\"fire\",[1,1,1],0]]\n";

/// One firing of the source alone.
const BEGUN: &str = "[\"node\",1,1024,1,{\"node_name.name\":\"node1\"},0]\n\
[1,[\"deploy\",\"run\",{\"actors\":[[\"src\",\"std.Constant\",[7,2],null],[\"snk\",\"io.Print\",[],null]],\"connections\":[[0,\"token\",1,\"token\"]]}]]\n\
[2,[\"fire\",[1,1,0],0]]\n";

/// A network of nothing: its deployment is all that happens.
const NOTHING: &str = "[\"node\",1,1024,1,{\"node_name.name\":\"node1\"},0]\n\
[1,[\"deploy\",\"run\",{\"actors\":[],\"connections\":[]}]]\n";

#[test]
fn runs_have_their_journals(rt: HostRuntime) -> Result<(), Fail> {
    let alloc = rt.alloc();
    // the words, the script, the status, and the text
    let rows = [
        (["trace"].as_slice(), CONSTANT, 0, TRACED),
        (
            ["trace", "--firings", "100"].as_slice(),
            CONSTANT,
            0,
            TRACED,
        ),
        (["trace", "--firings", "1"].as_slice(), CONSTANT, 0, BEGUN),
        (["trace"].as_slice(), "", 0, NOTHING),
        (["trace", "x"].as_slice(), CONSTANT, 2, "usage\n"),
        (
            ["trace", "--firings", "100001"].as_slice(),
            CONSTANT,
            2,
            "usage\n",
        ),
        (["trace"].as_slice(), "a : A", 3, "script 1:6 Unexpected\n"),
    ];
    for (words, script, wanted, text) in rows {
        let bytes = Vec::from_slice(alloc, script.as_bytes())?;
        let mut source = MemSource::new(bytes, 100, Vec::new(alloc));
        let mut sink = MemSink::new(alloc, 1000, Vec::new(alloc));
        assert_eq!(rt; status(&rt, alloc, words, &mut source, &mut sink)?, wanted);
        assert_eq!(rt; sink.bytes(), text.as_bytes());
    }
    Ok(())
}

/// A timer, whose moments stand in the journal.
const TIMER: &str = "src : std.CountTimer(sleep=0.1, steps=5)\n\
mid : std.Identity()\n\
snk : io.Print()\n\
src.integer > mid.token\n\
mid.token > snk.token\n";

/// Whether the bytes are read as one journal with so many entries, which is written as they are.
fn reads_back(alloc: Global, bytes: &[u8], count: usize) -> Result<bool, AllocError> {
    match read(alloc, bytes) {
        Ok(journals) => Ok(
            journals.len() == 1
                && journals[0].entries.len() == count
                && write(alloc, &journals)?.as_slice() == bytes,
        ),
        Err(_) => Ok(false),
    }
}

#[test]
fn what_was_traced_is_read_as_it_was(rt: HostRuntime) -> Result<(), Fail> {
    let alloc = rt.alloc();
    for script in [CONSTANT, TIMER, ""] {
        let bytes = Vec::from_slice(alloc, script.as_bytes())?;
        let mut source = MemSource::new(bytes, 100, Vec::new(alloc));
        let mut sink = MemSink::new(alloc, 1000, Vec::new(alloc));
        let outcome = answer(&rt, alloc, &["trace"], &mut source, &mut sink)?;
        assert_eq!(rt; outcome.status, 0);
        assert!(rt; reads_back(alloc, sink.bytes(), outcome.merged.entries.len())?);
    }
    Ok(())
}

#[test]
fn a_failed_sink_gets_the_front_of_the_journals(rt: HostRuntime) -> Result<(), Fail> {
    let alloc = rt.alloc();
    let bytes = Vec::from_slice(alloc, CONSTANT.as_bytes())?;
    let mut source = MemSource::new(bytes, 100, Vec::new(alloc));
    // the second call fails, and no third is made
    let mut sink = MemSink::new(alloc, 8, vec![in alloc; 2]?);
    let outcome = answer(&rt, alloc, &["trace"], &mut source, &mut sink)?;
    assert_eq!(rt; outcome.status, 5);
    assert_eq!(rt; sink.bytes(), "[\"node\",".as_bytes());
    assert_eq!(rt; outcome.merged.entries.len(), 0);
    Ok(())
}
