//! Rows of `solo` and `gen`, and of refusals that come late in a text or from devices that fail.

use super::*;
use cv_io::Source;
use std::test::Fail;

/// The nine lines of the first chain.
const FIRST: &str = "src1 : std.CountTimer(sleep=0.01, start=1, steps=40)\n\
mid1 : std.Identity()\n\
sum1 : std.Sum()\n\
pick1 : flow.Every(n=10)\n\
snk1 : io.Print()\n\
src1.integer > mid1.token\n\
mid1.token > sum1.integer\n\
sum1.integer > pick1.token\n\
pick1.token > snk1.token\n";

/// What that chain prints: the sums up to 10, 20, 30 and 40.
const CHAIN_PRINTED: &str = "snk1 55\nsnk1 210\nsnk1 465\nsnk1 820\nfirings 164\nend quiescent\n";

/// How many line feeds the bytes have.
fn line_count(bytes: &[u8]) -> usize {
    bytes.iter().filter(|byte| **byte == b'\n').count()
}

#[test]
fn scripts_are_generated(rt: HostRuntime) -> Result<(), Fail> {
    let alloc = rt.alloc();
    // the words, the status, and how many lines are printed
    let rows = [
        (["gen", "1"].as_slice(), 0, 9),
        (["gen", "2"].as_slice(), 0, 18),
        (["gen", "--", "50"].as_slice(), 0, 450),
        (["gen", "0"].as_slice(), 2, 1),
        (["gen", "51"].as_slice(), 2, 1),
        (["gen", "x"].as_slice(), 2, 1),
        (["gen"].as_slice(), 2, 1),
        (["gen", "1", "1"].as_slice(), 2, 1),
    ];
    for (words, wanted, lines) in rows {
        // nothing is read: a source that fails at its first call is not asked
        let mut source = MemSource::new(Vec::new(alloc), 1, vec![in alloc; 1]?);
        let mut sink = MemSink::new(alloc, 1000, Vec::new(alloc));
        assert_eq!(rt; status(&rt, alloc, words, &mut source, &mut sink)?, wanted);
        assert_eq!(rt; line_count(sink.bytes()), lines);
    }
    let mut source = MemSource::new(Vec::new(alloc), 1, Vec::new(alloc));
    let mut sink = MemSink::new(alloc, 1000, Vec::new(alloc));
    assert_eq!(rt;
        status(&rt, alloc, &["gen", "1"], &mut source, &mut sink)?,
        0
    );
    assert_eq!(rt; sink.bytes(), FIRST.as_bytes());
    Ok(())
}

/// A timer of five tokens through an identity to a print.
const TIMER: &str = "src : std.CountTimer(sleep=0.1, steps=5)\n\
mid : std.Identity()\n\
snk : io.Print()\n\
src.integer > mid.token\n\
mid.token > snk.token\n";

#[test]
fn the_plain_machine_prints(rt: HostRuntime) -> Result<(), Fail> {
    let alloc = rt.alloc();
    // the words, the script, and the text
    let rows = [
        (
            ["solo"].as_slice(),
            TIMER,
            "snk 1\nsnk 2\nsnk 3\nsnk 4\nsnk 5\nfirings 15\nend quiescent\n",
        ),
        // of a round that is cut the actors behind the cut did not fire
        (
            ["solo", "--firings", "4"].as_slice(),
            TIMER,
            "snk 1\nfirings 4\nend spent\n",
        ),
        (
            ["solo", "--firings", "15"].as_slice(),
            TIMER,
            "snk 1\nsnk 2\nsnk 3\nsnk 4\nsnk 5\nfirings 15\nend spent\n",
        ),
        (["solo"].as_slice(), "", "firings 0\nend quiescent\n"),
        (
            ["solo", "--firings", "0"].as_slice(),
            "",
            "firings 0\nend spent\n",
        ),
        // no queue fills up: a source without a reader fires for ever
        (
            ["solo", "--firings", "100"].as_slice(),
            "src : std.Counter()",
            "firings 100\nend spent\n",
        ),
        // the first generated chain, by either machine
        (["solo"].as_slice(), FIRST, CHAIN_PRINTED),
        (["run"].as_slice(), FIRST, CHAIN_PRINTED),
        (
            ["solo"].as_slice(),
            "a : std.Identity()a.token > a.token",
            "firings 0\nend quiescent\n",
        ),
    ];
    for (words, script, text) in rows {
        let bytes = Vec::from_slice(alloc, script.as_bytes())?;
        let mut source = MemSource::new(bytes, 100, Vec::new(alloc));
        let mut sink = MemSink::new(alloc, 1000, Vec::new(alloc));
        assert_eq!(rt; status(&rt, alloc, words, &mut source, &mut sink)?, 0);
        assert_eq!(rt; sink.bytes(), text.as_bytes());
    }
    Ok(())
}

#[test]
fn faults_far_out_are_told(rt: HostRuntime) -> Result<(), Fail> {
    let alloc = rt.alloc();
    // what stands before, how often, what stands behind, and the fault
    let rows = [
        ("// a line\n", 1000, "?", "script 1001:1 BadChar\n"),
        (
            "[1,2,3] > a.b\n",
            20,
            "[[[[[[[[[[[[[[[[[1]]]]]]]]]]]]]]]]] > a.b",
            "script 21:17 TooDeep\n",
        ),
    ];
    for (before, count, behind, fault) in rows {
        let mut script = String::new(alloc);
        for _ in 0..count {
            script.push_str(before)?;
        }
        script.push_str(behind)?;
        let mut source = MemSource::new(script.into_bytes(), 4096, Vec::new(alloc));
        let mut sink = MemSink::new(alloc, 1000, Vec::new(alloc));
        assert_eq!(rt; status(&rt, alloc, &["run"], &mut source, &mut sink)?, 3);
        assert_eq!(rt; sink.bytes(), fault.as_bytes());
    }
    Ok(())
}

#[test]
fn a_failed_sink_gets_the_front_of_one_line_alone(rt: HostRuntime) -> Result<(), Fail> {
    let alloc = rt.alloc();
    let bytes = Vec::from_slice(alloc, "a : A".as_bytes())?;
    let mut source = MemSource::new(bytes, 100, Vec::new(alloc));
    // the second call fails, and no third is made
    let mut sink = MemSink::new(alloc, 7, vec![in alloc; 2]?);
    assert_eq!(rt; status(&rt, alloc, &["run"], &mut source, &mut sink)?, 5);
    assert_eq!(rt; sink.bytes(), "script ".as_bytes());
    // words of no form whose line can't be written leave the source alone
    let mut unread = MemSource::new(vec![in alloc; 7]?, 1, Vec::new(alloc));
    let mut failing = MemSink::new(alloc, 7, vec![in alloc; 1]?);
    assert_eq!(rt;
        status(&rt, alloc, &["walk"], &mut unread, &mut failing)?,
        5
    );
    let mut buf = [0u8; 4];
    assert_eq!(rt; unread.read(&mut buf), cv_io::Got::Bytes(1));
    Ok(())
}
