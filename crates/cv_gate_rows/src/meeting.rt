//! The workers of a round are at work at once.

use crate::turning::{answer, reaches};
use cv_io::{Gate, MemSink};
use std::sync::atomic::AtomicU32;
use std::sync::atomic::Ordering::SeqCst;
use std::test::Fail;

/// Holds the worker of each of two nodes in round 1 until that of the other one has come to it.
#[derive(Drop)]
struct Meeting {
    /// How many workers came.
    came: AtomicU32,
    /// How many workers went on because both had come, and not because of the limit.
    met: AtomicU32,
}

impl Gate for Meeting {
    fn pass(&self, _node: u16, round: u32, _at: u32) {
        if round == 1 {
            self.came.fetch_add(1, SeqCst);
            if reaches(&self.came, 2) {
                self.met.fetch_add(1, SeqCst);
            }
        }
    }

    fn leave(&self, _node: u16, _round: u32, _at: u32) {}
}

#[test]
fn two_workers_at_once(rt: HostRuntime) -> Result<(), Fail> {
    let alloc = rt.alloc();
    let script = "src : std.Constant(data=7, n=2)\nsnk : io.Print()\nsrc.token > snk.token\n";
    let mut sink = MemSink::new(alloc, 100, Vec::new(alloc));
    let gate = Meeting {
        came: AtomicU32::new(0),
        met: AtomicU32::new(0),
    };
    let words = ["run", "--nodes", "2"];
    let outcome = answer(&rt, alloc, &words, script, &mut sink, &gate)?;
    assert_eq!(rt; outcome.status, 0);
    assert_eq!(rt; gate.came.load(SeqCst), 2);
    assert_eq!(rt; gate.met.load(SeqCst), 2);
    assert_eq!(rt;
        sink.bytes(),
        "snk 7\nsnk 7\nfirings 4\nend quiescent\n".as_bytes()
    );
    Ok(())
}
