//! What `run` and `solo` print on the same scripts: the same where only deterministic actors lead to a print, and maybe not
//! where a join does.

use super::*;
use std::process::Abort;
use std::test::Fail;

/// Scripts without a join or a valve, and what both commands print. `run` moves tokens over queues and waits for their
/// space, `solo` fires each actor in turn over lists without end.
const AGREEING: [(&str, &str); 9] = [
    (
        "a:std.Sequence(data=[1,2,3])s:std.Sum()p:io.Print()a.token>s.integer s.integer>p.token",
        "p 1\np 3\np 6\nfirings 9\nend quiescent\n",
    ),
    // a print that stands before what it is fed by
    (
        "p:io.Print()b:flow.Batch(n=2)a:std.Constant(data=\"x\",n=5)a.token>b.token b.list>p.token",
        "p [\"x\",\"x\"]\np [\"x\",\"x\"]\nfirings 9\nend quiescent\n",
    ),
    // a loop
    (
        "i:flow.Init(data=7)d:flow.Dealternate2()p:io.Print()i.out>d.token d.token_1>i.in d.token_2>p.token",
        "p 7\nfirings 5\nend quiescent\n",
    ),
    // a token that is never taken
    (
        "a:std.Sequence(data=[1,2,3])b:std.Constant(data=10,n=2)m:math.Add()p:io.Print()a.token>m.a b.token>m.b m.result>p.token",
        "p 11\np 12\nfirings 9\nend quiescent\n",
    ),
    // two ways of different length that meet
    (
        "a:std.Sequence(data=[1,2,3,4,5])d:flow.Dealternate2()i:std.Identity()x:flow.Alternate2()p:io.Print()a.token>d.token d.token_1>i.token i.token>x.token_1 d.token_2>x.token_2 x.token>p.token",
        "p 1\np 2\np 3\np 4\np 5\nfirings 23\nend quiescent\n",
    ),
    // a way that is chosen by a token
    (
        "c:std.Sequence(data=[true,false,true])a:std.Sequence(data=[1,2,3])s:flow.Select()t:io.Print()f:io.Print()c.token>s.select a.token>s.data s.case_true>t.token s.case_false>f.token",
        "f 2\nt 1\nt 3\nfirings 12\nend quiescent\n",
    ),
    // actors in time
    (
        "a:std.CountTimer(sleep=0.1,start=4,steps=2)d:std.Delay(delay=0.5)p:io.Print()a.integer>d.token d.token>p.token",
        "p 4\np 5\nfirings 8\nend quiescent\n",
    ),
    // more tokens than the queues hold
    (
        "p:io.Print()i:std.Identity()a:std.Constant(data=0,n=9)a.token>i.token i.token>p.token",
        "p 0\np 0\np 0\np 0\np 0\np 0\np 0\np 0\np 0\nfirings 27\nend quiescent\n",
    ),
    // tokens that are dropped
    (
        "a:std.Sequence(data=[1,2,3,4,5,6,7])e:flow.Every(n=3)p:io.Print()a.token>e.token e.token>p.token",
        "p 3\np 6\nfirings 16\nend quiescent\n",
    ),
];

/// A join, before which one way is longer than the other, and a print beside it that it does not lead to.
const JOINED: &str =
    "a:std.Sequence(data=[1,2])b:std.Sequence(data=[3,4])i:std.Identity()j:flow.Join()q:io.Print()c:std.Sequence(data=[5,6])p:io.Print()a.token>i.token i.token>j.token_1 b.token>j.token_2 j.token>q.token c.token>p.token";

/// `run` moves the token 3 to the join while 1 is still on its way.
const JOINED_RUN: &str = "p 5\np 6\nq 3\nq 1\nq 2\nq 4\nfirings 18\nend quiescent\n";

/// In a round of `solo` the token 1 goes all the way before the join is asked.
const JOINED_SOLO: &str = "p 5\np 6\nq 1\nq 2\nq 3\nq 4\nfirings 18\nend quiescent\n";

/// Runs the command on the script, and holds what it prints against the text.
fn prints<R: Threads + Sync + Abort>(
    rt: &R,
    alloc: Global,
    command: &str,
    script: &str,
    text: &str,
) -> Result<(), Fail> {
    let bytes = Vec::from_slice(alloc, script.as_bytes())?;
    let mut source = MemSource::new(bytes, 100, Vec::new(alloc));
    let mut sink = MemSink::new(alloc, 100, Vec::new(alloc));
    let words = [command];
    assert_eq!(rt; status(rt, alloc, &words, &mut source, &mut sink)?, 0);
    assert_eq!(rt; sink.bytes(), text.as_bytes());
    Ok(())
}

#[test]
fn run_and_solo_agree(rt: HostRuntime) -> Result<(), Fail> {
    let alloc = rt.alloc();
    for (script, text) in &AGREEING {
        prints(&rt, alloc, "run", script, text)?;
        prints(&rt, alloc, "solo", script, text)?;
    }
    Ok(())
}

#[test]
fn a_join_depends_on_the_order_of_firings(rt: HostRuntime) -> Result<(), Fail> {
    let alloc = rt.alloc();
    prints(&rt, alloc, "run", JOINED, JOINED_RUN)?;
    prints(&rt, alloc, "solo", JOINED, JOINED_SOLO)
}
