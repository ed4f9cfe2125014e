//! The worked rows of the whole program, over sources and sinks in memory.
#![tactic(auto)]

use cv_io::{MemSink, MemSource, OpenGate};
use cv_top::{Outcome, calvin};
use std::alloc::{AllocError, Global};
use std::thread::Threads;

#[cfg(test)]
mod agreeing;
#[cfg(test)]
mod commands;
#[cfg(test)]
mod compiling;
#[cfg(test)]
mod networks;
#[cfg(test)]
mod nodes;
#[cfg(test)]
mod reading;
#[cfg(test)]
mod tracing;

/// The answer of the top call on these words, source and sink.
pub fn answer<R: Threads + Sync>(
    rt: &R,
    alloc: Global,
    words: &[&str],
    source: &mut MemSource,
    sink: &mut MemSink,
) -> Result<Outcome, AllocError> {
    let mut list = Vec::new(alloc);
    for word in words {
        list.push(String::from_str(alloc, word)?)?;
    }
    Ok(calvin(rt, alloc, list.as_slice(), source, sink, &OpenGate))
}

/// The status of the top call on these words, source and sink.
pub fn status<R: Threads + Sync>(
    rt: &R,
    alloc: Global,
    words: &[&str],
    source: &mut MemSource,
    sink: &mut MemSink,
) -> Result<u8, AllocError> {
    Ok(answer(rt, alloc, words, source, sink)?.status)
}

#[cfg(test)]
mod tests {
    use super::*;
    use std::test::Fail;

    const CONSTANT: &str =
        "src : std.Constant(data=7, n=2)\nsnk : io.Print()\nsrc.token > snk.token\n";

    const CHAIN: &str =
        "src : std.Constant(data=-3)\nmid : std.Identity()\nsnk : io.Print()\nsrc.token > mid.token\nmid.token > snk.token\n";

    const PRINTED: &str = "snk 7\nsnk 7\nfirings 4\nend quiescent\n";

    const NOTHING: &str = "firings 0\nend quiescent\n";

    /// A row: words, script, status, and the bytes on the sink.
    struct Row {
        words: &'static [&'static str],
        script: &'static str,
        status: u8,
        text: &'static str,
    }

    const ROWS: [Row; 24] = [
        Row {
            words: &["run"],
            script: CONSTANT,
            status: 0,
            text: PRINTED,
        },
        Row {
            words: &["run", "--firings", "100"],
            script: CONSTANT,
            status: 0,
            text: PRINTED,
        },
        Row {
            words: &["run", "--firings", "4"],
            script: CONSTANT,
            status: 0,
            text: "snk 7\nsnk 7\nfirings 4\nend spent\n",
        },
        Row {
            words: &["run", "--firings", "000000001"],
            script: CONSTANT,
            status: 0,
            text: "firings 1\nend spent\n",
        },
        Row {
            words: &["run"],
            script: "",
            status: 0,
            text: NOTHING,
        },
        Row {
            words: &["run", "--firings", "0"],
            script: "",
            status: 0,
            text: "firings 0\nend spent\n",
        },
        Row {
            words: &["run"],
            script: "a : std.Identity()\na.token > a.token\n",
            status: 0,
            text: NOTHING,
        },
        Row {
            words: &["run"],
            script: CHAIN,
            status: 0,
            text: "snk -3\nfirings 3\nend quiescent\n",
        },
        // Prints stand in the order of their paths' bytes, and an outport without a join is void.
        Row {
            words: &["run"],
            script: "b:std.Constant(data=1)a:std.Constant(data=2)v:std.Constant(n=1,data=3)z:io.Print()Z:io.Print()b.token>z.token a.token>Z.token",
            status: 0,
            text: "Z 2\nz 1\nfirings 5\nend quiescent\n",
        },
        // Any literal may be given as data.
        Row {
            words: &["run"],
            script: "src : std.Constant(data={\"b\":[1,null],\"a\":true,\"b\":\"x\"})\nsnk : io.Print()\nsrc.token > snk.token\n",
            status: 0,
            text: "snk {\"a\":true,\"b\":\"x\"}\nfirings 2\nend quiescent\n",
        },
        Row {
            words: &["run"],
            script: "src : std.Constant(n=1, data=[\"\\u00e9\\n\", -0, 007])snk:io.Print()src.token>snk.token// the end",
            status: 0,
            text: "snk [\"\u{e9}\\n\",0,7]\nfirings 2\nend quiescent\n",
        },
        Row {
            words: &["run"],
            script: "src : std.Constant(data=null)\nmid : std.Identity(dump=true)\nsnk : io.Print()\nsrc.token > mid.token\nmid.token > snk.token\n",
            status: 0,
            text: "snk null\nfirings 3\nend quiescent\n",
        },
        // Kinds of both families: a source in time, batches, sums past 64 bits, division towards zero, and a join, in whose
        // actions the first inport comes first.
        Row {
            words: &["run"],
            script: "src : std.CountTimer(sleep=0.1, steps=5)\nmid : std.Identity()\nsnk : io.Print()\nsrc.integer > mid.token\nmid.token > snk.token\n",
            status: 0,
            text: "snk 1\nsnk 2\nsnk 3\nsnk 4\nsnk 5\nfirings 15\nend quiescent\n",
        },
        Row {
            words: &["run"],
            script: "src : std.Sequence(data=[1,2,3,4,5,6,7,8,9])\nbat : flow.Batch(n=4)\nsnk : io.Print()\nsrc.token > bat.token\nbat.list > snk.token\n",
            status: 0,
            text: "snk [1,2,3,4]\nsnk [5,6,7,8]\nfirings 13\nend quiescent\n",
        },
        Row {
            words: &["run"],
            script: "src : std.Sequence(data=[9223372036854775807, 1])\nsum : std.Sum()\nsnk : io.Print()\nsrc.token > sum.integer\nsum.integer > snk.token\n",
            status: 0,
            text: "snk 9223372036854775807\nsnk null\nfirings 6\nend quiescent\n",
        },
        Row {
            words: &["run"],
            script: "a:std.Sequence(data=[-7])b:std.Constant(data=2)d:math.Divide()q:io.Print()a.token>d.a b.token>d.b d.result>q.token x:std.Sequence(data=[-7])y:std.Constant(data=2)m:math.Modulo()r:io.Print()x.token>m.a y.token>m.b m.result>r.token",
            status: 0,
            text: "q -3\nr -1\nfirings 8\nend quiescent\n",
        },
        Row {
            words: &["run"],
            script: "a:std.Sequence(data=[1,2])b:std.Sequence(data=[3])j:flow.Join()p:io.Print()a.token>j.token_1 b.token>j.token_2 j.token>p.token",
            status: 0,
            text: "p 1\np 2\np 3\nfirings 9\nend quiescent\n",
        },
        // Several readers of one outport each get every token.
        Row {
            words: &["run"],
            script: "a:std.Constant(data=1)b:io.Print()c:io.Print()a.token>b.token, c.token",
            status: 0,
            text: "b 1\nc 1\nfirings 3\nend quiescent\n",
        },
        // A sum that is fed back through a first token.
        Row {
            words: &["run"],
            script: "one : std.Constant(data=1, n=3)\nini : flow.Init(data=0)\nadd : math.Add()\nsnk : io.Print()\none.token > add.a\nini.out > add.b\nadd.result > ini.in, snk.token\n",
            status: 0,
            text: "snk 1\nsnk 2\nsnk 3\nfirings 13\nend quiescent\n",
        },
        Row {
            words: &[],
            script: CONSTANT,
            status: 2,
            text: "usage\n",
        },
        Row {
            words: &["run", "--firings"],
            script: CONSTANT,
            status: 2,
            text: "usage\n",
        },
        Row {
            words: &["run", "--firings", "100001"],
            script: CONSTANT,
            status: 2,
            text: "usage\n",
        },
        Row {
            words: &["run", "--firings", "0000000001"],
            script: CONSTANT,
            status: 2,
            text: "usage\n",
        },
        Row {
            words: &["run", "--firings", "-1"],
            script: CONSTANT,
            status: 2,
            text: "usage\n",
        },
    ];

    // Two sources that never end, each with a print of its own: neither keeps the other from printing.
    #[test]
    fn endless_sources_take_turns(rt: HostRuntime) -> Result<(), Fail> {
        let alloc = rt.alloc();
        let script =
            "a:std.Constant(data=1,n=-1)b:std.Constant(data=2,n=-1)p:io.Print()q:io.Print()a.token>p.token b.token>q.token";
        let bytes = Vec::from_slice(alloc, script.as_bytes())?;
        let mut source = MemSource::new(bytes, 7, Vec::new(alloc));
        let mut sink = MemSink::new(alloc, 5, Vec::new(alloc));
        let words = ["run", "--firings", "20"];
        assert_eq!(rt; status(&rt, alloc, &words, &mut source, &mut sink)?, 0);
        assert!(rt; sink.bytes().starts_with("p 1\n".as_bytes()));
        assert!(rt;
            sink.bytes()
                .ends_with("q 2\nfirings 20\nend spent\n".as_bytes())
        );
        Ok(())
    }

    #[test]
    fn rows_have_their_texts(rt: HostRuntime) -> Result<(), Fail> {
        let alloc = rt.alloc();
        for row in &ROWS {
            let bytes = Vec::from_slice(alloc, row.script.as_bytes())?;
            let mut source = MemSource::new(bytes, 7, Vec::new(alloc));
            let mut sink = MemSink::new(alloc, 5, Vec::new(alloc));
            assert_eq!(rt;
                status(&rt, alloc, row.words, &mut source, &mut sink)?,
                row.status
            );
            assert_eq!(rt; sink.bytes(), row.text.as_bytes());
        }
        Ok(())
    }

    /// Scripts of no meaning, with the place and the code of each.
    const REFUSED: [(&str, &str); 51] = [
        // No lexemes.
        ("a : std.Constant(data=\"x", "1:23 OpenText"),
        (
            "a : std.Constant(data=9223372036854775808)",
            "1:23 WideNumber",
        ),
        ("a : io.Print()\n  ?", "2:3 BadChar"),
        ("\n\n /* x", "3:2 OpenComment"),
        ("\"a\\q\" > b.c", "1:3 BadEscape"),
        (LONG, "1:1 LongName"),
        // A fault of the lexemes counts though one of the grammar stands further left.
        ("a : A ?", "1:7 BadChar"),
        // No script.
        ("a : std.Counter() >", "1:19 Unexpected"),
        ("a : A", "1:6 Unexpected"),
        ("a : A\n", "2:1 Unexpected"),
        ("null : std.Constant(data=1)", "1:6 Unexpected"),
        (
            "a : io.Print() // no join\nsrc.token > \n",
            "3:1 Unexpected",
        ),
        (
            "a : std.Constant(data=[[[[[[[[[[[[[[[[[1]]]]]]]]]]]]]]]]])",
            "1:39 TooDeep",
        ),
        // Components, names and arguments.
        ("a : Nope()", "1:1 NoComponent"),
        (
            "component A() -> out { x : B() x.out > .out }\ncomponent B() -> out { y : A() y.out > .out }\na : A()",
            "2:24 Recursion",
        ),
        ("component A(p) -> {}\na : A()", "2:1 ArgCount"),
        ("a : std.Constant(data=x)", "1:18 NoArg"),
        ("b:io.Print() X > b.token", "1:14 NoArg"),
        (
            "a : std.Constant(data=1)\na : std.Constant(data=1)",
            "2:1 DoubleName",
        ),
        ("a : std.Constant(data=1, data=1)", "1:26 DoubleName"),
        (
            "a : std.Identity(dump=true, dump=true)a.token>a.token",
            "1:29 DoubleName",
        ),
        // Kinds and their arguments.
        ("a : std.Nope()", "1:1 NoKind"),
        ("src : std.Constant(data=0.5)", "1:20 Fraction"),
        ("src : std.CountTimer(sleep=0.0005)", "1:22 BadArg"),
        ("a : std.Constant()", "1:1 BadArg"),
        ("a : std.Constant(n=1)", "1:1 BadArg"),
        ("a : std.Constant(data=1, n=-2)", "1:26 BadArg"),
        ("a : std.Constant(data=1, n=\"1\")", "1:26 BadArg"),
        ("a : std.Constant(data=1, x=1)", "1:26 BadArg"),
        ("a : std.Identity(dump=1)a.token>a.token", "1:18 BadArg"),
        ("a : std.Identity(data=1)a.token>a.token", "1:18 BadArg"),
        (
            "a:std.Constant(data=1)b:io.Print(x=1)a.token>b.token",
            "1:34 BadArg",
        ),
        (
            "a : math.Compare(op=\"<>\")\n1 > a.a\n2 > a.b",
            "1:18 BadArg",
        ),
        // Ports.
        ("a : std.Constant(data=1)\na.nope > a.nope", "2:1 NoPort"),
        (
            "a:std.Constant(data=1)b:io.Print()a.nope>b.token",
            "1:35 NoPort",
        ),
        (
            "a:std.Constant(data=1)b:io.Print()a.token>b.nope",
            "1:43 NoPort",
        ),
        (
            "a:std.Constant(data=1)b:io.Print()c.token>b.token",
            "1:35 NoPort",
        ),
        ("b:io.Print() .x > b.token", "1:14 NoPort"),
        // Inports that are joined not once.
        (
            "a : std.Constant(data=1)\nb : io.Print()\na.token > b.token\na.token > b.token",
            "4:11 FedTwice",
        ),
        (
            "a:std.Constant(data=1)c:std.Constant(data=1)b:io.Print()a.token>b.token c.token>b.token",
            "1:81 FedTwice",
        ),
        ("a : io.Print()", "1:1 Unfed"),
        // A way of own ports that goes round comes from no actor.
        (
            "component C() p -> p { .p > .p }\nc : C()\nb : io.Print()\nc.p > c.p, b.token",
            "3:1 Unfed",
        ),
        (
            "src : std.Sequence(data=[1])\nbat : flow.Batch(n=5)\nsrc.token > bat.token",
            "2:1 BatchOverQueue",
        ),
        // Of two faults the first in order counts: of actors in order the argument, and then the kind; then of joins the
        // port, though it is the second feed; then inports.
        ("a : std.Constant(n=-2)\nb : std.Nope()", "1:18 BadArg"),
        ("a.x > b.y\na : std.Nope()", "2:1 NoKind"),
        (
            "a : std.Constant(data=1)\nb : io.Print()\na.nope > b.token\na.token > b.token",
            "3:1 NoPort",
        ),
        (
            "c : io.Print()\na : std.Counter()\na.nope > c.token",
            "3:1 NoPort",
        ),
        // Rules, where nothing else is wrong.
        ("rule r : node_attr_match(index=[\"a\", {}])", "1:1 Unbuilt"),
        ("apply a : r", "1:1 Unbuilt"),
        ("a : io.Print()\napply a : r", "1:1 Unfed"),
        (
            "voidport > a.token apply a : r a : io.Print()",
            "1:20 Unbuilt",
        ),
    ];

    /// A name of 65 letters.
    const LONG: &str = "aaaaaaaaaaaaaaaaaaaaaaaaaaaaaaaaaaaaaaaaaaaaaaaaaaaaaaaaaaaaaaaaa";

    #[test]
    fn scripts_have_their_faults(rt: HostRuntime) -> Result<(), Fail> {
        let alloc = rt.alloc();
        for (script, fault) in &REFUSED {
            let bytes = Vec::from_slice(alloc, script.as_bytes())?;
            let mut source = MemSource::new(bytes, 7, Vec::new(alloc));
            let mut sink = MemSink::new(alloc, 5, Vec::new(alloc));
            assert_eq!(rt; status(&rt, alloc, &["run"], &mut source, &mut sink)?, 3);
            let text = format!(in alloc; "script {fault}\n")?;
            assert_eq!(rt; sink.bytes(), text.as_bytes());
        }
        Ok(())
    }

    #[test]
    fn bytes_that_are_no_text_are_refused_first(rt: HostRuntime) -> Result<(), Fail> {
        let alloc = rt.alloc();
        let mut source = MemSource::new(vec![in alloc; 255u8; 3]?, 7, Vec::new(alloc));
        let mut sink = MemSink::new(alloc, 5, Vec::new(alloc));
        assert_eq!(rt; status(&rt, alloc, &["run"], &mut source, &mut sink)?, 3);
        assert_eq!(rt; sink.bytes(), "script 1:1 NotUtf8\n".as_bytes());
        Ok(())
    }

    #[test]
    fn failing_devices_have_their_ends(rt: HostRuntime) -> Result<(), Fail> {
        let alloc = rt.alloc();
        let words = ["run"];
        let bytes = Vec::from_slice(alloc, CONSTANT.as_bytes())?;
        let mut source = MemSource::new(bytes, 100, Vec::new(alloc));
        let mut sink = MemSink::new(alloc, 8, vec![in alloc; 2]?);
        assert_eq!(rt; status(&rt, alloc, &words, &mut source, &mut sink)?, 5);
        assert_eq!(rt; sink.bytes(), "snk 7\nsn".as_bytes());

        let mut failing = MemSource::new(Vec::new(alloc), 100, vec![in alloc; 1]?);
        let mut told = MemSink::new(alloc, 100, Vec::new(alloc));
        assert_eq!(rt; status(&rt, alloc, &words, &mut failing, &mut told)?, 4);
        assert_eq!(rt; told.bytes(), "read\n".as_bytes());
        Ok(())
    }

    #[test]
    fn the_limit_is_one_mebibyte(rt: HostRuntime) -> Result<(), Fail> {
        let alloc = rt.alloc();
        let words = ["run"];
        let mut just = MemSource::new(vec![in alloc; 32u8; 1 << 20]?, 1 << 16, Vec::new(alloc));
        let mut sink = MemSink::new(alloc, 100, Vec::new(alloc));
        assert_eq!(rt; status(&rt, alloc, &words, &mut just, &mut sink)?, 0);
        assert_eq!(rt; sink.bytes(), NOTHING.as_bytes());

        let mut comment = vec![in alloc; b'/'; 2]?;
        comment.resize(1 << 20, b'x')?;
        let mut source = MemSource::new(comment, 1 << 16, Vec::new(alloc));
        let mut printed = MemSink::new(alloc, 100, Vec::new(alloc));
        assert_eq!(rt; status(&rt, alloc, &words, &mut source, &mut printed)?, 0);
        assert_eq!(rt; printed.bytes(), NOTHING.as_bytes());

        let mut over = MemSource::new(
            vec![in alloc; 32u8; (1 << 20) + 1]?,
            1 << 16,
            Vec::new(alloc),
        );
        let mut told = MemSink::new(alloc, 100, Vec::new(alloc));
        assert_eq!(rt; status(&rt, alloc, &words, &mut over, &mut told)?, 8);
        assert_eq!(rt; told.bytes(), "long\n".as_bytes());
        Ok(())
    }
}
