//! Rows of `compile`, and of components, constants and values as sources.

use super::*;
use std::test::Fail;

/// A source of two tokens and a print.
const CONSTANT: &str = "src : std.Constant(data=7, n=2)\nsnk : io.Print()\nsrc.token > snk.token\n";

/// A component with an argument, a description and a constant as its argument.
const RAMP: &str = "component Ramp(step) -> out {\n\
\"\"\"Counts and scales.\"\"\"\n\
c : std.CountTimer(sleep=0.5, steps=3)\n\
m : math.Multiply()\n\
c.integer > m.a\n\
step > m.b\n\
m.result > .out\n\
}\n\
define STEP = 10\n\
r : Ramp(step=STEP)\n\
snk : io.Print()\n\
r.out > snk.token\n";

/// A sum that is fed back, with two readers.
const FEEDBACK: &str = "one : std.Constant(data=1, n=3)\n\
ini : flow.Init(data=0)\n\
add : math.Add()\n\
snk : io.Print()\n\
one.token > add.a\n\
ini.out > add.b\n\
add.result > ini.in, snk.token\n";

#[test]
fn networks_have_their_texts(rt: HostRuntime) -> Result<(), Fail> {
    let alloc = rt.alloc();
    // the script, and its network
    let rows = [
        ("", "{\"actors\":[],\"connections\":[]}\n"),
        (
            CONSTANT,
            "{\"actors\":[[\"src\",\"std.Constant\",[7,2],null],[\"snk\",\"io.Print\",[],null]],\"connections\":[[0,\"token\",1,\"token\"]]}\n",
        ),
        (
            "snk : io.Print()\n5 > snk.token\n",
            "{\"actors\":[[\"snk\",\"io.Print\",[],null],[\"#1\",\"std.Constant\",[5,-1],null]],\"connections\":[[1,\"token\",0,\"token\"]]}\n",
        ),
        (
            "snk : io.Print()\nvoidport > snk.token\n",
            "{\"actors\":[[\"snk\",\"io.Print\",[],null]],\"connections\":[]}\n",
        ),
        (
            RAMP,
            "{\"actors\":[[\"r/c\",\"std.CountTimer\",[500,1,3],null],[\"r/m\",\"math.Multiply\",[],null],[\"r/#1\",\"std.Constant\",[10,-1],null],[\"snk\",\"io.Print\",[],null]],\"connections\":[[0,\"integer\",1,\"a\"],[2,\"token\",1,\"b\"],[1,\"result\",3,\"token\"]]}\n",
        ),
        // connections stand by consumer, not as they are written
        (
            "src : std.Counter()\na : io.Print()\nb : io.Print()\nsrc.integer > b.token, a.token\n",
            "{\"actors\":[[\"src\",\"std.Counter\",[1],null],[\"a\",\"io.Print\",[],null],[\"b\",\"io.Print\",[],null]],\"connections\":[[0,\"integer\",1,\"token\"],[0,\"integer\",2,\"token\"]]}\n",
        ),
    ];
    for (script, text) in rows {
        let bytes = Vec::from_slice(alloc, script.as_bytes())?;
        let mut source = MemSource::new(bytes, 100, Vec::new(alloc));
        let mut sink = MemSink::new(alloc, 1000, Vec::new(alloc));
        assert_eq!(rt;
            status(&rt, alloc, &["compile"], &mut source, &mut sink)?,
            0
        );
        assert_eq!(rt; sink.bytes(), text.as_bytes());
    }
    Ok(())
}

#[test]
fn components_run(rt: HostRuntime) -> Result<(), Fail> {
    let alloc = rt.alloc();
    // the words, the script, and the text
    let rows = [
        (
            ["run", "--firings", "5"].as_slice(),
            "src : std.Counter()\nsrc.integer > voidport\n",
            "firings 5\nend spent\n",
        ),
        (
            ["run", "--firings", "100"].as_slice(),
            RAMP,
            "snk 10\nsnk 20\nsnk 30\nfirings 20\nend quiescent\n",
        ),
        (
            ["solo", "--firings", "100"].as_slice(),
            RAMP,
            "snk 10\nsnk 20\nsnk 30\nfirings 100\nend spent\n",
        ),
        (
            ["solo"].as_slice(),
            FEEDBACK,
            "snk 1\nsnk 2\nsnk 3\nfirings 13\nend quiescent\n",
        ),
        // a print that is void has no lines
        (
            ["run"].as_slice(),
            "b : io.Print()\nvoidport > b.token\n",
            "firings 0\nend quiescent\n",
        ),
        (
            ["run"].as_slice(),
            "a : std.Constant(data=1)\na.token > voidport\n",
            "firings 1\nend quiescent\n",
        ),
        (
            ["run"].as_slice(),
            "component A() -> {}\ndefine D = 1\n",
            "firings 0\nend quiescent\n",
        ),
    ];
    for (words, script, text) in rows {
        let bytes = Vec::from_slice(alloc, script.as_bytes())?;
        let mut source = MemSource::new(bytes, 100, Vec::new(alloc));
        let mut sink = MemSink::new(alloc, 1000, Vec::new(alloc));
        assert_eq!(rt; status(&rt, alloc, words, &mut source, &mut sink)?, 0);
        assert_eq!(rt; sink.bytes(), text.as_bytes());
    }
    let mut source = MemSource::new(Vec::new(alloc), 100, Vec::new(alloc));
    let mut sink = MemSink::new(alloc, 1000, Vec::new(alloc));
    assert_eq!(rt;
        status(&rt, alloc, &["compile", "x"], &mut source, &mut sink)?,
        2
    );
    assert_eq!(rt; sink.bytes(), "usage\n".as_bytes());
    Ok(())
}
