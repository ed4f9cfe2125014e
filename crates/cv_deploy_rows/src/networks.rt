//! Networks worked out by hand.

use crate::compiled::check_rows;
use std::test::Fail;

#[test]
fn networks_of_scripts(rt: HostRuntime) -> Result<(), Fail> {
    let rows = [
        ("", r##"{"actors":[],"connections":[]}"##),
        (
            "src : std.Constant(data=7, n=2)\nsnk : io.Print()\nsrc.token > snk.token\n",
            r##"{"actors":[["src","std.Constant",[7,2],null],["snk","io.Print",[],null]],"connections":[[0,"token",1,"token"]]}"##,
        ),
        // a literal as a source becomes an actor
        (
            "snk : io.Print()\n5 > snk.token\n",
            r##"{"actors":[["snk","io.Print",[],null],["#1","std.Constant",[5,-1],null]],"connections":[[1,"token",0,"token"]]}"##,
        ),
        // an inport that `voidport` feeds has no connection
        (
            "snk : io.Print()\nvoidport > snk.token\n",
            r##"{"actors":[["snk","io.Print",[],null]],"connections":[]}"##,
        ),
        // two readers of one outport, by consumer
        (
            "src : std.Counter()\na : io.Print()\nb : io.Print()\nsrc.integer > b.token, a.token\n",
            r##"{"actors":[["src","std.Counter",[1],null],["a","io.Print",[],null],["b","io.Print",[],null]],"connections":[[0,"integer",1,"token"],[0,"integer",2,"token"]]}"##,
        ),
        // a way through a component
        (
            "component Pass() in -> out { .in > .out }\nsnk : io.Print()\np : Pass()\n7 > p.in\np.out > snk.token\n",
            r##"{"actors":[["snk","io.Print",[],null],["#1","std.Constant",[7,-1],null]],"connections":[[1,"token",0,"token"]]}"##,
        ),
        (
            "component Pass() in -> out { .in > .out }\nsnk : io.Print()\np : Pass()\nvoidport > p.in\np.out > snk.token\n",
            r##"{"actors":[["snk","io.Print",[],null]],"connections":[]}"##,
        ),
        // an argument, a constant, and a value as a source inside a component
        (
            "component Ramp(step) -> out {\nc : std.CountTimer(sleep=0.5, steps=3)\nm : math.Multiply()\nc.integer > m.a\nstep > m.b\nm.result > .out\n}\ndefine STEP = 10\nr : Ramp(step=STEP)\nsnk : io.Print()\nr.out > snk.token\n",
            r##"{"actors":[["r/c","std.CountTimer",[500,1,3],null],["r/m","math.Multiply",[],null],["r/#1","std.Constant",[10,-1],null],["snk","io.Print",[],null]],"connections":[[0,"integer",1,"a"],[2,"token",1,"b"],[1,"result",3,"token"]]}"##,
        ),
    ];
    check_rows(&rt, rt.alloc(), &rows)
}
