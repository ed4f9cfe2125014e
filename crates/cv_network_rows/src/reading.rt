//! Texts that are read as networks, and those that are refused.

use cv_flow::FlowKind;
use cv_kinds::{Connection, Kind, Network};
use cv_network::{NetFault, network_read, network_text};
use cv_token::Token;
use std::alloc::Global;
use std::test::Fail;

/// A constant that gives 7 twice, and a print of what it gives.
const CONSTANT_TO_PRINT: &str =
    r##"{"actors":[["src","std.Constant",[7,2],null],["snk","io.Print",[],null]],"connections":[[0,"token",1,"token"]]}"##;

/// The network of a text.
fn network_of(alloc: Global, text: &str) -> Result<Network, Fail> {
    match network_read(alloc, text.as_bytes()) {
        Ok(net) => Ok(net),
        Err(_) => Err(Fail::new("no network")),
    }
}

fn is_refused(alloc: Global, text: &str) -> bool {
    match network_read(alloc, text.as_bytes()) {
        Err(NetFault::BadNetwork) => true,
        _ => false,
    }
}

#[test]
fn a_text_is_read_as_its_network(rt: HostRuntime) -> Result<(), Fail> {
    let alloc = rt.alloc();
    let net = network_of(alloc, CONSTANT_TO_PRINT)?;
    assert_eq!(rt; net.actors().len(), 2);
    let (Some(source), Some(print)) = (net.actors().get(0), net.actors().get(1)) else {
        return Err(Fail::new("no actors"));
    };
    assert_eq!(rt; source.path.as_str(), "src");
    assert!(rt; source.kind == Kind::Flow(FlowKind::Constant));
    assert_eq!(rt; source.args.len(), 2);
    assert!(rt; matches!(source.args.get(0), Some(Token::Int(7))));
    assert!(rt; matches!(source.args.get(1), Some(Token::Int(2))));
    assert_eq!(rt; print.path.as_str(), "snk");
    assert!(rt; print.kind == Kind::Flow(FlowKind::Print));
    assert_eq!(rt; print.args.len(), 0);
    let joined = Connection {
        from: 0,
        out: 0,
        to: 1,
        inp: 0,
    };
    assert!(rt; net.connections() == [joined].as_slice());
    Ok(())
}

/// Texts of networks: none, several readers of an outport, two ports of an actor, paths with steps, and deep arguments.
const TEXTS: [&str; 5] = [
    r##"{"actors":[],"connections":[]}"##,
    r##"{"actors":[["src","std.Counter",[1],null],["a","io.Print",[],null],["b","io.Print",[],null]],"connections":[[0,"integer",1,"token"],[0,"integer",2,"token"]]}"##,
    r##"{"actors":[["r/c","std.CountTimer",[500,1,3],null],["r/m","math.Multiply",[],null],["r/#1","std.Constant",[10,-1],null]],"connections":[[0,"integer",1,"a"],[2,"token",1,"b"]]}"##,
    r##"{"actors":[["é\n","flow.Select",[],null],["p","io.Print",[],null]],"connections":[[0,"case_false",1,"token"]]}"##,
    r##"{"actors":[["s","std.Constant",[{"a":[null,true,"\u0001"],"b":-5},1],null]],"connections":[]}"##,
];

#[test]
fn what_is_read_is_written_as_it_was(rt: HostRuntime) -> Result<(), Fail> {
    let alloc = rt.alloc();
    for text in TEXTS {
        let net = network_of(alloc, text)?;
        assert_eq!(rt; network_text(alloc, &net)?.as_str(), text);
    }
    Ok(())
}

/// Other spellings of a network: a space, an escape, a zero in front, keys turned, and a line feed at the end.
const SPELLINGS: [&str; 5] = [
    r##"{"actors": [["snk","io.Print",[],null]],"connections":[]}"##,
    r##"{"actors":[["\u0073nk","io.Print",[],null]],"connections":[]}"##,
    r##"{"actors":[["src","std.Constant",[7,02],null]],"connections":[]}"##,
    r##"{"connections":[],"actors":[["snk","io.Print",[],null]]}"##,
    "{\"actors\":[],\"connections\":[]}\n",
];

/// What no network is: a port, a kind, an argument or an actor that is not there, a field too many or too few, a rule that is
/// no rule, two actors at one path, and connections out of order, or two to one inport.
const PARTS: [&str; 13] = [
    r##"{"actors":[["src","std.Constant",[7,2],null],["snk","io.Print",[],null]],"connections":[[0,"token",1,"nope"]]}"##,
    r##"{"actors":[["src","std.Constant",[7,2],null],["snk","io.Print",[],null]],"connections":[[0,"nope",1,"token"]]}"##,
    r##"{"actors":[["src","std.Nope",[],null]],"connections":[]}"##,
    r##"{"actors":[["src","std.Constant",[7],null]],"connections":[]}"##,
    r##"{"actors":[["src","std.Constant",[7,-2],null]],"connections":[]}"##,
    r##"{"actors":[["src","std.Constant",[7,2],null],["snk","io.Print",[],null]],"connections":[[2,"token",1,"token"]]}"##,
    r##"{"actors":[["src","std.Constant",[7,2],null],["snk","io.Print",[],null]],"connections":[[65536,"token",1,"token"]]}"##,
    r##"{"actors":[["snk","io.Print",[]]],"connections":[]}"##,
    r##"{"actors":[["snk","io.Print",[],[]]],"connections":[]}"##,
    r##"{"actors":[]}"##,
    r##"{"actors":[["snk","io.Print",[],null],["snk","io.Print",[],null]],"connections":[]}"##,
    r##"{"actors":[["c","std.Counter",[1],null],["a","io.Print",[],null],["b","io.Print",[],null]],"connections":[[0,"integer",2,"token"],[0,"integer",1,"token"]]}"##,
    r##"{"actors":[["c","std.Counter",[1],null],["d","std.Counter",[1],null],["a","io.Print",[],null]],"connections":[[0,"integer",2,"token"],[1,"integer",2,"token"]]}"##,
];

#[test]
fn no_other_text_is_read(rt: HostRuntime) -> Result<(), Fail> {
    let alloc = rt.alloc();
    for text in SPELLINGS {
        assert!(rt; is_refused(alloc, text), "{text}");
    }
    for text in PARTS {
        assert!(rt; is_refused(alloc, text), "{text}");
    }
    Ok(())
}
