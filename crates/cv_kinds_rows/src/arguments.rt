//! Each argument of each kind: good values, the first bad one on each side, and values of a wrong type.

use cv_kinds::{ArgFault, ArgList, Argument, Given, check_args, find};
use cv_token::{Items, Text, Token, read_tree, text};
use std::alloc::{AllocError, Global};
use std::process::Abort;
use std::test::Fail;

/// A kind, its arguments as a script writes them with a space between each two, and what `check_args` answers: the list, or
/// the fault and the place.
type Row = (&'static str, &'static str, &'static str);

const SOURCES: [Row; 49] = [
    ("std.Constant", "data=7", "[7,1]"),
    ("std.Constant", "n=-1 data={}", "[{},-1]"),
    (
        "std.Constant",
        "data=null n=9223372036854775807",
        "[null,9223372036854775807]",
    ),
    ("std.Constant", "data=7 n=-2", "BadArg 1"),
    ("std.Constant", "data=7 n=null", "BadArg 1"),
    ("std.Constant", "data=7 n=1.5", "Fraction 1"),
    ("std.Constant", "data=7.5", "Fraction 0"),
    ("std.Constant", "n=3", "Missing"),
    ("std.Counter", "", "[1]"),
    (
        "std.Counter",
        "start=-9223372036854775808",
        "[-9223372036854775808]",
    ),
    (
        "std.Counter",
        "start=9223372036854775807",
        "[9223372036854775807]",
    ),
    ("std.Counter", "start=\"1\"", "BadArg 0"),
    ("std.Counter", "start=0.5", "Fraction 0"),
    ("std.CountTimer", "", "[1000,1,-1]"),
    ("std.CountTimer", "sleep=0", "[0,1,-1]"),
    ("std.CountTimer", "sleep=-1", "BadArg 0"),
    ("std.CountTimer", "sleep=2147483", "[2147483000,1,-1]"),
    ("std.CountTimer", "sleep=2147484", "BadArg 0"),
    ("std.CountTimer", "sleep=2147483.647", "[2147483647,1,-1]"),
    ("std.CountTimer", "sleep=2147483.648", "BadArg 0"),
    ("std.CountTimer", "sleep=99999999999999999999.5", "BadArg 0"),
    ("std.CountTimer", "sleep=0.5", "[500,1,-1]"),
    ("std.CountTimer", "sleep=0.05", "[50,1,-1]"),
    ("std.CountTimer", "sleep=0.005", "[5,1,-1]"),
    ("std.CountTimer", "sleep=0.0005", "BadArg 0"),
    ("std.CountTimer", "sleep=0.5000", "BadArg 0"),
    ("std.CountTimer", "sleep=-0.0", "[0,1,-1]"),
    ("std.CountTimer", "sleep=-0.001", "BadArg 0"),
    ("std.CountTimer", "sleep=\"1\"", "BadArg 0"),
    ("std.CountTimer", "start=-5 steps=0", "[1000,-5,0]"),
    ("std.CountTimer", "start=[]", "BadArg 0"),
    ("std.CountTimer", "steps=-1", "[1000,1,-1]"),
    ("std.CountTimer", "steps=-2", "BadArg 0"),
    ("std.CountTimer", "steps=false", "BadArg 0"),
    ("std.Identity", "", "[false]"),
    ("std.Identity", "dump=true", "[true]"),
    ("std.Identity", "dump=0", "BadArg 0"),
    ("std.Sequence", "data=[]", "[[]]"),
    ("std.Sequence", "data=[1,[2]]", "[[1,[2]]]"),
    ("std.Sequence", "data={}", "BadArg 0"),
    ("std.Sequence", "data=\"[]\"", "BadArg 0"),
    ("std.Sequence", "", "Missing"),
    ("std.Trigger", "", "[1000,null]"),
    ("std.Trigger", "data=\"x\" tick=0.25", "[250,\"x\"]"),
    ("std.Trigger", "tick=-1", "BadArg 0"),
    ("std.Trigger", "tick=2147484", "BadArg 0"),
    ("std.Trigger", "tick=null", "BadArg 0"),
    ("std.Delay", "", "[1000]"),
    ("std.Delay", "delay=0.1", "[100]"),
];

const PASSING: [Row; 37] = [
    ("std.Delay", "delay=-1", "BadArg 0"),
    ("std.Delay", "delay=2147484", "BadArg 0"),
    ("std.Delay", "delay=true", "BadArg 0"),
    ("flow.Init", "data={\"a\":[]}", "[{\"a\":[]}]"),
    ("flow.Init", "data=0.1", "Fraction 0"),
    ("flow.Init", "", "Missing"),
    ("flow.Batch", "", "[2]"),
    ("flow.Batch", "n=1", "[1]"),
    ("flow.Batch", "n=64", "[64]"),
    ("flow.Batch", "n=0", "BadArg 0"),
    ("flow.Batch", "n=65", "BadArg 0"),
    ("flow.Batch", "n=[2]", "BadArg 0"),
    ("flow.Take", "n=0", "[0]"),
    (
        "flow.Take",
        "n=9223372036854775807",
        "[9223372036854775807]",
    ),
    ("flow.Take", "n=-1", "BadArg 0"),
    ("flow.Take", "n=\"0\"", "BadArg 0"),
    ("flow.Take", "", "Missing"),
    ("flow.Skip", "n=0", "[0]"),
    ("flow.Skip", "n=-1", "BadArg 0"),
    ("flow.Skip", "n=true", "BadArg 0"),
    ("flow.Skip", "", "Missing"),
    ("flow.Every", "n=1", "[1]"),
    ("flow.Every", "n=0", "BadArg 0"),
    ("flow.Every", "n=null", "BadArg 0"),
    ("flow.Every", "n=1.0", "Fraction 0"),
    ("flow.Every", "", "Missing"),
    ("text.Prefix", "", "[\"\"]"),
    ("text.Prefix", "prefix=\"ab\"", "[\"ab\"]"),
    ("text.Prefix", "prefix=1", "BadArg 0"),
    ("text.Prefix", "prefix=1.5", "Fraction 0"),
    ("json.Get", "key=\"a\"", "[\"a\"]"),
    ("json.Get", "key=-1", "[-1]"),
    ("json.Get", "key=null", "BadArg 0"),
    ("json.Get", "key=[0]", "BadArg 0"),
    ("json.Get", "", "Missing"),
    ("math.Compare", "op=1", "BadArg 0"),
    ("math.Compare", "", "Missing"),
];

const OPERATORS: [Row; 11] = [
    ("math.Compare", "op=\"=\"", "[\"=\"]"),
    ("math.Compare", "op=\"!=\"", "[\"!=\"]"),
    ("math.Compare", "op=\"<\"", "[\"<\"]"),
    ("math.Compare", "op=\"<=\"", "[\"<=\"]"),
    ("math.Compare", "op=\">\"", "[\">\"]"),
    ("math.Compare", "op=\">=\"", "[\">=\"]"),
    ("math.Compare", "op=\"<>\"", "BadArg 0"),
    ("math.Compare", "op=\"==\"", "BadArg 0"),
    ("math.Compare", "op=\"\"", "BadArg 0"),
    ("math.Compare", "op=\"=<\"", "BadArg 0"),
    ("math.Compare", "op=0.5", "Fraction 0"),
];

/// Several arguments: which fault is told, and which of a name given twice counts.
const SEVERAL: [Row; 10] = [
    ("flow.Batch", "n=3 n=4", "[4]"),
    ("flow.Batch", "n=0 n=4", "BadArg 0"),
    ("flow.Batch", "n=4 n=0.5", "Fraction 1"),
    ("std.CountTimer", "start=1.5 steps=-2", "Fraction 0"),
    ("std.CountTimer", "steps=-2 start=1.5", "BadArg 0"),
    ("std.CountTimer", "other=1", "BadArg 0"),
    ("flow.Take", "m=1", "BadArg 0"),
    ("std.Constant", "n=0 data=1 data=2 n=5", "[2,5]"),
    ("std.Constant", "n=0 n=\"x\"", "BadArg 1"),
    ("std.Constant", "N=1 data=1", "BadArg 0"),
];

/// The kinds that have no parameter.
const BARE: [&str; 25] = [
    "std.Sum",
    "std.Tally",
    "io.Print",
    "flow.Terminator",
    "flow.Join",
    "flow.Alternate2",
    "flow.Alternate3",
    "flow.Dealternate2",
    "flow.Select",
    "flow.Switch",
    "flow.Unbatch",
    "flow.Valve",
    "flow.Zip",
    "flow.Unzip",
    "flow.Change",
    "math.Add",
    "math.Subtract",
    "math.Multiply",
    "math.Divide",
    "math.Modulo",
    "text.Concat",
    "text.Length",
    "json.Text",
    "json.Parse",
    "logic.Not",
];

/// The value that is written: a fraction where it is no JSON of whole numbers, as `1.5`.
fn value_of(alloc: Global, written: &str) -> Result<Given, Fail> {
    match read_tree(alloc, written.as_bytes())? {
        Some(token) => Ok(Given::Token(token)),
        None => Ok(Given::Fraction(Text::from_string(String::from_str(alloc, written)?))),
    }
}

/// The arguments that are written.
fn list_of(alloc: Global, written: &str) -> Result<ArgList, Fail> {
    let mut given = ArgList::new(alloc);
    for one in written.split(' ') {
        if let Some((name, value)) = one.split_once('=') {
            let name = Text::from_string(String::from_str(alloc, name)?);
            let value = value_of(alloc, value)?;
            given.push(Argument { name, value })?;
        }
    }
    Ok(given)
}

/// The fault as a row writes it: its name, and the place where it has one.
fn fault_text(alloc: Global, fault: ArgFault) -> Result<String, Fail> {
    let (name, place) = match fault {
        ArgFault::Fraction { place } => ("Fraction", place),
        ArgFault::BadArg { place } => ("BadArg", place),
        ArgFault::Missing => return Ok(String::from_str(alloc, "Missing")?),
        ArgFault::OutOfMemory => return Err(Fail::from("memory")),
    };
    Ok(format!(in alloc; "{name} {place}")?)
}

/// The answer as a row writes it.
fn told(alloc: Global, answer: Result<Items, ArgFault>) -> Result<String, Fail> {
    match answer {
        Ok(args) => Ok(String::from_str(alloc, text(alloc, &Token::List(args))?.as_str())?),
        Err(fault) => fault_text(alloc, fault),
    }
}

/// What is answered for these arguments of a kind.
fn answer(alloc: Global, kind: &str, written: &str) -> Result<String, Fail> {
    let kind = find(kind).ok_or("a kind")?;
    let given = list_of(alloc, written)?;
    told(alloc, check_args(alloc, kind, &given))
}

/// These arguments of a kind have the wanted answer.
fn check_row(
    rt: &impl Abort,
    alloc: Global,
    kind: &str,
    written: &str,
    wanted: &str,
) -> Result<(), Fail> {
    let found = answer(alloc, kind, written)?;
    assert_eq!(rt; found.as_str(), wanted, "{kind}({written})");
    Ok(())
}

#[test]
fn arguments_are_checked(rt: HostRuntime) -> Result<(), Fail> {
    for rows in [
        SOURCES.as_slice(),
        PASSING.as_slice(),
        OPERATORS.as_slice(),
        SEVERAL.as_slice(),
    ] {
        for (kind, written, wanted) in rows {
            check_row(&rt, rt.alloc(), kind, written, wanted)?;
        }
    }
    Ok(())
}

#[test]
fn kinds_without_parameters_take_none(rt: HostRuntime) -> Result<(), Fail> {
    for kind in &BARE {
        check_row(&rt, rt.alloc(), kind, "", "[]")?;
        check_row(&rt, rt.alloc(), kind, "n=1", "BadArg 0")?;
    }
    Ok(())
}

/// An argument that is a text of so many letters.
fn long_argument(alloc: Global, letters: u32) -> Result<String, AllocError> {
    let mut written = String::from_str(alloc, "data=\"")?;
    for _ in 0..letters {
        written.push_str("a")?;
    }
    written.push_str("\"")?;
    Ok(written)
}

/// An argument fits: its text has at most 1,024 bytes.
#[test]
fn arguments_fit(rt: HostRuntime) -> Result<(), Fail> {
    let alloc = rt.alloc();
    let kind = find("flow.Init").ok_or("a kind")?;
    for (letters, is_good) in [(1022, true), (1023, false)] {
        let given = list_of(alloc, long_argument(alloc, letters)?.as_str())?;
        assert_eq!(rt; check_args(alloc, kind, &given).is_ok(), is_good);
    }
    Ok(())
}
