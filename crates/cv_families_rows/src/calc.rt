//! Each kind that calculates on a few inputs: arguments, state, action and heads, and what comes of them.

use super::lines::{expanded, fired};
use cv_behave::Behave;
use cv_calc::CalcKind;
use cv_token::Items;
use std::test::Fail;

/// Row `negative-division`.
const NEGATIVE_DIVISION: [(CalcKind, u8, &str); 2] = [
    (CalcKind::Divide, 2, "[] [] 0 [-7,2] > [] -3"),
    (CalcKind::Modulo, 2, "[] [] 0 [-7,2] > [] -1"),
];

const MATH: [(CalcKind, u8, &str); 6] = [
    (
        CalcKind::Add,
        2,
        r#"[] [] 0 [2,3] > [] 5
[] [] 0 [9223372036854775807,1] > [] null
[] [] 0 [-9223372036854775808,-1] > [] null
[] [] 0 [9223372036854775807,-9223372036854775808] > [] -1
[] [] 0 [1,"2"] > [] null
[] [] 0 [1] > [] null
[] [] 1 [2,3] > no"#,
    ),
    (
        CalcKind::Subtract,
        2,
        r#"[] [] 0 [5,7] > [] -2
[] [] 0 [-9223372036854775808,1] > [] null
[] [] 0 [0,-9223372036854775808] > [] null
[] [] 0 [-1,-9223372036854775808] > [] 9223372036854775807
[] [] 0 [true,1] > [] null"#,
    ),
    (
        CalcKind::Multiply,
        2,
        r#"[] [] 0 [6,-7] > [] -42
[] [] 0 [4611686018427387904,2] > [] null
[] [] 0 [-4611686018427387904,2] > [] -9223372036854775808
[] [] 0 [-1,-9223372036854775808] > [] null
[] [] 0 [null,1] > [] null"#,
    ),
    (
        CalcKind::Divide,
        2,
        r#"[] [] 0 [7,2] > [] 3
[] [] 0 [7,-2] > [] -3
[] [] 0 [-7,-2] > [] 3
[] [] 0 [1,0] > [] null
[] [] 0 [-9223372036854775808,-1] > [] null
[] [] 0 [-9223372036854775808,1] > [] -9223372036854775808
[] [] 0 [9223372036854775807,-1] > [] -9223372036854775807
[] [] 0 [1,-9223372036854775808] > [] 0
[] [] 0 [4,"2"] > [] null"#,
    ),
    (
        CalcKind::Modulo,
        2,
        r#"[] [] 0 [7,2] > [] 1
[] [] 0 [7,-2] > [] 1
[] [] 0 [-7,-2] > [] -1
[] [] 0 [5,-9223372036854775808] > [] 5
[] [] 0 [-9223372036854775808,-1] > [] 0
[] [] 0 [-9223372036854775808,3] > [] -2
[] [] 0 [1,0] > [] null
[] [] 0 [[],2] > [] null"#,
    ),
    (
        CalcKind::Compare,
        2,
        r#"["="] [] 0 [1,true] > [] false
["="] [] 0 [1,"1"] > [] false
["="] [] 0 [[],{}] > [] false
["="] [] 0 [{"a":1,"b":2},{"b":2,"a":1}] > [] true
["="] [] 0 [{"a":1},{"b":1}] > [] false
["="] [] 0 [-9223372036854775808,-9223372036854775808] > [] true
["!="] [] 0 [[1],[1,2]] > [] true
["!="] [] 0 [null,null] > [] false
["<"] [] 0 [-1,2] > [] true
["<"] [] 0 [2,2] > [] false
["<"] [] 0 [-9223372036854775808,9223372036854775807] > [] true
[">"] [] 0 [-9223372036854775808,9223372036854775807] > [] false
["<="] [] 0 [2,2] > [] true
["<="] [] 0 [3,2] > [] false
[">"] [] 0 ["b","a"] > [] true
[">="] [] 0 [2,3] > [] false
[">="] [] 0 ["a","a"] > [] true
["<"] [] 0 ["Z","a"] > [] true
["<"] [] 0 ["a","aa"] > [] true
["<"] [] 0 ["é","z"] > [] false
["<"] [] 0 [1,"2"] > [] null
["<"] [] 0 [null,null] > [] null
["<"] [] 0 [false,true] > [] null
[">="] [] 0 [[1],[1]] > [] null
["<>"] [] 0 [1,2] > [] null
[7] [] 0 [1,2] > [] null"#,
    ),
];

const TEXTS: [(CalcKind, u8, &str); 7] = [
    (
        CalcKind::Concat,
        2,
        r#"[] [] 0 ["ab","cd"] > [] "abcd"
[] [] 0 ["",""] > [] ""
[] [] 0 ["a",1] > [] null
[] [] 0 ["@511;","@511;"] > [] "@1022;"
[] [] 0 ["@511;","@512;"] > [] null"#,
    ),
    (
        CalcKind::Length,
        1,
        r#"[] [] 0 ["aé😀"] > [] 3
[] [] 0 [""] > [] 0
[] [] 0 ["@1022;"] > [] 1022
[] [] 0 ["\u0000߿ࠀ￿"] > [] 4
[] [] 0 [[1,2]] > [] null"#,
    ),
    (
        CalcKind::Prefix,
        1,
        r#"["ab"] [] 0 ["cd"] > [] "abcd"
[""] [] 0 ["x"] > [] "x"
["ab"] [] 0 [7] > [] null
["@511;"] [] 0 ["@511;"] > [] "@1022;"
["@512;"] [] 0 ["@511;"] > [] null"#,
    ),
    (
        CalcKind::JsonText,
        1,
        r#"[] [] 0 [-1] > [] "-1"
[] [] 0 [null] > [] "null"
[] [] 0 ["é"] > [] "\"é\""
[] [] 0 [{"b":[1,null],"a":"x"}] > [] "{\"a\":\"x\",\"b\":[1,null]}"
[] [] 0 ["@1018;"] > [] "\"@1018;\""
[] [] 0 ["@1019;"] > [] null"#,
    ),
    (
        CalcKind::JsonParse,
        1,
        r#"[] [] 0 ["[1,{\"b\":1,\"a\":2,\"b\":3}]"] > [] [1,{"a":2,"b":3}]
[] [] 0 [" true "] > [] true
[] [] 0 ["x"] > [] null
[] [] 0 [""] > [] null
[] [] 0 ["1.5"] > [] null
[] [] 0 ["-0"] > [] null
[] [] 0 ["-9223372036854775808"] > [] -9223372036854775808
[] [] 0 ["9223372036854775808"] > [] null
[] [] 0 ["[[[[[[[[[[[[[[[[[]]]]]]]]]]]]]]]]]"] > [] null
[] [] 0 ["\"@1022;\""] > [] "@1022;"
[] [] 0 ["\"@1023;\""] > [] null
[] [] 0 [7] > [] null"#,
    ),
    (
        CalcKind::JsonGet,
        1,
        r#"["a"] [] 0 [{"a":1,"b":2}] > [] 1
["b"] [] 0 [{"a":1,"b":[2]}] > [] [2]
["c"] [] 0 [{"a":1}] > [] null
[1] [] 0 [[4,5]] > [] 5
[2] [] 0 [[4,5]] > [] null
[-1] [] 0 [[4,5]] > [] null
[9223372036854775807] [] 0 [[4,5]] > [] null
[-9223372036854775808] [] 0 [[4,5]] > [] null
[null] [] 0 [[4,5]] > [] null
["a"] [] 0 [7] > [] null
["a"] [] 0 [[4,5]] > [] null
[0] [] 0 [{"0":1}] > [] null"#,
    ),
    (
        CalcKind::Not,
        1,
        r#"[] [] 0 [true] > [] false
[] [] 0 [false] > [] true
[] [] 0 [1] > [] null
[] [] 0 [null] > [] null"#,
    ),
];

#[test]
fn calculates(rt: HostRuntime) -> Result<(), Fail> {
    for table in [
        NEGATIVE_DIVISION.as_slice(),
        MATH.as_slice(),
        TEXTS.as_slice(),
    ] {
        for (kind, _inports, lines) in table {
            for line in lines.split('\n') {
                let whole = expanded(rt.alloc(), line)?;
                let (given, want) = whole.as_str().split_once(" > ").ok_or("two parts")?;
                assert_eq!(rt;
                    fired(rt.alloc(), kind, given)?.as_str(),
                    want,
                    "{kind:?} {given}"
                );
            }
        }
    }
    Ok(())
}

/// One action, which needs one token of each inport and gives one.
#[test]
fn has_one_action(rt: HostRuntime) -> Result<(), Fail> {
    let none = Items::new(rt.alloc());
    for table in [MATH.as_slice(), TEXTS.as_slice()] {
        for (kind, inports, _lines) in table {
            let ports = (kind.actions(), kind.inports(), kind.outports());
            let needs = (kind.needs(&none, 0, 0), kind.needs(&none, 0, 1));
            let gives = (kind.gives(0, 0), kind.gives(0, 1));
            let want = ((1, *inports, 1), (1, u16::from(*inports) - 1), (1, 0));
            assert_eq!(rt; (ports, needs, gives), want, "{kind:?}");
        }
    }
    Ok(())
}

/// No state, no guard port, no pause.
#[test]
fn holds_and_waits_for_nothing(rt: HostRuntime) -> Result<(), Fail> {
    let none = Items::new(rt.alloc());
    for table in [MATH.as_slice(), TEXTS.as_slice()] {
        for (kind, _inports, _lines) in table {
            let slots = kind.start(rt.alloc(), &none)?.len();
            let waits = (kind.guard_port(), kind.timed(0), kind.pause(&none));
            assert_eq!(rt; (slots, waits), (0, (None, false, 0)), "{kind:?}");
        }
    }
    Ok(())
}
