//! Each kind of flow on a few inputs: arguments and the state at the start, then arguments, state, action and heads, and what
//! comes of them.

use super::lines::{expanded, fired, list};
use cv_behave::Behave;
use cv_flow::FlowKind;
use cv_token::{Text, Token, text};
use std::alloc::Global;
use std::test::Fail;

/// The arithmetic of row `sum-overflow`.
const SUM_OVERFLOW: [(FlowKind, &str, &str); 2] = [
    (
        FlowKind::Sequence,
        "[[9223372036854775807,1]] > [0]",
        r#"[[9223372036854775807,1]] [0] 0 [] > [1] 9223372036854775807
[[9223372036854775807,1]] [1] 0 [] > [2] 1
[[9223372036854775807,1]] [2] 0 [] > no"#,
    ),
    (
        FlowKind::Sum,
        "[] > [0]",
        r#"[] [0] 0 [9223372036854775807] > [9223372036854775807] 9223372036854775807
[] [9223372036854775807] 0 [1] > [9223372036854775807] null"#,
    ),
];

const SOURCES: [(FlowKind, &str, &str); 6] = [
    (
        FlowKind::Constant,
        "[5,3] > [3]",
        r#"[5,3] [3] 0 [] > [2] 5
[5,-1] [-1] 0 [] > [-1] 5
["a",1] [1] 0 [] > [0] "a"
[5,0] [0] 0 [] > no
[5,3] [9223372036854775807] 0 [] > [9223372036854775806] 5
[5,3] [null] 0 [] > [null] 5
[5,3] [3] 1 [] > no"#,
    ),
    (
        FlowKind::Counter,
        "[-5] > [-5]",
        r#"[1] [1] 0 [] > [2] 1
[1] [9223372036854775807] 0 [] > [null] 9223372036854775807
[1] [-9223372036854775808] 0 [] > [-9223372036854775807] -9223372036854775808
[1] [null] 0 [] > no
[1] ["1"] 0 [] > no"#,
    ),
    (
        FlowKind::CountTimer,
        "[100,1,3] > [1,3]",
        r#"[100,1,3] [1,3] 0 [] > [2,2] 1
[100,1,-1] [7,-1] 0 [] > [8,-1] 7
[100,1,3] [4,0] 0 [] > no
[100,1,3] [9223372036854775807,1] 0 [] > [null,0] 9223372036854775807
[100,1,3] [null,1] 0 [] > no"#,
    ),
    (
        FlowKind::Sequence,
        "[[4,5]] > [0]",
        r#"[[4,5]] [0] 0 [] > [1] 4
[[4,5]] [1] 0 [] > [2] 5
[[4,5]] [2] 0 [] > no
[[]] [0] 0 [] > no
[[4,5]] [null] 0 [] > no
[[4,5]] [9223372036854775807] 0 [] > no
[[4,5]] [-1] 0 [] > [0] null
[7] [0] 0 [] > no"#,
    ),
    (
        FlowKind::Trigger,
        "[1000,7] > []",
        r#"[1000,"t"] [] 0 [] > [] "t"
[0,null] [] 0 [] > [] null
[1,[1]] [] 0 [] > [] [1]
[1,9223372036854775807] [] 0 [] > [] 9223372036854775807
[1] [] 0 [] > [] null"#,
    ),
    (
        FlowKind::Init,
        "[5] > [false]",
        r#"[5] [false] 0 [] > [true] 5
[5] [true] 0 [] > no
[5] [true] 1 [6] > [true] 6
[5] [false] 1 [6] > no
[5] [null] 0 [] > [true] 5"#,
    ),
];

const COUNTS: [(FlowKind, &str, &str); 7] = [
    (
        FlowKind::Identity,
        "[false] > []",
        r#"[false] [] 0 [1] > [] 1
[true] [] 0 ["@1022;"] > [] "@1022;"
[false] [] 0 [-9223372036854775808] > [] -9223372036854775808
[false] [] 0 [[1,{"a":null}]] > [] [1,{"a":null}]
[false] [] 0 [null] > [] null"#,
    ),
    (
        FlowKind::Delay,
        "[500] > [false,null]",
        r#"[500] [false,null] 1 [9] > [true,9] -
[500] [false,null] 0 [] > no
[500] [true,7] 0 [] > [false,null] 7
[500] [true,7] 1 [9] > no
[500] [false,null] 1 [9223372036854775807] > [true,9223372036854775807] -
[500] [1,null] 1 [null] > [true,null] -"#,
    ),
    (
        FlowKind::Sum,
        "[] > [0]",
        r#"[] [3] 0 [4] > [7] 7
[] [9223372036854775807] 0 [1] > [9223372036854775807] null
[] [-9223372036854775808] 0 [-1] > [-9223372036854775808] null
[] [9223372036854775807] 0 [-1] > [9223372036854775806] 9223372036854775806
[] [5] 0 ["4"] > [5] null
[] [null] 0 [4] > [null] null
[] [0] 0 [true] > [0] null"#,
    ),
    (
        FlowKind::Tally,
        "[] > [0]",
        r#"[] [0] 0 ["x"] > [1] 1
[] [41] 0 [null] > [42] 42
[] [9223372036854775806] 0 [1] > [9223372036854775807] 9223372036854775807
[] [9223372036854775807] 0 [1] > [9223372036854775807] null
[] ["1"] 0 [1] > ["1"] null"#,
    ),
    (
        FlowKind::Print,
        "[] > []",
        r#"[] [] 0 [1] > []
[] [] 0 ["x"] > []
[] [] 0 [[]] > []
[] [] 1 [1] > no"#,
    ),
    (
        FlowKind::Terminator,
        "[] > []",
        r#"[] [] 0 [1] > []
[] [] 0 ["x"] > []
[] [] 0 [[]] > []
[] [] 1 [1] > no"#,
    ),
    (
        FlowKind::Every,
        "[3] > [0]",
        r#"[3] [2] 0 [7] > [0] 7
[3] [1] 1 [7] > [2] -
[3] [2] 1 [7] > no
[3] [0] 0 [7] > no
[1] [0] 0 [7] > [0] 7
[9223372036854775807] [9223372036854775806] 0 [7] > [0] 7
[3] [null] 1 [7] > no
[null] [0] 0 [7] > no
[null] [0] 1 [7] > no"#,
    ),
];

const ROUTES: [(FlowKind, &str, &str); 7] = [
    (
        FlowKind::Join,
        "[] > []",
        r#"[] [] 0 [1] > [] 1
[] [] 1 ["b"] > [] "b"
[] [] 0 [null] > [] null
[] [] 1 [-9223372036854775808] > [] -9223372036854775808
[] [] 2 [2] > no"#,
    ),
    (
        FlowKind::Alternate2,
        "[] > [0]",
        r#"[] [0] 0 [1] > [1] 1
[] [0] 1 [1] > no
[] [1] 1 [2] > [0] 2
[] [1] 0 [2] > no
[] [null] 0 [2] > no
[] [true] 1 [2] > no
[] [0] 0 ["@1022;"] > [1] "@1022;"
[] [9223372036854775807] 1 [2] > no"#,
    ),
    (
        FlowKind::Alternate3,
        "[] > [0]",
        r#"[] [0] 0 [1] > [1] 1
[] [1] 1 [2] > [2] 2
[] [2] 2 [3] > [0] 3
[] [2] 0 [3] > no
[] [3] 0 [3] > no
[] [-1] 0 [3] > no
[] ["2"] 2 [3] > no"#,
    ),
    (
        FlowKind::Dealternate2,
        "[] > [0]",
        r#"[] [0] 0 [1] > [1] 1 -
[] [1] 1 [2] > [0] - 2
[] [0] 1 [2] > no
[] [true] 0 [2] > no
[] [1] 1 [9223372036854775807] > [0] - 9223372036854775807"#,
    ),
    (
        FlowKind::Select,
        "[] > []",
        r#"[] [] 0 [true,7] > [] 7 -
[] [] 1 [true,7] > no
[] [] 1 [false,7] > [] - 7
[] [] 1 [1,7] > [] - 7
[] [] 0 [null,7] > no
[] [] 0 [true,9223372036854775807] > [] 9223372036854775807 -"#,
    ),
    (
        FlowKind::Switch,
        "[] > []",
        r#"[] [] 0 [true,7] > [] 7
[] [] 1 [false,8] > [] 8
[] [] 0 [false,7] > no
[] [] 1 [true,8] > no
[] [] 1 ["true",8] > [] 8
[] [] 1 [1,-9223372036854775808] > [] -9223372036854775808"#,
    ),
    (
        FlowKind::Valve,
        "[] > [false]",
        r#"[] [false] 0 [true] > [true] -
[] [true] 0 [1] > [false] -
[] [true] 1 [7] > [true] 7
[] [false] 2 [7] > [false] -
[] [false] 1 [7] > no
[] [true] 2 [7] > no
[] [null] 2 [7] > [null] -
[] [true] 1 ["@1022;"] > [true] "@1022;"
[] [true] 0 ["true"] > [false] -"#,
    ),
];

const LISTS: [(FlowKind, &str, &str); 7] = [
    (
        FlowKind::Batch,
        "[2] > []",
        r#"[2] [] 0 [1,2] > [] [1,2]
[1] [] 0 [5] > [] [5]
[3] [] 0 [1,"a",null] > [] [1,"a",null]
[2] [] 0 ["@508;","@509;"] > [] ["@508;","@509;"]
[2] [] 0 ["@509;","@509;"] > [] null
[1] [] 0 [[[[[[[[[[[[[[[[]]]]]]]]]]]]]]]] > [] [[[[[[[[[[[[[[[[]]]]]]]]]]]]]]]]
[1] [] 0 [[[[[[[[[[[[[[[[[]]]]]]]]]]]]]]]]] > [] null"#,
    ),
    (
        FlowKind::Unbatch,
        "[] > [[]]",
        r#"[] [[1,2]] 0 [] > [[2]] 1
[] [[]] 0 [] > no
[] [[]] 1 [[3,4]] > [[3,4]] -
[] [[]] 1 [[]] > [[]] -
[] [[]] 1 [5] > [[5]] -
[] [[1]] 1 [[3]] > no
[] [7] 0 [] > no
[] [7] 1 [[3]] > [[3]] -
[] [[]] 1 [{"a":1}] > [[{"a":1}]] -
[] [[]] 1 ["@1020;"] > [["@1020;"]] -
[] [[]] 1 ["@1021;"] > [[null]] -"#,
    ),
    (
        FlowKind::Take,
        "[2] > [2]",
        r#"[2] [2] 0 [7] > [1] 7
[2] [0] 0 [7] > no
[2] [0] 1 [7] > [0] -
[2] [1] 1 [7] > no
[2] [null] 0 [7] > no
[2] [null] 1 [7] > no
[9223372036854775807] [9223372036854775807] 0 [7] > [9223372036854775806] 7
[2] [-1] 0 [7] > no"#,
    ),
    (
        FlowKind::Skip,
        "[2] > [2]",
        r#"[2] [2] 0 [7] > [1] -
[2] [0] 1 [7] > [0] 7
[2] [0] 0 [7] > no
[2] [1] 1 [7] > no
[2] ["0"] 1 [7] > no
[9223372036854775807] [9223372036854775807] 0 [7] > [9223372036854775806] -"#,
    ),
    (
        FlowKind::Zip,
        "[] > []",
        r#"[] [] 0 [1,2] > [] [1,2]
[] [] 0 [null,[3]] > [] [null,[3]]
[] [] 0 ["@508;","@509;"] > [] ["@508;","@509;"]
[] [] 0 ["@509;","@509;"] > [] null
[] [] 0 [[[[[[[[[[[[[[[[]]]]]]]]]]]]]]],1] > [] [[[[[[[[[[[[[[[[]]]]]]]]]]]]]]],1]
[] [] 0 [[[[[[[[[[[[[[[[[]]]]]]]]]]]]]]]],1] > [] null"#,
    ),
    (
        FlowKind::Unzip,
        "[] > []",
        r#"[] [] 0 [[1,2]] > [] 1 2
[] [] 0 [[1]] > [] null null
[] [] 0 [[1,2,3]] > [] null null
[] [] 0 [{"a":1,"b":2}] > [] null null
[] [] 0 [5] > [] null null"#,
    ),
    (
        FlowKind::Change,
        "[] > [false,null]",
        r#"[] [false,null] 0 [null] > [true,null] null
[] [true,1] 0 [2] > [true,2] 2
[] [true,1] 1 [1] > [true,1] -
[] [true,1] 0 [1] > no
[] [true,1] 0 [true] > [true,true] true
[] [true,{"a":1,"b":2}] 1 [{"b":2,"a":1}] > [true,{"a":1,"b":2}] -
[] [false,1] 1 [1] > no
[] [true,1] 0 ["1"] > [true,"1"] "1"
[] [true,9223372036854775807] 1 [9223372036854775807] > [true,9223372036854775807] -
[] [1,1] 0 [1] > [true,1] 1"#,
    ),
];

const TABLES: [&[(FlowKind, &str, &str)]; 5] = [&SUM_OVERFLOW, &SOURCES, &COUNTS, &ROUTES, &LISTS];

/// The state that a kind begins with, as text.
fn start_text(alloc: Global, kind: &FlowKind, args: &str) -> Result<Text, Fail> {
    let state = kind.start(alloc, &list(alloc, args)?)?;
    Ok(text(alloc, &Token::List(state))?)
}

#[test]
fn starts_as_its_row_says(rt: HostRuntime) -> Result<(), Fail> {
    for table in TABLES {
        for (kind, start, _lines) in table {
            let (args, want) = start.split_once(" > ").ok_or("two parts")?;
            let found = start_text(rt.alloc(), kind, args)?;
            assert_eq!(rt; found.as_str(), want, "{kind:?}");
        }
    }
    Ok(())
}

#[test]
fn acts_as_its_row_says(rt: HostRuntime) -> Result<(), Fail> {
    for table in TABLES {
        for (kind, _start, lines) in table {
            for line in lines.split('\n') {
                let whole = expanded(rt.alloc(), line)?;
                let (given, want) = whole.as_str().split_once(" > ").ok_or("two parts")?;
                assert_eq!(rt;
                    fired(rt.alloc(), kind, given)?.as_str(),
                    want,
                    "{kind:?} {given}"
                );
            }
        }
    }
    Ok(())
}
