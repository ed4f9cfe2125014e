//! Vectors of RFC 8259: texts with what each is read as, texts that are refused, and one spelling of each token.

use super::outcomes::{is_no_json, reads_as, repeated, tree_reads_as};
use cv_token::{read_spelled, spells};
use std::test::Fail;

/// Texts, each with what it is read as; the escapes of Rust stand in no raw text.
const FORMS: &str = r#"[1,{"b":1,"a":2,"b":3}] > [1,{"a":2,"b":3}]
null > null
true > true
false > false
[] > []
{} > {}
"" > ""
0 > 0
-1 > -1
9223372036854775807 > 9223372036854775807
-9223372036854775808 > -9223372036854775808
"\"\\\/\b\f\n\r\t" > "\"\\/\b\f\n\r\t"
"\u0041\u00e9\u20AC" > "Aé€"
"\u0022\u005C\u002f" > "\"\\/"
"\u0000\u0001\u0002\u0003\u0004\u0005\u0006\u0007" > "\u0000\u0001\u0002\u0003\u0004\u0005\u0006\u0007"
"\u0008\u0009\u000A\u000B\u000C\u000D\u000E\u000F" > "\b\t\n\u000b\f\r\u000e\u000f"
"\u0010\u0011\u0012\u0013\u0014\u0015\u0016\u0017" > "\u0010\u0011\u0012\u0013\u0014\u0015\u0016\u0017"
"\u0018\u0019\u001A\u001B\u001C\u001D\u001E\u001F" > "\u0018\u0019\u001a\u001b\u001c\u001d\u001e\u001f"
"\ud83d\ude00\uD834\uDD1E" > "😀𝄞"
"/é😀" > "/é😀"
{"a":1,"a":2} > {"a":2}
{"a":1.5,"a":1} > {"a":1}
{"a":[1.5,{"b":-0}],"c":0,"a":null} > {"a":null,"c":0}
[{"b":1,"a":{"d":1,"c":2,"d":3}},{"a":0,"a":0}] > [{"a":{"c":2,"d":3},"b":1},{"a":0}]
{"":0,"b":[],"\u0062":null} > {"":0,"b":null}
{"😀":1,"\uffff":2,"z":3,"Z":4,"é":5,"aa":6,"a":7,"":8} > {"":8,"Z":4,"a":7,"aa":6,"z":3,"é":5,"￿":2,"😀":1}"#;

#[test]
fn reads_each_form(rt: HostRuntime) -> Result<(), Fail> {
    for line in FORMS.split('\n') {
        let (bytes, want) = line.split_once(" > ").ok_or("a line of two parts")?;
        reads_as(&rt, rt.alloc(), bytes.as_bytes(), want)?;
        tree_reads_as(&rt, rt.alloc(), bytes.as_bytes(), want)?;
    }
    // the four kinds of space
    let spaced = " \t\r\n[ 1 ,\t2\n,\r{ \"a\" :\n3 } ] \t\r\n";
    reads_as(&rt, rt.alloc(), spaced.as_bytes(), "[1,2,{\"a\":3}]")?;
    // the character 127 has no escape
    let highest = "\"\\u007f\u{7f}\"";
    reads_as(&rt, rt.alloc(), highest.as_bytes(), "\"\u{7f}\u{7f}\"")
}

#[test]
fn refuses_bad_numbers(rt: HostRuntime) -> Result<(), Fail> {
    let numbers =
        "1.5 1e2 -0 1.0 0e0 1E+2 1e-400 9223372036854775808 -9223372036854775809 18446744073709551615 18446744073709551616 [1,{\"a\":[-0]}]";
    for bytes in numbers.split(' ') {
        reads_as(&rt, rt.alloc(), bytes.as_bytes(), "BadNumber")?;
        tree_reads_as(&rt, rt.alloc(), bytes.as_bytes(), "None")?;
    }
    Ok(())
}

/// Texts that are no JSON, a line each.
const NOT_JSON: &str = r#"x

nul
nullx
True
'a'
1 2
[] x
[1,]
[1
[1 2]
]
{"a":1,}
{"a"}
{1:2}
{"a" 1}
{,}
[,1]
01
-01
+1
.5
1.
1e
-
0x1
NaN
1e400
"
"\x"
"\u12"
"\u12g4"
"\"
"\ud83d"
"\ude00"
"\ud83dA"
"\ud83d\u0041"
"\ude00\ud83d""#;

#[test]
fn refuses_what_is_not_json(rt: HostRuntime) -> Result<(), Fail> {
    for text in NOT_JSON.split('\n') {
        is_no_json(&rt, rt.alloc(), text.as_bytes())?;
    }
    // an integer past the largest float
    let past = repeated(rt.alloc(), "1", "0", 400, "")?;
    reads_as(&rt, rt.alloc(), past.as_bytes(), "NotJson")?;
    // raw control bytes, other spaces, a byte order mark
    for text in "\"\u{1}\";\"\n\";\"\t\";\"\u{1f}\";\"\0\";\u{c}1;\u{a0}1;\u{feff}1; ".split(';') {
        reads_as(&rt, rt.alloc(), text.as_bytes(), "NotJson")?;
    }
    Ok(())
}

#[test]
fn refuses_what_is_not_utf8(rt: HostRuntime) -> Result<(), Fail> {
    // a lone byte, too long a form, a surrogate, past the last character, cut short, behind the text
    let cases: [&[u8]; 6] = [
        b"\"\xff\"",
        b"\"\xc0\x80\"",
        b"\"\xed\xa0\x80\"",
        b"\"\xf4\x90\x80\x80\"",
        b"\"\xc3",
        b"[1]\xff",
    ];
    for bytes in cases {
        is_no_json(&rt, rt.alloc(), bytes)?;
    }
    Ok(())
}

#[test]
fn one_spelling_each(rt: HostRuntime) -> Result<(), Fail> {
    for (bytes, is_spelling) in [
        ("[1,{\"a\":2,\"b\":3}]", true),
        ("[1, 2]", false),
        ("{\"b\":1,\"a\":2}", false),
        ("{\"a\":1,\"a\":1}", false),
        ("\"\\u0041\"", false),
        ("\"\\u001f\"", true),
        ("\"\\u001F\"", false),
        ("\"\\/\"", false),
        ("1.5", false),
        ("x", false),
    ] {
        let token = read_spelled(rt.alloc(), bytes.as_bytes())?;
        assert_eq!(rt; token.is_some(), is_spelling);
        if let Some(token) = token {
            assert!(rt; spells(rt.alloc(), &token, bytes.as_bytes())?);
        }
    }
    Ok(())
}
