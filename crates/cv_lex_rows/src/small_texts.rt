//! Small texts with their lexemes or their fault, worked out by hand from the rules.

use cv_lex::{LexFault, Mark, Reserved, Sort, Word, lex, words};
use std::alloc::{AllocError, Global};
use std::fmt::Write;
use std::process::Abort;
use std::test::Fail;

/// The letter of a sort of lexemes.
fn letter(sort: Sort) -> &'static str {
    match sort {
        Sort::Name => "n",
        Sort::Int => "i",
        Sort::Fraction => "f",
        Sort::Text => "t",
        Sort::Mark => "m",
    }
}

/// A fault's name and place.
fn fault_at(fault: LexFault) -> (&'static str, u32) {
    match fault {
        LexFault::BadChar { at } => ("BadChar", at),
        LexFault::OpenText { at } => ("OpenText", at),
        LexFault::OpenComment { at } => ("OpenComment", at),
        LexFault::WideNumber { at } => ("WideNumber", at),
        LexFault::BadEscape { at } => ("BadEscape", at),
        LexFault::LongName { at } => ("LongName", at),
        LexFault::OutOfMemory => ("OutOfMemory", 0),
    }
}

/// Lexemes as a letter, a place and a length; a fault by its name and place.
fn shown(rt: &impl Abort, alloc: Global, source: &str) -> Result<String, AllocError> {
    assert!(rt; source.len() < 1000);
    let mut text = String::new(alloc);
    match lex(alloc, source) {
        Ok(found) => {
            for lexeme in &found {
                write!(text, "{}{}+{} ", letter(lexeme.sort), lexeme.at, lexeme.len)?;
            }
        }
        Err(fault) => {
            let (name, at) = fault_at(fault);
            write!(text, "{name} {at}")?;
        }
    }
    Ok(text)
}

/// Texts, each with its lexemes.
const LEXEMES: [(&str, &str); 42] = [
    ("", ""),
    (" \t\r\n", ""),
    (
        "a : std.Constant(data=1)",
        "n0+1 m2+1 n4+3 m7+1 n8+8 m16+1 n17+4 m21+1 i22+1 m23+1 ",
    ),
    ("a.b>c.d", "n0+1 m1+1 n2+1 m3+1 n4+1 m5+1 n6+1 "),
    ("12abc", "i0+2 n2+3 "),
    ("1.x", "i0+1 m1+1 n2+1 "),
    ("1.2.3", "f0+3 m3+1 i4+1 "),
    ("1.", "i0+1 m1+1 "),
    (".5", "m0+1 i1+1 "),
    ("-5", "i0+2 "),
    ("-0 007", "i0+2 i3+3 "),
    ("-9223372036854775808", "i0+20 "),
    ("9223372036854775807", "i0+19 "),
    ("99999999999999999999.5", "f0+22 "),
    ("-1.50", "f0+5 "),
    ("a->b", "n0+1 m1+2 n3+1 "),
    ("1->b", "i0+1 m1+2 n3+1 "),
    (
        "(){}[],:.=>&|~",
        "m0+1 m1+1 m2+1 m3+1 m4+1 m5+1 m6+1 m7+1 m8+1 m9+1 m10+1 m11+1 m12+1 m13+1 ",
    ),
    ("\"\"", "t0+2 "),
    ("\"\" \"\"", "t0+2 t3+2 "),
    ("\"a b\"", "t0+5 "),
    ("\"\\\"\"", "t0+4 "),
    ("\"\\\\\"", "t0+4 "),
    ("\"\\/\"", "t0+4 "),
    ("\"é\"", "t0+4 "),
    ("\"\n\t\u{1}\"", "t0+5 "),
    ("\"\\u00e9\"", "t0+8 "),
    ("\"\\uD83D\\uDE00\"", "t0+14 "),
    ("\"/* no */\"", "t0+10 "),
    ("// all", ""),
    ("// all\r a", ""),
    ("a//b\nc", "n0+1 n5+1 "),
    ("/**/a", "n4+1 "),
    ("/*/ */a", "n6+1 "),
    ("a/* * / **/b", "n0+1 n11+1 "),
    ("\"\"\"x\"\"\"", ""),
    ("\"\"\"a\"b\"\"c\"\"\"d", "n12+1 "),
    ("data=\"\"\"x\"\"\"", "n0+4 m4+1 "),
    ("\"\"\"\"\"\"a", "n6+1 "),
    ("a_1 _b9", "n0+3 n4+3 "),
    (
        "true false null component define rule apply voidport",
        "n0+4 n5+5 n11+4 n16+9 n26+6 n33+4 n38+5 n44+8 ",
    ),
    (
        "n234567890123456789012345678901234567890123456789012345678901234",
        "n0+64 ",
    ),
];

#[test]
fn lexemes_of_small_texts(rt: HostRuntime) -> Result<(), Fail> {
    for (source, expected) in LEXEMES {
        assert_eq!(rt; shown(&rt, rt.alloc(), source)?.as_str(), expected);
    }
    Ok(())
}

/// Texts, each with its first fault.
const FAULTS: [(&str, &str); 35] = [
    ("- >", "BadChar 0"),
    ("a - b", "BadChar 2"),
    ("-", "BadChar 0"),
    ("-a", "BadChar 0"),
    ("a;b", "BadChar 1"),
    ("aé", "BadChar 1"),
    ("a\u{b}", "BadChar 1"),
    ("a\u{c}", "BadChar 1"),
    ("a\u{a0}", "BadChar 1"),
    ("a/b", "BadChar 1"),
    ("/", "BadChar 0"),
    ("\"", "OpenText 0"),
    ("a : std.Constant(data=\"x", "OpenText 22"),
    ("\"\\\"", "OpenText 0"),
    ("data=\"\\q", "OpenText 5"),
    ("\"ab\\q\"", "BadEscape 3"),
    ("\"\\u\"", "BadEscape 1"),
    ("\"\\u12G4\"", "BadEscape 1"),
    ("\"\\U0041\"", "BadEscape 1"),
    ("\"\\uD800\"", "BadEscape 1"),
    ("\"a\\uDC00\"", "BadEscape 2"),
    ("\"\\uD800\\uD800\"", "BadEscape 1"),
    ("\"\\uD83Dx\"", "BadEscape 1"),
    ("a \"\\n\\x\"", "BadEscape 5"),
    ("/*/", "OpenComment 0"),
    ("a /* b", "OpenComment 2"),
    ("\"\"\"x\"\"", "OpenComment 0"),
    ("\"\"\"\"\"", "OpenComment 0"),
    ("9223372036854775808", "WideNumber 0"),
    ("a=-9223372036854775809", "WideNumber 2"),
    (
        "a : std.Constant(data=9223372036854775808)",
        "WideNumber 22",
    ),
    ("9223372036854775808 $", "WideNumber 0"),
    ("$ 9223372036854775808", "BadChar 0"),
    (
        "n2345678901234567890123456789012345678901234567890123456789012345",
        "LongName 0",
    ),
    (
        "a n2345678901234567890123456789012345678901234567890123456789012345.",
        "LongName 2",
    ),
];

#[test]
fn first_faults(rt: HostRuntime) -> Result<(), Fail> {
    for (source, expected) in FAULTS {
        assert_eq!(rt; shown(&rt, rt.alloc(), source)?.as_str(), expected);
    }
    Ok(())
}

/// What a word is, and what it says; of a number nothing.
fn parts(word: &Word) -> (&'static str, &str) {
    match word {
        Word::Name(name) => ("name ", name.as_str()),
        Word::Reserved(Reserved::Rule) => ("rule", ""),
        Word::Reserved(Reserved::True) => ("true", ""),
        Word::Reserved(_) => ("reserved", ""),
        Word::Int(_) => ("int", ""),
        Word::Fraction(digits) => ("fraction ", digits.as_str()),
        Word::Text(said) => ("text ", said.as_str()),
        Word::Mark(Mark::Arrow) => ("arrow", ""),
        Word::Mark(Mark::Greater) => ("greater", ""),
        Word::Mark(_) => ("mark", ""),
    }
}

/// Words in letters, each with its place.
fn told(rt: &impl Abort, alloc: Global, source: &str) -> Result<String, Fail> {
    assert!(rt; source.len() < 1000);
    let found = lex(alloc, source)?;
    let mut text = String::new(alloc);
    for placed in &words(alloc, source, &found)? {
        let (kind, said) = parts(&placed.word);
        write!(text, "{kind}{said}")?;
        if let Word::Int(number) = &placed.word {
            write!(text, " {number}")?;
        }
        write!(text, " at {}, ", placed.at)?;
    }
    Ok(text)
}

#[test]
fn words_of_small_texts(rt: HostRuntime) -> Result<(), Fail> {
    let rows = [
        (
            "rule rules true",
            "rule at 0, name rules at 5, true at 11, ",
        ),
        ("null Null", "reserved at 0, name Null at 5, "),
        (
            "a->b>c",
            "name a at 0, arrow at 1, name b at 3, greater at 4, name c at 5, ",
        ),
        (
            "(-9223372036854775808",
            "mark at 0, int -9223372036854775808 at 1, ",
        ),
        ("007 -0 -12", "int 7 at 0, int 0 at 4, int -12 at 7, "),
        ("-01.50", "fraction -01.50 at 0, "),
        ("\"\" 1", "text  at 0, int 1 at 3, "),
        (
            "\"é\\u00e9\\uD83D\\uDE00\\\"\\\\\\/\\n.\"",
            "text éé😀\"\\/\n. at 0, ",
        ),
    ];
    for row in rows {
        let (source, expected) = row;
        assert_eq!(rt; told(&rt, rt.alloc(), source)?.as_str(), expected);
    }
    Ok(())
}
