//! Texts at the bounds of depth and size, and which fault comes first.

use super::outcomes::{is_no_json, outcome, reads_as, repeated, tree_reads_as, wrapped};
use cv_token::{fits, read_tree};
use std::alloc::{AllocError, Global};
use std::process::Abort;
use std::test::Fail;

#[test]
fn nests_as_deep_as_allowed(rt: HostRuntime) -> Result<(), Fail> {
    for (open, middle, close, count, want, tree) in [
        ("[", "", "]", 16, true, true),
        ("[", "", "]", 17, false, true),
        ("[", "1.5", "]", 17, false, false),
        ("[", "", "]", 127, false, true),
        ("{\"a\":", "1", "}", 16, true, true),
        ("{\"a\":", "1", "}", 17, false, true),
        ("{\"a\":", "1", "}", 127, false, true),
    ] {
        let written = wrapped(rt.alloc(), open, middle, close, count)?;
        let (bytes, written) = (written.as_bytes(), written.as_str());
        let shown = if want { written } else { "TooDeep" };
        reads_as(&rt, rt.alloc(), bytes, shown)?;
        let shown = if tree { written } else { "None" };
        tree_reads_as(&rt, rt.alloc(), bytes, shown)?;
    }
    for (open, close) in [("[", "]"), ("{\"a\":[", "]}")] {
        let written = wrapped(rt.alloc(), open, "", close, 128)?;
        is_no_json(&rt, rt.alloc(), written.as_bytes())?;
    }
    Ok(())
}

#[test]
fn is_as_large_as_allowed(rt: HostRuntime) -> Result<(), Fail> {
    for (front, part, count, back, fitting) in [
        ("\"", "a", 1022, "\"", true),
        ("\"", "a", 1023, "\"", false),
        ("\"", "\\u0001", 170, "\"", true),
        ("\"", "\\u0001", 171, "\"", false),
        ("\"", "\\n", 511, "\"", true),
        ("\"", "\\n", 512, "\"", false),
        ("\"", "é", 511, "\"", true),
        ("\"", "é", 512, "\"", false),
        ("[-12", ",true", 203, ",10]", true),
        ("[-123", ",true", 203, ",[]]", true),
        ("[-1234", ",true", 203, ",[]]", false),
        ("{\"\":0", ",\"k\":{}", 1, "}", true),
    ] {
        let written = repeated(rt.alloc(), front, part, count, back)?;
        let want = if fitting {
            written.as_str()
        } else {
            "TooLarge"
        };
        assert_eq!(rt; outcome(rt.alloc(), written.as_bytes())?.as_str(), want);
        tree_reads_as(&rt, rt.alloc(), written.as_bytes(), written.as_str())?;
        assert_eq!(rt; tree_fits(rt.alloc(), written.as_bytes())?, fitting);
    }
    Ok(())
}

/// Whether the token of the bytes fits.
fn tree_fits(alloc: Global, bytes: &[u8]) -> Result<bool, Fail> {
    let token = read_tree(alloc, bytes)?.ok_or("a tree")?;
    Ok(fits(&token))
}

/// 17 lists, one in another, round a fraction.
fn deep(alloc: Global) -> Result<String, AllocError> {
    wrapped(alloc, "[", "1.5", "]", 17)
}

/// A list too deep, in a text too large.
fn deep_and_large(alloc: Global) -> Result<String, AllocError> {
    let front = repeated(alloc, "[", deep(alloc)?.as_str(), 1, "")?;
    repeated(alloc, front.as_str(), ",1", 1000, "]")
}

/// A value that nests too deep, which a later equal key replaces.
fn replaced(alloc: Global) -> Result<String, AllocError> {
    repeated(alloc, "{\"a\":", deep(alloc)?.as_str(), 1, ",\"a\":1}")
}

/// What is read of a text that was made.
fn made_reads_as(
    rt: &impl Abort,
    alloc: Global,
    made: Result<String, AllocError>,
    wanted: &str,
) -> Result<(), Fail> {
    reads_as(rt, alloc, made?.as_bytes(), wanted)
}

#[test]
fn tells_the_first_fault(rt: HostRuntime) -> Result<(), Fail> {
    let alloc = rt.alloc();
    let large = repeated(alloc, "[", "1.5,", 300, "0]");
    let unended = wrapped(alloc, "[", "1.5", "", 17);
    made_reads_as(&rt, alloc, deep(alloc), "TooDeep")?;
    made_reads_as(&rt, alloc, large, "BadNumber")?;
    made_reads_as(&rt, alloc, deep_and_large(alloc), "TooDeep")?;
    made_reads_as(&rt, alloc, unended, "NotJson")?;
    made_reads_as(&rt, alloc, replaced(alloc), "{\"a\":1}")
}
