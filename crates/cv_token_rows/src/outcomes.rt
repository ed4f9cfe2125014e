//! What a text is read as, and texts of repeated parts.

use cv_token::{TokenFault, read, read_tree, text};
use std::alloc::{AllocError, Global};
use std::process::Abort;
use std::test::Fail;

/// The text of what `read` gives, or the fault's name.
pub(crate) fn outcome(alloc: Global, bytes: &[u8]) -> Result<String, AllocError> {
    let name = match read(alloc, bytes) {
        Ok(token) => return String::from_str(alloc, text(alloc, &token)?.as_str()),
        Err(TokenFault::NotJson) => "NotJson",
        Err(TokenFault::TooDeep) => "TooDeep",
        Err(TokenFault::BadNumber) => "BadNumber",
        Err(TokenFault::TooLarge) => "TooLarge",
        Err(TokenFault::OutOfMemory) => "OutOfMemory",
    };
    String::from_str(alloc, name)
}

/// The text of what `read_tree` gives, or `None`.
pub(crate) fn tree_outcome(alloc: Global, bytes: &[u8]) -> Result<String, AllocError> {
    match read_tree(alloc, bytes)? {
        Some(token) => String::from_str(alloc, text(alloc, &token)?.as_str()),
        None => String::from_str(alloc, "None"),
    }
}

/// `read` gives a token of this text, or this fault.
pub(crate) fn reads_as(
    rt: &impl Abort,
    alloc: Global,
    bytes: &[u8],
    wanted: &str,
) -> Result<(), Fail> {
    let told = outcome(alloc, bytes)?;
    assert_eq!(rt; told.as_str(), wanted);
    Ok(())
}

/// `read_tree` gives a token of this text, or `None`.
pub(crate) fn tree_reads_as(
    rt: &impl Abort,
    alloc: Global,
    bytes: &[u8],
    wanted: &str,
) -> Result<(), Fail> {
    let told = tree_outcome(alloc, bytes)?;
    assert_eq!(rt; told.as_str(), wanted);
    Ok(())
}

/// The bytes are no JSON to either reader.
pub(crate) fn is_no_json(rt: &impl Abort, alloc: Global, bytes: &[u8]) -> Result<(), Fail> {
    reads_as(rt, alloc, bytes, "NotJson")?;
    tree_reads_as(rt, alloc, bytes, "None")
}

/// `front`, then `part` `count` times, then `back`.
pub(crate) fn repeated(
    alloc: Global,
    front: &str,
    part: &str,
    count: usize,
    back: &str,
) -> Result<String, AllocError> {
    let mut text = String::from_str(alloc, front)?;
    for _i in 0..count {
        text.push_str(part)?;
    }
    text.push_str(back)?;
    Ok(text)
}

/// `open`, `count` times, then `middle`, then `close`, `count` times.
pub(crate) fn wrapped(
    alloc: Global,
    open: &str,
    middle: &str,
    close: &str,
    count: usize,
) -> Result<String, AllocError> {
    let front = repeated(alloc, "", open, count, middle)?;
    repeated(alloc, front.as_str(), close, count, "")
}
