//! What both rows need: a worker that waits with a limit of turns, and the answer of the top call through a gate.

use cv_io::{Gate, MemSink, MemSource};
use cv_top::{Outcome, calvin};
use std::alloc::{AllocError, Global};
use std::sync::atomic::AtomicU32;
use std::sync::atomic::Ordering::SeqCst;
use std::thread::{Threads, yield_now};

/// A worker is held for so many turns at most.
const MOST_TURNS: u32 = 1 << 22;

/// Waits until the number is at least so high; false where it wasn't within the limit of turns.
pub(crate) fn reaches(number: &AtomicU32, wanted: u32) -> bool {
    for _turn in 0..MOST_TURNS {
        if number.load(SeqCst) >= wanted {
            return true;
        }
        yield_now();
    }
    false
}

/// The answer of the top call on these words and this script, where the workers pass this gate.
pub(crate) fn answer<R: Threads + Sync, G: Gate>(
    rt: &R,
    alloc: Global,
    words: &[&str],
    script: &str,
    sink: &mut MemSink,
    gate: &G,
) -> Result<Outcome, AllocError> {
    let mut list = Vec::new(alloc);
    for word in words {
        list.push(String::from_str(alloc, word)?)?;
    }
    let bytes = Vec::from_slice(alloc, script.as_bytes())?;
    let mut source = MemSource::new(bytes, 100, Vec::new(alloc));
    Ok(calvin(rt, alloc, list.as_slice(), &mut source, sink, gate))
}
