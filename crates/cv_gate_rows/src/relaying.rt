//! A frame is delivered in the round in which it was sent.

use crate::turning::{answer, reaches};
use cv_io::{Gate, MemSink};
use cv_protocol::{Event, Step};
use std::alloc::{AllocError, Global};
use std::sync::atomic::Ordering::SeqCst;
use std::sync::atomic::{AtomicBool, AtomicU32};
use std::test::Fail;

/// A run of 1,000 firings has fewer rounds than that: at most 1,000 with a firing, one without before each of these, and two at the end.
const MOST_ROUNDS: usize = 2_048;

/// The lengths of a node's journal that its worker told, by rounds; 0 where it told none.
#[derive(Drop)]
struct Lengths {
    starts: Vec<AtomicU32>,
    ends: Vec<AtomicU32>,
}

/// A number 0 for each round.
fn zeros(alloc: Global) -> Result<Vec<AtomicU32>, AllocError> {
    let mut numbers = Vec::with_capacity(alloc, MOST_ROUNDS)?;
    for _round in 0..MOST_ROUNDS {
        numbers.push(AtomicU32::new(0))?;
    }
    Ok(numbers)
}

/// Puts down the length for the round.
fn put(numbers: &[AtomicU32], round: u32, length: u32) {
    if let Some(number) = numbers.get(round as usize) {
        number.store(length, SeqCst);
    }
}

/// The length for the round.
fn at(numbers: &[AtomicU32], round: usize) -> u32 {
    match numbers.get(round) {
        Some(number) => number.load(SeqCst),
        None => 0,
    }
}

impl Lengths {
    /// No length is told yet.
    fn new(alloc: Global) -> Result<Lengths, AllocError> {
        let starts = zeros(alloc)?;
        let ends = zeros(alloc)?;
        Ok(Lengths { starts, ends })
    }

    /// The lengths at the start and at the end of the round.
    fn in_round(&self, round: usize) -> Span {
        Span {
            start: at(self.starts.as_slice(), round) as u64,
            end: at(self.ends.as_slice(), round) as u64,
        }
    }
}

/// The entries of a node's journal from one length to another.
#[derive(Clone, Copy)]
struct Span {
    start: u64,
    end: u64,
}

impl Span {
    /// Whether the entry of that number, counted from 0, is one of these.
    fn has(self, number: u64) -> bool {
        self.start <= number && number < self.end
    }
}

/// Holds the worker of node 2 at the start of each round until that of node 1 has left it, and keeps what both tell.
#[derive(Drop)]
struct Relay {
    first: Lengths,
    second: Lengths,
    /// The round that the worker of node 1 left last.
    left: AtomicU32,
    /// Whether the limit of turns was reached.
    late: AtomicBool,
}

impl Relay {
    /// What the worker of the node told.
    fn lengths(&self, node: u16) -> &Lengths {
        if node == 1 { &self.first } else { &self.second }
    }
}

impl Gate for Relay {
    fn pass(&self, node: u16, round: u32, at: u32) {
        if node == 2 && !self.late.load(SeqCst) && !reaches(&self.left, round) {
            self.late.store(true, SeqCst);
        }
        put(self.lengths(node).starts.as_slice(), round, at);
    }

    fn leave(&self, node: u16, round: u32, at: u32) {
        put(self.lengths(node).ends.as_slice(), round, at);
        if node == 1 {
            self.left.store(round, SeqCst);
        }
    }
}

/// The stamp of a step that sends a token.
fn sent(step: &Step) -> Option<u64> {
    match &step.event {
        Event::Send { conn: _ } => Some(step.stamp),
        _ => None,
    }
}

/// The stamp of the step that sent the frame of node 1 which a step delivers.
fn delivered(step: &Step) -> Option<u64> {
    match &step.event {
        Event::Deliver { frame } => {
            if frame.from == 1 {
                Some(frame.stamp)
            } else {
                None
            }
        }
        _ => None,
    }
}

/// The stamps of the tokens that node 1 sent in these entries.
fn stamps_sent(alloc: Global, steps: &[Step], span: Span) -> Result<Vec<u64>, AllocError> {
    let mut stamps = Vec::new(alloc);
    let mut number: u64 = 0;
    for step in steps {
        if step.node == 1 {
            if let Some(stamp) = sent(step) {
                if span.has(number) {
                    stamps.push(stamp)?;
                }
            }
            number = number.saturating_add(1);
        }
    }
    Ok(stamps)
}

/// Whether node 2 delivered in these entries a frame with one of these stamps.
fn is_one_delivered(steps: &[Step], span: Span, stamps: &[u64]) -> bool {
    let mut number: u64 = 0;
    for step in steps {
        if step.node == 2 {
            if let Some(stamp) = delivered(step) {
                if span.has(number) && stamps.contains(&stamp) {
                    return true;
                }
            }
            number = number.saturating_add(1);
        }
    }
    false
}

/// Whether node 2 delivered in the round what node 1 sent in it.
fn is_delivered_in(
    alloc: Global,
    steps: &[Step],
    gate: &Relay,
    round: usize,
) -> Result<bool, AllocError> {
    let stamps = stamps_sent(alloc, steps, gate.first.in_round(round))?;
    Ok(is_one_delivered(steps, gate.second.in_round(round), stamps.as_slice()))
}

/// Whether in some round node 2 delivered what node 1 sent in it.
fn is_delivered_within(alloc: Global, steps: &[Step], gate: &Relay) -> Result<bool, AllocError> {
    for round in 1..MOST_ROUNDS {
        if is_delivered_in(alloc, steps, gate, round)? {
            return Ok(true);
        }
    }
    Ok(false)
}

// The print is the second actor, and so it stands on node 2.
#[test]
fn frames_are_delivered_within_a_round(rt: HostRuntime) -> Result<(), Fail> {
    let alloc = rt.alloc();
    let script = "src : std.Counter()\nsnk : io.Print()\nsrc.integer > snk.token\n";
    let mut sink = MemSink::new(alloc, 1000, Vec::new(alloc));
    let gate = Relay {
        first: Lengths::new(alloc)?,
        second: Lengths::new(alloc)?,
        left: AtomicU32::new(0),
        late: AtomicBool::new(false),
    };
    let words = ["run", "--nodes", "2", "--firings", "1000"];
    let outcome = answer(&rt, alloc, &words, script, &mut sink, &gate)?;
    assert_eq!(rt; outcome.status, 0);
    assert!(rt; !gate.late.load(SeqCst));
    assert!(rt;
        sink.bytes()
            .ends_with("\nfirings 1000\nend spent\n".as_bytes())
    );
    assert!(rt; is_delivered_within(alloc, outcome.merged.entries.as_slice(), &gate)?);
    Ok(())
}
