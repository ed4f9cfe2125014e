//! How a call ends, with its status, its record and its text.

ghost use Rattle.std.specs.Prelude.{◌≡◌, [], vec_len};
ghost use Rattle.cv_top.specs.Answers.{status_of};
ghost use Rattle.cv_top.specs.Causes.{end_of};
ghost use Rattle.cv_top.specs.Ran.{end_at, IsEmptyRecord};

use cv_alone::RunEnd;
use cv_deploy::Code;
use cv_protocol::{NodeSpecs, Record, Steps};
use cv_words::Stray;
use std::alloc::Global;

/// How a call ends.
#[derive(Debug, Clone, Copy, PartialEq, Eq)]
pub enum End {
    /// As many firings were made as the words allow.
    Spent,
    /// Nothing can fire and no token can move.
    Quiescent,
    /// The command was done.
    Done,
    /// The words are not of the form.
    Usage,
    /// The script has no meaning; its first fault, with line and column from 1, columns counting bytes.
    Script { line: u32, col: u32, code: Code },
    /// The script has a meaning, and an item of the words names a node that does not run; the place of the first such among all items, from 0.
    Plan { item: u32 },
    /// The source failed.
    ReadFault,
    /// The sink failed; a part of the text, from its front, is on it.
    WriteFault,
    /// Memory ran out.
    OutOfMemory,
    /// The source gave more bytes than its limit.
    TooLong,
}

/// Why a command was not done.
#[derive(Debug, Clone, Copy, PartialEq, Eq)]
pub enum Refusal {
    /// The words are not of the form.
    Usage,
    /// The script has no meaning.
    Script { line: u32, col: u32, code: Code },
    /// An item of the words names a node that does not run.
    Plan { stray: Stray },
    /// The source failed.
    ReadFault,
    /// Memory ran out.
    OutOfMemory,
    /// The source gave more bytes than its limit.
    TooLong,
}

impl Refusal {
    /// How the call ends where its sink takes the line.
    pub fn end(self) -> End
        ensures { result ≡ end_of self }
    {
        match self {
            Refusal::Usage => End::Usage,
            Refusal::Script { line, col, code } => End::Script { line, col, code },
            Refusal::Plan { stray } => End::Plan { item: stray.place },
            Refusal::ReadFault => End::ReadFault,
            Refusal::OutOfMemory => End::OutOfMemory,
            Refusal::TooLong => End::TooLong,
        }
    }
}

/// What a command answers that was done: how it ends, its record, and its text.
#[derive(Drop)]
pub struct Answer {
    pub end: End,
    pub merged: Record,
    pub text: String,
}

/// The lengths of the nodes' journals at one moment.
#[derive(Drop)]
pub struct Cut {
    /// Which item of the words the moment belongs to.
    pub item: u64,
    /// The length of each node's journal, by number.
    pub ends: Vec<u32>,
}

/// What a call leaves: its status, how it ended, the record of its run, and the cuts of its items.
#[derive(Drop)]
pub struct Outcome {
    pub status: u8,
    pub end: End,
    pub merged: Record,
    pub cuts: Vec<Cut>,
}

impl Outcome {
    /// The outcome of a call that ended so with this record.
    pub fn new(alloc: Global, end: End, merged: Record) -> Outcome
        ensures end { result.end ≡ end }
        ensures merged { result.merged ≡ merged }
        ensures status { result.status ≡ status_of end }
        ensures cuts { vec_len result.cuts ≡ 0 }
    {
        Outcome {
            status: end.status(),
            end,
            merged,
            cuts: Vec::new(alloc),
        }
    }
}

/// A record without nodes and entries.
pub fn empty_record(alloc: Global) -> Record
    ensures { IsEmptyRecord result }
{
    Record {
        specs: NodeSpecs::new(alloc),
        entries: Steps::new(alloc),
    }
}

impl End {
    /// The end of a run that stopped so.
    pub fn at(stop: RunEnd) -> End
        ensures { result ≡ end_at stop }
    {
        match stop {
            RunEnd::Spent => End::Spent,
            RunEnd::Quiescent => End::Quiescent,
        }
    }

    /// The status with which the program ends.
    pub fn status(self) -> u8
        ensures { result ≡ status_of self }
    {
        match self {
            End::Spent | End::Quiescent | End::Done => 0,
            End::Usage => 2,
            End::Script {
                line: _,
                col: _,
                code: _,
            } => 3,
            End::ReadFault => 4,
            End::WriteFault => 5,
            End::OutOfMemory => 6,
            End::Plan { item: _ } => 7,
            End::TooLong => 8,
        }
    }
}
