//! A source and a sink in memory, which give and take bytes in small pieces and fail at stated calls.

ghost use Rattle.std.specs.Prelude.{◌≡◌, ◌<◌, ◌≤◌, [], Some, length, min, take};
ghost use Rattle.cv_io.specs.Bytes.{GivesBytes, Takes, CountsReads, CountsWrites};
ghost use Rattle.cv_io.specs.Memory.{ReadsMemory, WritesMemory, opened, IsOpened};

use crate::sink::{Sink, Took};
use crate::source::{Got, Source};
use std::alloc::Global;
use std::marker::Model;

/// A source of bytes in memory. It gives at most `per` bytes a call, and fails at the calls whose numbers are listed.
#[derive(Drop)]
pub struct MemSource {
    bytes: Vec<u8>,
    at: usize,
    per: usize,
    fail_at: Vec<u32>,
    calls: u32,
    faults: u64,
}

impl Model for MemSource {
    ghost use Rattle.std.specs.Prelude.{◌<◌, ◌≤◌, drop, length};
    ghost use Rattle.cv_io.specs.Memory.{Memory};

    ghost Value = { Memory };

    ghost view = { λ s. record {
      bytes = drop s.at s.bytes.items;
      per = s.per;
      fail_at = s.fail_at.items;
      calls = s.calls;
      faults = s.faults;
      room = 0;
    } };

    ghost invariant = { λ s. (s.at ≤ length s.bytes.items) × (0 < s.per) };
}

impl MemSource {
    /// A source of these bytes. Calls are counted from 1; each call past 2^32 - 1 bears that number.
    pub fn new(bytes: Vec<u8>, per: usize, fail_at: Vec<u32>) -> MemSource
        requires { 0 < per }
        ensures { result ≡ opened bytes.items per fail_at.items }
    {
        MemSource {
            bytes,
            at: 0,
            per,
            fail_at,
            calls: 0,
            faults: 0,
        }
    }
}

impl Source for MemSource {
    ghost left = { λ s. Some s.bytes };

    ghost faults = { λ s. s.faults };

    fn read(&mut self, buf: &mut [u8]) -> Got
        requires { 0 < length buf.old }
        ensures later { self.old.faults ≤ self.new.faults }
        ensures bytes { GivesBytes (Some self.old.bytes) (Some self.new.bytes) buf.new result }
        ensures count { CountsReads self.old.faults self.new.faults result }
        ensures call { ReadsMemory self.old self.new (length buf.old) result }
    {
        self.calls = self.calls.saturating_add(1);
        if self.fail_at.contains(&self.calls) {
            self.faults = self.faults.saturating_add(1);
            return Got::Failed;
        }
        let rest = &self.bytes[self.at..];
        if rest.is_empty() {
            return Got::End;
        }
        let count = copy_front(rest, buf, self.per);
        self.at += count;
        Got::Bytes(count)
    }
}

/// Copies the front of `rest` to the front of the buffer, as much as there is and as has room, and at most `per` bytes.
fn copy_front(rest: &[u8], buf: &mut [u8], per: usize) -> usize
    ensures count { result ≡ min (min per (length buf.old)) (length rest.now) }
    ensures front { take result buf.new ≡ take result rest.now }
{
    let count = per.min(buf.len()).min(rest.len());
    buf[..count].copy_from_slice(&rest[..count]);
    count
}

/// A sink in memory. It takes at most `per` bytes a call, and fails at the calls whose numbers are listed and where it
/// lacks room and memory is refused to it.
#[derive(Drop)]
pub struct MemSink {
    bytes: Vec<u8>,
    per: usize,
    fail_at: Vec<u32>,
    calls: u32,
    faults: u64,
}

impl Model for MemSink {
    ghost use Rattle.std.specs.Prelude.{◌<◌, vec_capacity};
    ghost use Rattle.cv_io.specs.Memory.{Memory};

    ghost Value = { Memory };

    ghost view = { λ s. record {
      bytes = s.bytes.items;
      per = s.per;
      fail_at = s.fail_at.items;
      calls = s.calls;
      faults = s.faults;
      room = vec_capacity s.bytes;
    } };

    ghost invariant = { λ s. 0 < s.per };
}

impl MemSink {
    /// A sink that holds nothing yet. Calls are counted from 1; each call past 2^32 - 1 bears that number.
    pub fn new(alloc: Global, per: usize, fail_at: Vec<u32>) -> MemSink
        requires { 0 < per }
        ensures { IsOpened [] per fail_at.items result }
    {
        MemSink {
            bytes: Vec::new(alloc),
            per,
            fail_at,
            calls: 0,
            faults: 0,
        }
    }

    /// What was written.
    pub fn bytes(&self) -> &[u8]
        ensures { result.now ≡ self.now.bytes }
    {
        &self.bytes
    }
}

impl Sink for MemSink {
    ghost written = { λ s. Some s.bytes };

    ghost faults = { λ s. s.faults };

    fn write(&mut self, piece: &[u8]) -> Took
        requires { 0 < length piece.now }
        ensures later { self.old.faults ≤ self.new.faults }
        ensures bytes { Takes (Some self.old.bytes) (Some self.new.bytes) piece.now result }
        ensures count { CountsWrites self.old.faults self.new.faults result }
        ensures call { WritesMemory self.old self.new piece.now result }
    {
        self.calls = self.calls.saturating_add(1);
        let count = self.per.min(piece.len());
        if self.fail_at.contains(&self.calls) {
            self.faults = self.faults.saturating_add(1);
            return Took::Failed;
        }
        if self.bytes.extend_from_slice(&piece[..count]).is_err() {
            self.faults = self.faults.saturating_add(1);
            return Took::Failed;
        }
        Took::Bytes(count)
    }
}
