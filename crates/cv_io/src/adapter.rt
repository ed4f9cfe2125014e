//! Readers and writers of std as sources and sinks.

ghost use Rattle.std.specs.Prelude.{◌≡◌, ◌<◌, ◌≤◌, length};
ghost use Rattle.cv_io.specs.Adapter.{reader_of, failed_reads, writer_of, failed_writes, CountsRead, CountsWrite};
ghost use Rattle.cv_io.specs.Bytes.{GivesBytes, Takes, CountsReads, CountsWrites};

use crate::sink::{Sink, Took};
use crate::source::{Got, Source};
use std::io::{Read, Write};

/// A reader as a source. It tells the bytes that the reader tells, and counts each error of the reader as a fault.
#[derive(Drop)]
pub struct StdSource<R> {
    inner: R,
    faults: u64,
}

impl<R: Read> StdSource<R> {
    /// The reader as a source without faults so far.
    pub fn new(inner: R) -> StdSource<R>
        ensures reader { reader_of result ≡ inner }
        ensures faults { failed_reads result ≡ 0 }
    {
        StdSource { inner, faults: 0 }
    }
}

impl<R: Read> Source for StdSource<R> {
    ghost left = { λ s. R.remaining (reader_of s) };

    ghost faults = { failed_reads };

    fn read(&mut self, buf: &mut [u8]) -> Got
        requires { 0 < length buf.old }
        ensures later { failed_reads self.old ≤ failed_reads self.new }
        ensures bytes { GivesBytes (R.remaining (reader_of self.old)) (R.remaining (reader_of self.new)) buf.new result }
        ensures count { CountsReads (failed_reads self.old) (failed_reads self.new) result }
        ensures once { CountsRead (failed_reads self.old) (failed_reads self.new) result }
    {
        match self.inner.read(buf) {
            Ok(0) => Got::End,
            Ok(count) => Got::Bytes(count),
            Err(_) => {
                self.faults = self.faults.saturating_add(1);
                Got::Failed
            }
        }
    }
}

/// A writer as a sink. It tells the bytes that the writer tells, and counts as a fault each error of the writer and
/// each call that takes nothing. It flushes nothing: hand in a writer that keeps nothing back.
#[derive(Drop)]
pub struct StdSink<W> {
    inner: W,
    faults: u64,
}

impl<W: Write> StdSink<W> {
    /// The writer as a sink without faults so far.
    pub fn new(inner: W) -> StdSink<W>
        ensures writer { writer_of result ≡ inner }
        ensures faults { failed_writes result ≡ 0 }
    {
        StdSink { inner, faults: 0 }
    }
}

impl<W: Write> Sink for StdSink<W> {
    ghost written = { λ s. W.contents (writer_of s) };

    ghost faults = { failed_writes };

    fn write(&mut self, piece: &[u8]) -> Took
        requires { 0 < length piece.now }
        ensures later { failed_writes self.old ≤ failed_writes self.new }
        ensures bytes { Takes (W.contents (writer_of self.old)) (W.contents (writer_of self.new)) piece.now result }
        ensures count { CountsWrites (failed_writes self.old) (failed_writes self.new) result }
        ensures once { CountsWrite (failed_writes self.old) (failed_writes self.new) result }
    {
        match self.inner.write(piece) {
            Ok(0) | Err(_) => {
                self.faults = self.faults.saturating_add(1);
                Took::Failed
            }
            Ok(count) => Took::Bytes(count),
        }
    }
}
