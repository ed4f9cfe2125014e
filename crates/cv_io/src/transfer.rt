//! Whole texts: reading a source to its end, and writing all of a text.

ghost use Rattle.std.specs.Prelude.{◌≡◌, ◌<◌, ◌≤◌, ℕ, length, take, OnOk, OnErr};
ghost use Rattle.std.specs.Io.KnownBytes.{Appends};
ghost use Rattle.cv_io.specs.Faults.{Rose};
ghost use Rattle.cv_io.specs.Whole.{ReadsAll, ReadsCount, AppendsFront};
ghost use Rattle.cv_io.specs.declared.transfer.ReadAll.TheVariants.{OutOfMemory};

use crate::sink::{Sink, Took};
use crate::source::{Got, Source};
use std::alloc::{AllocError, Global};

/// The most bytes that one call of a source is asked for.
const STEP: usize = 4096;

/// Why a source was not read to its end.
#[derive(Clone, Copy, Debug, PartialEq, Eq)]
pub enum ReadAll {
    /// The source failed: its count of faults rose.
    ReadFault,
    /// The source gave one byte more than the limit.
    TooLong,
    /// Memory ran out.
    OutOfMemory,
}

impl From<AllocError> for ReadAll {
    ghost from_gives = { λ _ e. e ≡ OutOfMemory };

    fn from(_: AllocError) -> ReadAll {
        ReadAll::OutOfMemory
    }
}

/// A text was not written whole: the sink failed.
#[derive(Clone, Copy, Debug, PartialEq, Eq)]
pub struct WriteFault;

/// Reads a source to its end, and never more than one byte past `limit`. After a refusal the bytes that were
/// already taken are lost.
pub fn read_all<S: Source>(alloc: Global, source: &mut S, limit: usize) -> Result<Vec<u8>, ReadAll>
    ensures later { S.faults source.old ≤ S.faults source.new }
    ensures bytes { ReadsAll limit (S.left source.old) (S.left source.new) result }
    ensures count { ReadsCount (S.faults source.old) (S.faults source.new) result }
{
    let mut bytes = Vec::new(alloc);
    let mut step = [0u8; STEP];
    loop {
        let room = limit - bytes.len();
        match source.read(&mut step[..room.min(STEP - 1) + 1]) {
            Got::Bytes(count) => {
                if count > room {
                    return Err(ReadAll::TooLong);
                }
                bytes.extend_from_slice(&step[..count])?;
            }
            Got::End => return Ok(bytes),
            Got::Failed => return Err(ReadAll::ReadFault),
        }
    }
}

/// Writes all of a text. After a refusal a part of it from the front, and not the whole, is written.
pub fn write_all<K: Sink>(sink: &mut K, text: &[u8]) -> Result<(), WriteFault>
    ensures later { K.faults sink.old ≤ K.faults sink.new }
    ensures ok { OnOk result (Appends (K.written sink.old) (K.written sink.new) text.now) }
    ensures prefix { OnErr result (AppendsFront (K.written sink.old) (K.written sink.new) text.now) }
    ensures cause { OnErr result (Rose (K.faults sink.old) (K.faults sink.new)) }
    ensures steady { OnOk result (K.faults sink.new ≡ K.faults sink.old) }
{
    let mut at = 0;
    while at < text.len() {
        match sink.write(&text[at..]) {
            Took::Bytes(count) => at += count,
            Took::Failed => return Err(WriteFault),
        }
    }
    Ok(())
}
