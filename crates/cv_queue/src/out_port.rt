//! `OutPort`: the tokens that an actor wrote and that some reader still needs.

ghost use Rattle.std.specs.Prelude.{◌≡◌, ℕ, ◌+◌, ◌-◌, ◌^◌, ◌<◌, ◌≤◌, ◌↔◌, length, map, slice_get, Some, IfOk, IfSome, OnSome, IsSomeAnd, IsSome, IsTrue, SomeIff};
ghost use Rattle.std.specs.Option.{option_copied};
ghost use Rattle.cv_queue.specs.Ports.{place, reader_from, count, IsOutPort, AreWritten, count_of, first_needed_from, new_out, out_at, space, token_at, token_for, after_write, acknowledges, after_ack, after_rewind, after_sent, HasUnsent, IsThere};

use crate::reader::{MOST_READERS, Reader, Readers};
use crate::slots::{copy_with_room, drop_front, with_room};
use cv_token::{Items, OutOfMemory, Token};
use std::alloc::Global;
use std::marker::Model;

/// The most tokens that a port counts.
const MOST: u64 = 1 << 62;

/// An outport: the tokens that were written and that some reader has not acknowledged, in order.
/// Contracts see it as an `OutView`, whose positions are in order.
#[derive(Drop)]
pub struct OutPort {
    held: Vec<Token>,
    write: u64,
    cap: u16,
    readers: Vec<Reader>,
}

impl Model for OutPort {
    ghost use Rattle.std.specs.Prelude.{◌≤◌, length};
    ghost use Rattle.std.specs.Vec.{vec_capacity};
    ghost use Rattle.cv_queue.specs.Ports.{OutView, out_code, IsOutPort};

    ghost Value = { OutView };

    ghost coded = { out_code };

    ghost view = { λ p. record { held = p.held.items; write = p.write; cap = p.cap; readers = p.readers.items } };

    ghost invariant = { λ p. IsOutPort (record { held = p.held.items; write = p.write; cap = p.cap; readers = p.readers.items }) × (p.cap ≤ vec_capacity p.held) × (length p.readers.items ≤ 65535) };
}

/// The number, in the port, of reader `k`'s own token number `n`, where there are `readers` of them.
#[tactic(auto, unfolding(crate::specs::Ports::place))]
fn place_among(_readers: usize, _k: usize, n: u64) -> u64
    ensures { result ≡ place _readers _k n }
{
    n
}

/// How many of the first `written` tokens of the port are reader `k`'s, where there are `readers`.
#[tactic(auto, unfolding(crate::specs::Ports::count))]
fn count_among(_readers: usize, written: u64, _k: usize) -> u64
    ensures { result ≡ count _readers written _k }
{
    written
}

/// The number of the first token that one of the readers has not acknowledged.
fn first_needed(readers: &[Reader], written: u64) -> u64
    ensures value { result ≡ first_needed_from (length readers.now) written 0 readers.now }
    ensures within { result ≤ written }
{
    let mut least = written;
    for (k, reader) in readers.iter().enumerate() {
        least = least.min(place_among(readers.len(), k, reader.acked));
    }
    least
}

/// The reader at this place.
fn reader_at(readers: &[Reader], k: u16) -> Reader
    requires { k < length readers.now }
    ensures { slice_get readers.now k ≡ Some result }
{
    readers[usize::from(k)]
}

/// Readers that have acknowledged nothing yet.
fn new_readers(alloc: Global, readers: &Readers) -> Result<Vec<Reader>, OutOfMemory>
    ensures value { IfOk result (λ list. list.items ≡ map (reader_from 0) readers.now) }
    ensures few { length readers.now ≤ 65535 }
{
    let list = readers.as_slice();
    list.iter().map(|s| s.reader(0)).collect(alloc)
}

/// Readers to whom nothing was sent beyond what they have acknowledged.
fn resumed_readers(alloc: Global, readers: &Readers) -> Result<Vec<Reader>, OutOfMemory>
    ensures value { IfOk result (λ list. list.items ≡ map (λ s. reader_from s.acked s) readers.now) }
    ensures few { length readers.now ≤ 65535 }
{
    let list = readers.as_slice();
    list.iter().map(|s| s.reader(s.acked)).collect(alloc)
}

/// Whether no reader has acknowledged more of its tokens than it has.
fn are_written(readers: &[Reader], written: u64) -> bool
    ensures { IsTrue result ↔ AreWritten written readers.now }
{
    for (k, reader) in readers.iter().enumerate() {
        if reader.acked > count_among(readers.len(), written, k) {
            return false;
        }
    }
    true
}

impl OutPort {
    /// An empty port of `cap` places, which are reserved. Nothing is acknowledged yet.
    pub fn new(alloc: Global, cap: u16, readers: Readers) -> Result<OutPort, OutOfMemory>
        requires { 1 ≤ cap }
        ensures { IfOk result (λ port. port ≡ new_out cap readers) }
    {
        Ok(OutPort {
            held: Vec::with_capacity(alloc, usize::from(cap))?,
            write: 0,
            cap,
            readers: new_readers(alloc, &readers)?,
        })
    }

    /// The port that wrote `write` tokens and holds the last of them, with these readers, to whom
    /// nothing was sent beyond what they have acknowledged; its places are reserved. None comes exactly
    /// where no port stands so.
    pub fn of(
        alloc: Global,
        cap: u16,
        write: u64,
        held: Items,
        readers: Readers,
    ) -> Result<Option<OutPort>, OutOfMemory>
        ensures { IfOk result (λ port. SomeIff port (IsOutPort (out_at cap write held readers)) (out_at cap write held readers)) }
    {
        let readers = resumed_readers(alloc, &readers)?;
        if cap == 0 || held.len() > usize::from(cap) || write > MOST {
            return Ok(None);
        }
        if !are_written(&readers, write)
            || held.len() as u64 != write - first_needed(&readers, write)
        {
            return Ok(None);
        }
        Ok(Some(OutPort {
            held: with_room(alloc, cap, held)?,
            write,
            cap,
            readers,
        }))
    }

    /// An equal port of its own, whose places are reserved too.
    pub fn copy(&self, alloc: Global) -> Result<OutPort, OutOfMemory>
        ensures { IfOk result (λ port. port ≡ self.now) }
    {
        Ok(OutPort {
            held: copy_with_room(alloc, self.cap, &self.held)?,
            write: self.write,
            cap: self.cap,
            readers: Vec::from_slice(alloc, &self.readers)?,
        })
    }

    /// How many tokens were written.
    pub fn written(&self) -> u64
        ensures value { result ≡ self.now.write }
        ensures positions { IsOutPort self.now }
    {
        self.write
    }

    /// How many tokens are held.
    pub fn len(&self) -> u16
        ensures { result ≡ length self.now.held }
    {
        prove!(self.held.len() <= usize::from(self.cap));
        self.held.len() as u16
    }

    /// How many tokens the port can hold.
    pub fn cap(&self) -> u16
        ensures { result ≡ self.now.cap }
    {
        self.cap
    }

    /// How many more tokens the port can hold.
    pub fn space(&self) -> u16
        ensures { result ≡ space self.now }
    {
        self.cap - self.len()
    }

    /// How many readers the port has.
    pub fn readers(&self) -> u16
        ensures { result ≡ length self.now.readers }
    {
        prove!(self.readers.len() <= MOST_READERS);
        self.readers.len() as u16
    }

    /// The reader at place `i`, where there is one.
    pub fn reader(&self, i: u16) -> Option<Reader>
        ensures value { result ≡ slice_get self.now.readers i }
        ensures there { IsSome result ↔ (i < length self.now.readers) }
        ensures positions { IfSome result (λ r. (r.acked ≤ r.sent) × (r.sent ≤ count_of self.now i)) }
    {
        self.readers.get(usize::from(i)).copied()
    }

    /// How many of its own tokens the reader has.
    pub fn count(&self, reader: u16) -> u64
        requires { reader < length self.now.readers }
        ensures { result ≡ count_of self.now reader }
    {
        count_among(self.readers.len(), self.write, usize::from(reader))
    }

    /// Token number `n`, where it is held.
    pub fn token_at(&self, n: u64) -> Option<&Token>
        ensures { option_copied result ≡ token_at self.now n }
    {
        let first = self.write - self.held.len() as u64;
        if n < first || n >= self.write {
            return None;
        }
        self.held.get((n - first) as usize)
    }

    /// The reader's token number `n`, where it is held.
    pub fn token_for(&self, reader: u16, n: u64) -> Option<&Token>
        requires { reader < length self.now.readers }
        ensures value { option_copied result ≡ token_for self.now reader n }
        ensures written { OnSome result ((n < count_of self.now reader) × (n < 2 ^ 62)) }
        ensures there { IsThere self.now reader n (slice_get self.now.readers reader) → IsSome result }
    {
        let _write = self.write;
        self.token_at(place_among(self.readers.len(), usize::from(reader), n))
    }

    /// Writes the token. Where nobody reads the port it is not kept.
    pub fn write(&mut self, token: Token)
        requires room { 1 ≤ space self.old }
        requires number { self.old.write < 2 ^ 62 }
        ensures { self.new ≡ after_write self.old token }
    {
        self.write += 1;
        if self.readers.is_empty() {
            return;
        }
        let Ok(()) = self.held.push(token) else {
            unreachable!()
        };
    }

    /// Raises what the reader has acknowledged to `upto`, where that is more and it has so many
    /// tokens. Tokens that every reader has acknowledged go.
    pub fn ack(&mut self, reader: u16, upto: u64) -> bool
        requires { reader < length self.old.readers }
        ensures answer { result ≡ acknowledges self.old reader upto }
        ensures after { self.new ≡ after_ack self.old reader upto }
    {
        let place = usize::from(reader);
        let before = reader_at(&self.readers, reader);
        if upto <= before.acked || upto > count_among(self.readers.len(), self.write, place) {
            return false;
        }
        self.readers[place] = Reader {
            acked: upto,
            sent: before.sent.max(upto),
            ..before
        };
        let first = self.write - self.held.len() as u64;
        let needed = first_needed(&self.readers, self.write);
        drop_front(&mut self.held, (needed - first) as usize);
        true
    }

    /// Makes what the reader has not acknowledged unsent again.
    pub fn rewind(&mut self, reader: u16)
        requires { reader < length self.old.readers }
        ensures { self.new ≡ after_rewind self.old reader }
    {
        let before = reader_at(&self.readers, reader);
        self.readers[usize::from(reader)] = Reader {
            sent: before.acked,
            ..before
        };
    }

    /// Counts one more of its tokens as sent to the reader.
    pub fn mark_sent(&mut self, reader: u16)
        requires { IsSomeAnd (slice_get self.old.readers reader) (HasUnsent self.old reader) }
        ensures { self.new ≡ after_sent self.old reader }
    {
        // The token stays until it is acknowledged.
        let before = reader_at(&self.readers, reader);
        self.readers[usize::from(reader)] = Reader {
            sent: before.sent + 1,
            ..before
        };
    }
}
