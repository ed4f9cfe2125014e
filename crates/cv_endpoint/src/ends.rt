//! What a producer sends next, and what its end and its consumer's make of what comes to them.

ghost use Rattle.std.specs.Prelude.{◌≡◌, ℕ, ◌+◌, ◌^◌, ◌<◌, ◌≤◌, length, slice_get, Some, IfOk, IfSome, OnSome, IsSomeAnd, OnOk, OnErr};
ghost use Rattle.cv_queue.specs.Ports.{received, after_offer, after_ack, acknowledges, HasUnsent, IsThere};
ghost use Rattle.cv_endpoint.specs.Ends.{next_number, acked, after_nack, answer_of, to_move, is_there, out_after_move, in_after_move};

use cv_queue::{InPort, Offered, OutPort, Reader};
use cv_token::{OutOfMemory, Token};
use std::alloc::Global;

/// What a consumer's end answers to a token: it tells how many tokens it has received.
#[derive(Debug, Clone, Copy, PartialEq, Eq)]
pub enum Answer {
    /// The token was taken, now or before.
    Ack(u64),
    /// The token was not taken.
    Nack(u64),
}

/// The reader at this place, which is there.
fn reader_of(out: &OutPort, reader: u16) -> Reader
    requires { reader < length out.now.readers }
    ensures value { slice_get out.now.readers reader ≡ Some result }
    ensures in_order { result.acked ≤ result.sent }
{
    let Some(found) = out.reader(reader) else {
        unreachable!()
    };
    found
}

/// The number of the token that goes to the reader next. None comes exactly where all of its tokens
/// are sent, or `window` of them are sent and not acknowledged.
pub fn next_to_send(out: &OutPort, reader: u16, window: u16) -> Option<u64>
    requires { reader < length out.now.readers }
    ensures value { result ≡ next_number out.now reader window }
    ensures unsent { OnSome result (IsSomeAnd (slice_get out.now.readers reader) (HasUnsent out.now reader)) }
    ensures there { IfSome result (λ n. IsThere out.now reader n (slice_get out.now.readers reader)) }
{
    let found = reader_of(out, reader);
    if found.sent < out.count(reader) && found.sent - found.acked < u64::from(window) {
        Some(found.sent)
    } else {
        None
    }
}

/// Offers the token to the inport, and answers what the producer is to be told.
pub fn on_token(inp: &mut InPort, n: u64, token: Token) -> Answer
    requires { received inp.old < 2 ^ 62 }
    ensures answer { result ≡ answer_of inp.old n token }
    ensures after { inp.new ≡ after_offer inp.old n token }
{
    match inp.offer(n, token) {
        Offered::Taken | Offered::Old => Answer::Ack(inp.received()),
        Offered::Gap | Offered::Full => Answer::Nack(inp.received()),
    }
}

/// The reader has received `upto` of its tokens. It answers whether that was new.
pub fn on_ack(out: &mut OutPort, reader: u16, upto: u64) -> bool
    requires { reader < length out.old.readers }
    ensures answer { result ≡ acknowledges out.old reader upto }
    ensures after { out.new ≡ after_ack out.old reader upto }
{
    out.ack(reader, upto)
}

/// The reader has received `upto` of its tokens and refused another. It answers whether the number was
/// new. Where it is what the reader has acknowledged now, the reader is rewound.
pub fn on_nack(out: &mut OutPort, reader: u16, upto: u64) -> bool
    requires { reader < length out.old.readers }
    ensures answer { result ≡ acknowledges out.old reader upto }
    ensures after { out.new ≡ after_nack out.old reader upto }
{
    let raised = out.ack(reader, upto);
    if upto == reader_of(out, reader).acked {
        out.rewind(reader);
    }
    raised
}

/// Passes the reader's first token that is not acknowledged on to the inport, where both stand in one
/// place. A token that the inport has received before is acknowledged alone. It answers false exactly
/// where there is no such token or the inport is full; then nothing changes.
pub fn local_move(
    alloc: Global,
    out: &mut OutPort,
    reader: u16,
    inp: &mut InPort,
) -> Result<bool, OutOfMemory>
    requires there { reader < length out.old.readers }
    requires received { acked out.old reader ≤ received inp.old }
    ensures answer { IfOk result (λ moved. moved ≡ is_there (to_move out.old reader inp.old)) }
    ensures out_after { OnOk result (out.new ≡ out_after_move out.old reader inp.old) }
    ensures in_after { OnOk result (inp.new ≡ in_after_move out.old reader inp.old) }
    ensures err { OnErr result ((out.new ≡ out.old) × (inp.new ≡ inp.old)) }
{
    let next = reader_of(out, reader).acked;
    let Some(token) = out.token_for(reader, next) else {
        return Ok(false);
    };
    if inp.len() == inp.cap() {
        return Ok(false);
    }
    let received = inp.received();
    if received == next {
        let _taken = inp.offer(received, token.copy(alloc)?);
    }
    out.ack(reader, next + 1);
    Ok(true)
}
