//! The ends of a connection at an actor.

ghost use Rattle.std.specs.Prelude.{◌≡◌, ◌<◌, length, ◌^◌};
ghost use Rattle.std.specs.Option.{option_map};
ghost use Rattle.cv_protocol.specs.Rows.{reader_of, spot_of, seat_of};
ghost use Rattle.cv_actor.specs.Ends.{spot_in};

use cv_protocol::Inlet;
use cv_queue::{OutPort, Reader};
use cv_token::ConnId;

/// Where a reader stands: which outport, and which of its readers.
#[derive(Debug, Clone, Copy, PartialEq, Eq)]
pub struct Spot {
    pub out: u8,
    pub number: u16,
    pub reader: Reader,
}

/// The port's first reader of the connection, with its number.
fn reader_of(conn: ConnId, out: &OutPort) -> Option<(u16, Reader)>
    ensures { result ≡ reader_of conn 0 out.now.readers }
{
    for number in 0..out.readers() {
        let Some(reader) = out.reader(number) else {
            unreachable!()
        };
        if reader.conn == conn {
            return Some((number, reader));
        }
    }
    None
}

/// The first reader of the connection.
pub(crate) fn spot_of(conn: ConnId, outs: &[OutPort]) -> Option<Spot>
    requires { length outs.now < 2 ^ 8 }
    ensures { result ≡ option_map spot_in (spot_of conn 0 outs.now) }
{
    for (out, port) in outs.iter().enumerate() {
        if let Some((number, reader)) = reader_of(conn, port) {
            return Some(Spot {
                out: out as u8,
                number,
                reader,
            });
        }
    }
    None
}

/// The first inport that the connection feeds.
pub(crate) fn seat_of(conn: ConnId, ins: &[Option<Inlet>]) -> Option<u8>
    requires { length ins.now < 2 ^ 8 }
    ensures { result ≡ option_map (λ y. y.inp) (seat_of conn 0 ins.now) }
{
    for (place, inlet) in ins.iter().enumerate() {
        if let Some(inlet) = inlet {
            if inlet.conn == conn {
                return Some(place as u8);
            }
        }
    }
    None
}

/// The first reader of the connection among these outports.
pub fn reader_among(conn: ConnId, outs: &[OutPort]) -> Option<Reader>
    ensures { result ≡ option_map (λ s. s.reader) (spot_of conn 0 outs.now) }
{
    for port in outs {
        if let Some((_number, reader)) = reader_of(conn, port) {
            return Some(reader);
        }
    }
    None
}
