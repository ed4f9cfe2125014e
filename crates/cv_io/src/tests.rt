//! What no clause says: calls on small devices one after another, and that calls succeed where memory is ample.

ghost use Rattle.std.specs.Prelude.{◌≤◌, IfOk};

use super::*;
use std::alloc::{AllocError, Global};
use std::io;
use std::io::{Read, Write};
use std::test::Fail;

const MIB: usize = 1 << 20;

/// `length` bytes, of which no two pieces of some size are alike.
fn sample(alloc: Global, length: usize) -> Result<Vec<u8>, AllocError> {
    let mut bytes = Vec::new(alloc);
    for i in 0..length {
        bytes.push((i % 251) as u8)?;
    }
    Ok(bytes)
}

/// A reader and writer that counts its calls, fails at one of them, and at each other call gives or takes one byte.
#[derive(Drop)]
struct Flaky {
    calls: u32,
    fail_at: u32,
}

impl Flaky {
    fn call(&mut self, room: usize) -> io::Result<usize>
        ensures { IfOk result (λ count. count ≤ room) }
    {
        self.calls = self.calls.saturating_add(1);
        if self.calls == self.fail_at {
            return Err(io::Error::from(io::ErrorKind::BrokenPipe));
        }
        Ok(room.min(1))
    }
}

impl Read for Flaky {
    fn read(&mut self, buf: &mut [u8]) -> io::Result<usize> {
        self.call(buf.len())
    }
}

impl Write for Flaky {
    fn write(&mut self, piece: &[u8]) -> io::Result<usize> {
        self.call(piece.len())
    }

    fn flush(&mut self) -> io::Result<()> {
        Ok(())
    }
}

#[test]
fn an_adapter_calls_what_it_stands_on_once_a_call(rt: HostRuntime) {
    let mut reader = Flaky {
        calls: 0,
        fail_at: 2,
    };
    let mut source = StdSource::new(&mut reader);
    let mut buf = [0u8; 4];
    for answer in [Got::Bytes(1), Got::Failed, Got::Bytes(1)] {
        assert_eq!(rt; source.read(&mut buf), answer);
    }
    drop(source);
    assert_eq!(rt; reader.calls, 3);

    let mut writer = Flaky {
        calls: 0,
        fail_at: 2,
    };
    let mut sink = StdSink::new(&mut writer);
    for answer in [Took::Bytes(1), Took::Failed, Took::Bytes(1)] {
        assert_eq!(rt; sink.write(&[7, 8]), answer);
    }
    drop(sink);
    assert_eq!(rt; writer.calls, 3);
}

#[test]
fn a_source_in_memory_gives_pieces_and_fails_where_listed(rt: HostRuntime) -> Result<(), Fail> {
    let alloc = rt.alloc();
    let bytes = vec![in alloc; 11, 12, 13, 14, 15, 16]?;
    let mut source = MemSource::new(bytes, 3, vec![in alloc; 2, 6]?);
    // the room of the buffer, and the answer
    let rows = [
        (4, Got::Bytes(3)),
        (4, Got::Failed),
        (2, Got::Bytes(2)),
        (4, Got::Bytes(1)),
        (4, Got::End),
        (4, Got::Failed),
        (4, Got::End),
    ];
    let mut given = Vec::new(alloc);
    for (room, answer) in rows {
        let mut buf = [0u8; 4];
        assert!(rt; 0 < room && room <= 4);
        let got = source.read(&mut buf[..room]);
        assert_eq!(rt; got, answer);
        if let Got::Bytes(count) = got {
            given.extend_from_slice(&buf[..count])?;
        }
    }
    assert_eq!(rt; given.as_slice(), [11, 12, 13, 14, 15, 16].as_slice());
    Ok(())
}

#[test]
fn a_sink_in_memory_takes_pieces_and_fails_where_listed(rt: HostRuntime) -> Result<(), Fail> {
    let alloc = rt.alloc();
    let mut sink = MemSink::new(alloc, 3, vec![in alloc; 2]?);
    for (piece, answer) in [
        ([21, 22, 23, 24].as_slice(), Took::Bytes(3)),
        ([24].as_slice(), Took::Failed),
        ([24, 25].as_slice(), Took::Bytes(2)),
    ] {
        assert!(rt; !piece.is_empty());
        assert_eq!(rt; sink.write(piece), answer);
    }
    assert_eq!(rt; sink.bytes(), [21, 22, 23, 24, 25].as_slice());
    Ok(())
}

#[test]
fn a_source_is_read_to_its_end_or_refused(rt: HostRuntime) -> Result<(), Fail> {
    let alloc = rt.alloc();
    // length, limit, bytes a call, the call that fails (0: none), the refusal
    let rows = [
        (0, 0, 1, 0, None),
        (1, 0, 1, 0, Some(ReadAll::TooLong)),
        (5, 5, 1, 0, None),
        (6, 5, 1, 0, Some(ReadAll::TooLong)),
        (6, 5, 6, 0, Some(ReadAll::TooLong)),
        (7, usize::MAX, 3, 0, None),
        (5, 9, 2, 1, Some(ReadAll::ReadFault)),
        // the call that would tell the end, and the call behind it
        (4, 4, 2, 3, Some(ReadAll::ReadFault)),
        (4, 4, 2, 4, None),
        (4097, 4096, 5000, 0, Some(ReadAll::TooLong)),
        (9000, 9000, 5000, 0, None),
        (MIB, MIB, MIB, 0, None),
        (MIB + 1, MIB, MIB, 0, Some(ReadAll::TooLong)),
        (MIB, MIB, 7, 0, None),
    ];
    for (length, limit, per, fail_at, refusal) in rows {
        assert!(rt; per > 0);
        let text = sample(alloc, length)?;
        let mut source = MemSource::new(text.clone()?, per, vec![in alloc; fail_at]?);
        match read_all(alloc, &mut source, limit) {
            Ok(bytes) => {
                assert_eq!(rt; refusal, None, "{length} bytes within {limit}");
                assert!(rt; bytes == text, "{length} bytes within {limit}");
            }
            Err(why) => assert_eq!(rt; refusal, Some(why), "{length} bytes within {limit}"),
        }
    }
    Ok(())
}

#[test]
fn a_text_is_written_whole_or_a_part_from_its_front(rt: HostRuntime) -> Result<(), Fail> {
    let alloc = rt.alloc();
    // length, bytes a call, the call that fails (0: none), what stands in the sink then
    let rows = [
        (0, 8, 1, 0),
        (20, 8, 0, 20),
        (20, 8, 1, 0),
        (20, 8, 2, 8),
        (20, 8, 3, 16),
        (20, 8, 4, 20),
        (MIB, 7, 0, MIB),
    ];
    for (length, per, fail_at, written) in rows {
        assert!(rt; per > 0);
        let text = sample(alloc, length)?;
        let mut sink = MemSink::new(alloc, per, vec![in alloc; fail_at]?);
        let result = write_all(&mut sink, text.as_slice());
        assert_eq!(rt;
            result.is_ok(),
            written == length,
            "{written} of {length} bytes"
        );
        assert!(rt; written <= text.len());
        assert!(rt;
            sink.bytes() == &text[..written],
            "{written} of {length} bytes"
        );
    }
    Ok(())
}

#[test]
fn readers_and_writers_of_std_are_sources_and_sinks(rt: HostRuntime) -> Result<(), Fail> {
    let alloc = rt.alloc();
    let text = sample(alloc, 9000)?;
    let read = read_all(alloc, &mut StdSource::new(text.as_slice()), 9000)?;
    assert!(rt; read == text);
    let broken = Flaky {
        calls: 0,
        fail_at: 1,
    };
    let refused = read_all(alloc, &mut StdSource::new(broken), 9000);
    assert_eq!(rt; refused.err(), Some(ReadAll::ReadFault));

    let mut copy = Vec::new(alloc);
    let written = write_all(&mut StdSink::new(&mut copy), text.as_slice());
    assert_eq!(rt; written, Ok(()));
    assert!(rt; copy == text);
    // a writer with room for three bytes takes nothing after them
    let mut room = [0u8; 3];
    let refused = write_all(&mut StdSink::new(room.as_mut_slice()), &[1, 2, 3, 4, 5]);
    assert_eq!(rt; refused, Err(WriteFault));
    assert_eq!(rt; room, [1, 2, 3]);
    Ok(())
}

/// Passes and leaves a gate, as a worker does in each round.
fn round<G: Gate>(gate: &G) {
    gate.pass(1, 1, 0);
    gate.leave(1, 1, 2);
}

/// Takes what may be sent to another thread.
fn send<T: Send + Drop>(_value: T) {}

#[test]
fn devices_go_to_other_threads(rt: HostRuntime) {
    let alloc = rt.alloc();
    round(&OpenGate);
    send(MemSource::new(Vec::new(alloc), 1, Vec::new(alloc)));
    send(MemSink::new(alloc, 1, Vec::new(alloc)));
    send(StdSource::new(io::Cursor::new([1u8])));
    send(StdSink::new(Vec::<u8>::new(alloc)));
}
