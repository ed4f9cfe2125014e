//! Rows, and each call with ample memory.

use cv_endpoint::{Answer, local_move, next_to_send, on_ack, on_nack, on_token};
use cv_queue::{InPort, OutPort, Readers, Subscription};
use cv_token::{ActorId, AppId, ConnId, OutOfMemory, Token};
use std::alloc::Global;
use std::process::Abort;
use std::test::Fail;

// A port of four places with one reader, after this many writes.
fn written(rt: &impl Abort, alloc: Global, count: i64) -> Result<OutPort, OutOfMemory> {
    let app = AppId { node: 1, seq: 1 };
    let mut readers = Readers::new(alloc);
    readers.push(Subscription {
        conn: ConnId { app, place: 0 },
        consumer: ActorId { app, actor: 1 },
        acked: 0,
    })?;
    let mut port = OutPort::new(alloc, 4, readers)?;
    for n in 0..count {
        assert!(rt; port.space() >= 1);
        assert!(rt; port.written() < 100);
        port.write(Token::Int(n));
    }
    Ok(port)
}

fn positions(rt: &impl Abort, port: &OutPort) -> (u64, u64) {
    match port.reader(0) {
        Some(reader) => (reader.acked, reader.sent),
        None => panic!(rt; "no reader"),
    }
}

// Sends what the window allows, and answers how much that was.
fn send_all(rt: &impl Abort, port: &mut OutPort, window: u16) -> u64 {
    let (_, mut next) = positions(rt, port);
    let before = next;
    for _ in 0..9 {
        assert!(rt; port.reader(0).is_some());
        let Some(number) = next_to_send(port, 0, window) else {
            return next.saturating_sub(before);
        };
        assert_eq!(rt; number, next);
        port.mark_sent(0);
        next = next.saturating_add(1);
    }
    panic!(rt; "sent without end")
}

// The window, how much is sent at first, what is refused, and how much is then sent again.
#[test]
fn windows_bound_what_is_sent(rt: HostRuntime) -> Result<(), Fail> {
    for (window, first) in [(1, 1), (2, 2), (4, 4), (9, 4), (0, 0)] {
        let mut port = written(&rt, rt.alloc(), 4)?;
        assert_eq!(rt; send_all(&rt, &mut port, window), first);
        assert!(rt; port.reader(0).is_some());
        assert!(rt; !on_nack(&mut port, 0, 0));
        assert_eq!(rt; positions(&rt, &port), (0, 0));
        assert!(rt; port.reader(0).is_some());
        assert!(rt; on_ack(&mut port, 0, 2));
        assert_eq!(rt; positions(&rt, &port), (2, 2));
        assert_eq!(rt; send_all(&rt, &mut port, window), first.min(2));
        assert!(rt; port.reader(0).is_some());
        assert!(rt; on_nack(&mut port, 0, 3));
        assert_eq!(rt; positions(&rt, &port), (3, 3));
    }
    Ok(())
}

#[test]
fn tokens_are_answered(rt: HostRuntime) -> Result<(), Fail> {
    let mut port = InPort::new(rt.alloc(), 2)?;
    let rows = [
        (1, Answer::Nack(0)),
        (0, Answer::Ack(1)),
        (0, Answer::Ack(1)),
        (1, Answer::Ack(2)),
        (2, Answer::Nack(2)),
        (1, Answer::Ack(2)),
    ];
    for (n, answer) in rows {
        assert!(rt; port.received() < 100);
        assert!(rt; on_token(&mut port, n, Token::Null) == answer);
    }
    Ok(())
}

// A token that came over the link is acknowledged alone, the next ones move, up to the inport's room.
#[test]
fn tokens_move_in_one_place(rt: HostRuntime) -> Result<(), Fail> {
    let mut out = written(&rt, rt.alloc(), 4)?;
    let mut inp = InPort::new(rt.alloc(), 3)?;
    let _answer = on_token(&mut inp, 0, Token::Int(0));
    // Whether a token was passed on, and how many the inport has received.
    for (moved, received) in [(true, 1), (true, 2), (true, 3), (false, 3)] {
        let reader = out.reader(0).ok_or("no reader")?;
        assert!(rt; reader.acked <= inp.received());
        assert_eq!(rt; local_move(rt.alloc(), &mut out, 0, &mut inp)?, moved);
        assert_eq!(rt; inp.received(), received);
    }
    assert_eq!(rt; positions(&rt, &out), (3, 3));
    assert_eq!(rt; out.len(), 1);
    assert!(rt; matches!(inp.head(2), Some(Token::Int(2))));
    Ok(())
}
