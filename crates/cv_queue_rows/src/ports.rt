//! Rows, and each call with ample memory.

use cv_queue::{InPort, MOST_READERS, Offered, OutPort, Readers, Subscription};
use cv_token::{ActorId, AppId, ConnId, Items, OutOfMemory, Token};
use std::alloc::Global;
use std::process::Abort;
use std::test::Fail;

const APP: AppId = AppId { node: 1, seq: 1 };

// The tokens 0, 1, ..
fn numbers(alloc: Global, count: i64) -> Result<Items, OutOfMemory> {
    let mut items = Items::new(alloc);
    for n in 0..count {
        items.push(Token::Int(n))?;
    }
    Ok(items)
}

fn is_number(token: Option<&Token>, n: i64) -> bool {
    match token {
        Some(Token::Int(number)) => *number == n,
        _ => false,
    }
}

// A reader for each number of acknowledged tokens.
fn readers(rt: &impl Abort, alloc: Global, acked: &[u64]) -> Result<Readers, OutOfMemory> {
    let mut list = Readers::new(alloc);
    for upto in acked {
        assert!(rt; list.as_slice().len() < MOST_READERS);
        list.push(Subscription {
            conn: ConnId { app: APP, place: 3 },
            consumer: ActorId { app: APP, actor: 5 },
            acked: *upto,
        })?;
    }
    Ok(list)
}

fn offer(rt: &impl Abort, port: &mut InPort, n: u64) -> Offered {
    assert!(rt; port.received() < 100);
    port.offer(n, Token::Int(7))
}

#[test]
fn offers_are_answered(rt: HostRuntime) -> Result<(), Fail> {
    let mut port = InPort::new(rt.alloc(), 4)?;
    let rows = [
        (0, Offered::Taken),
        (1, Offered::Taken),
        (1, Offered::Old),
        (3, Offered::Gap),
        (2, Offered::Taken),
        (3, Offered::Taken),
        (4, Offered::Full),
    ];
    for (n, answer) in rows {
        assert!(rt; offer(&rt, &mut port, n) == answer);
    }
    assert_eq!(rt; port.len(), 4);
    port.peek(2);
    port.cancel();
    assert_eq!(rt; port.len(), 4);
    port.peek(1);
    assert_eq!(rt; port.tentative(), 1);
    port.commit(1);
    assert_eq!(rt; port.taken(), 1);
    assert_eq!(rt; port.tentative(), 0);
    assert_eq!(rt; port.received(), 4);
    assert_eq!(rt; port.cap(), 4);
    assert!(rt; is_number(port.head(2), 7));
    assert!(rt; port.head(3).is_none());
    Ok(())
}

// Places, tokens taken before, tokens held, and whether a port stands so.
#[test]
fn inports_stand_so(rt: HostRuntime) -> Result<(), Fail> {
    let most = 1 << 62;
    let rows = [
        (4, 9, 2, true),
        (2, 9, 2, true),
        (1, 9, 2, false),
        (0, 9, 0, false),
        (4, most - 2, 2, true),
        (4, most - 1, 2, false),
    ];
    for (cap, taken, count, stands) in rows {
        let port = InPort::of(rt.alloc(), cap, taken, numbers(rt.alloc(), count)?)?;
        assert_eq!(rt; port.is_some(), stands);
        if let Some(port) = port {
            let twin = port.copy(rt.alloc())?;
            assert_eq!(rt; twin.received(), taken + 2);
            assert!(rt; is_number(twin.head(1), 1));
        }
    }
    Ok(())
}

// Places, tokens written, tokens held, what two readers have acknowledged, and whether a port stands so.
#[test]
fn outports_stand_so(rt: HostRuntime) -> Result<(), Fail> {
    let rows = [
        (4, 9, 2, [7, 9], true),
        (4, 9, 2, [8, 9], false),
        (4, 9, 2, [7, 10], false),
        (1, 9, 2, [7, 9], false),
        (0, 9, 0, [9, 9], false),
        (4, 9, 0, [9, 9], true),
    ];
    for (cap, written, count, acked, stands) in rows {
        let list = readers(&rt, rt.alloc(), &acked)?;
        let port = OutPort::of(rt.alloc(), cap, written, numbers(rt.alloc(), count)?, list)?;
        assert_eq!(rt; port.is_some(), stands);
        if let Some(port) = port {
            let twin = port.copy(rt.alloc())?;
            assert_eq!(rt; twin.written(), written);
            assert!(rt; twin.len() == 0 || is_number(twin.token_at(8), 1));
        }
    }
    let unread = OutPort::of(
        rt.alloc(),
        4,
        9,
        numbers(rt.alloc(), 1)?,
        readers(&rt, rt.alloc(), &[])?,
    )?;
    assert!(rt; unread.is_none());
    Ok(())
}

fn write(rt: &impl Abort, port: &mut OutPort, n: i64) {
    assert!(rt; port.space() >= 1);
    assert!(rt; port.written() < 100);
    port.write(Token::Int(n));
}

fn ack(rt: &impl Abort, port: &mut OutPort, reader: u16, upto: u64) -> bool {
    assert!(rt; port.reader(reader).is_some());
    port.ack(reader, upto)
}

// Two readers: a token goes when both have acknowledged it.
#[test]
fn tokens_go_when_all_have_them(rt: HostRuntime) -> Result<(), Fail> {
    let mut port = OutPort::new(rt.alloc(), 4, readers(&rt, rt.alloc(), &[5, 0])?)?;
    for n in 0..4 {
        write(&rt, &mut port, n);
    }
    assert_eq!(rt; port.space(), 0);
    // Which reader, up to which number, whether that was new, and the space after it.
    let rows = [
        (0, 2, true, 0),
        (0, 2, false, 0),
        (0, 5, false, 0),
        (1, 1, true, 1),
        (1, 4, true, 2),
        (0, 4, true, 4),
    ];
    for (reader, upto, raised, space) in rows {
        assert_eq!(rt; ack(&rt, &mut port, reader, upto), raised);
        assert_eq!(rt; port.space(), space);
    }
    assert_eq!(rt; port.cap(), 4);
    assert!(rt; port.reader(2).is_none());
    assert!(rt; port.token_at(3).is_none());
    Ok(())
}

#[test]
fn readers_are_sent_to_and_rewound(rt: HostRuntime) -> Result<(), Fail> {
    let list = readers(&rt, rt.alloc(), &[0])?;
    assert_eq!(rt; list.as_slice().len(), 1);
    let list = Readers::from_vec(list.into_vec());
    let mut port = OutPort::new(rt.alloc(), 4, list)?;
    write(&rt, &mut port, 10);
    let before = port.reader(0).ok_or("no reader")?;
    assert!(rt; before.sent < port.count(0));
    port.mark_sent(0);
    assert!(rt; is_number(port.token_for(0, 0), 10));
    let sent = port.reader(0).ok_or("no reader")?;
    assert_eq!(rt; sent.sent, 1);
    port.rewind(0);
    let after = port.reader(0).ok_or("no reader")?;
    assert_eq!(rt; after, before);
    Ok(())
}
