//! Rows, and each call with ample memory.

ghost use Rattle.cv_link.specs.Ring.{AreEnds};

use cv_link::{Item, LinkItems, Pair, Plan, Taken};
use cv_protocol::{Body, Frame};
use cv_token::{AppId, OutOfMemory};
use std::alloc::Global;
use std::process::Abort;
use std::test::Fail;

fn frame(stamp: u64) -> Frame {
    Frame {
        from: 1,
        to: 2,
        stamp,
        body: Body::Destroy {
            app: AppId { node: 1, seq: 1 },
        },
    }
}

// What was told of the frame, as a letter, and the frame's stamp.
fn shown(taken: Taken) -> (char, u64) {
    match taken {
        Taken::Deliver(frame) => ('d', frame.stamp),
        Taken::Twice(frame) => ('t', frame.stamp),
        Taken::Lost(frame) => ('l', frame.stamp),
    }
}

// The link from node 1 to node 2 with those of the items that are its own.
fn link(alloc: Global, items: &[Item]) -> Result<LinkItems, OutOfMemory> {
    let mut link = LinkItems::new(alloc, 1, 2);
    for item in items {
        link.add(*item)?;
    }
    Ok(link)
}

const fn lose(k: u32) -> Item {
    Item::Lose { from: 1, to: 2, k }
}

const fn twice(k: u32) -> Item {
    Item::Twice { from: 1, to: 2, k }
}

const fn cut(k: u32) -> Item {
    Item::Cut { from: 1, to: 2, k }
}

/// The plan tells each frame, given by its stamp, with this letter.
fn check_letters(rt: &impl Abort, plan: &mut Plan, told: &[(u64, char)]) {
    for (stamp, letter) in told {
        assert_eq!(rt; shown(plan.judge(frame(*stamp))), (*letter, *stamp));
    }
}

#[test]
fn frames_are_judged(rt: HostRuntime) -> Result<(), Fail> {
    let items = link(rt.alloc(), &[lose(2), twice(2), twice(3), cut(5), twice(6)])?;
    let mut plan = Plan::new(items);
    let first = [(1, 'd'), (2, 'l'), (3, 't'), (4, 'd'), (5, 'l'), (6, 'l')];
    check_letters(&rt, &mut plan, &first);
    plan.turn();
    check_letters(&rt, &mut plan, &[(7, 'd'), (8, 'd')]);
    Ok(())
}

#[test]
fn cuts_last_for_their_turn(rt: HostRuntime) -> Result<(), Fail> {
    let mut plan = Plan::new(link(rt.alloc(), &[cut(2), cut(3)])?);
    check_letters(&rt, &mut plan, &[(1, 'd')]);
    plan.turn();
    check_letters(&rt, &mut plan, &[(2, 'l')]);
    plan.turn();
    check_letters(&rt, &mut plan, &[(3, 'l'), (4, 'l')]);
    plan.turn();
    check_letters(&rt, &mut plan, &[(5, 'd')]);
    Ok(())
}

#[test]
fn items_of_others_change_nothing(rt: HostRuntime) -> Result<(), Fail> {
    let items = [
        Item::Lose {
            from: 2,
            to: 1,
            k: 1,
        },
        Item::Cut {
            from: 1,
            to: 3,
            k: 1,
        },
        Item::Twice {
            from: 3,
            to: 2,
            k: 1,
        },
        Item::Move {
            actor: 1,
            node: 2,
            after: 1,
        },
        lose(0),
    ];
    let mut plan = Plan::new(link(rt.alloc(), &items)?);
    check_letters(&rt, &mut plan, &[(1, 'd')]);
    Ok(())
}

#[test]
fn full_ring(rt: HostRuntime) -> Result<(), Fail> {
    let mut pair = Pair::new(rt.alloc(), link(rt.alloc(), &[])?)?;
    for stamp in 1..65 {
        assert!(rt; pair.tx.push(frame(stamp)).is_ok());
    }
    match pair.tx.push(frame(65)) {
        Ok(()) => panic!(rt; "a ring of 65 frames"),
        Err(back) => assert_eq!(rt; back.stamp, 65),
    }
    assert_eq!(rt; pair.rx.take().map(shown), Some(('d', 1)));
    assert!(rt; pair.tx.push(frame(66)).is_ok());
    Ok(())
}

/// The ring takes a frame of this stamp.
#[tactic(auto, using(cv_link::proofs::Ends::ends_stay, cv_link::proofs::Ends::rx_self))]
fn push(rt: &impl Abort, pair: &mut Pair, stamp: u64)
    requires { AreEnds pair.old.tx pair.old.rx }
    ensures { AreEnds pair.new.tx pair.new.rx }
{
    assert!(rt; pair.tx.push(frame(stamp)).is_ok());
}

/// A look sees so many frames.
fn look(rt: &impl Abort, pair: &mut Pair, count: u32)
    requires { AreEnds pair.old.tx pair.old.rx }
    ensures { AreEnds pair.new.tx pair.new.rx }
{
    assert_eq!(rt; pair.rx.look(&mut pair.tx), count);
}

/// The ring gives this frame, told by a letter, or none.
#[tactic(auto, using(cv_link::proofs::Ends::ends_stay, cv_link::proofs::Ends::tx_self))]
fn take(rt: &impl Abort, pair: &mut Pair, told: Option<(char, u64)>)
    requires { AreEnds pair.old.tx pair.old.rx }
    ensures { AreEnds pair.new.tx pair.new.rx }
{
    assert_eq!(rt; pair.rx.take().map(shown), told);
}

#[test]
fn frames_come_in_order(rt: HostRuntime) -> Result<(), Fail> {
    let mut pair = Pair::new(rt.alloc(), link(rt.alloc(), &[lose(1), twice(3)])?)?;
    look(&rt, &mut pair, 0);
    take(&rt, &mut pair, None);
    push(&rt, &mut pair, 7);
    push(&rt, &mut pair, 8);
    look(&rt, &mut pair, 2);
    take(&rt, &mut pair, Some(('l', 7)));
    look(&rt, &mut pair, 1);
    take(&rt, &mut pair, Some(('d', 8)));
    assert_eq!(rt; shown(pair.rx.direct(frame(9))), ('t', 9));
    assert!(rt; pair.rx.take().is_none());
    Ok(())
}

#[test]
fn a_frame_beside_the_ring_is_cut_too(rt: HostRuntime) -> Result<(), Fail> {
    let mut pair = Pair::new(rt.alloc(), link(rt.alloc(), &[cut(1)])?)?;
    assert_eq!(rt; shown(pair.rx.direct(frame(1))), ('l', 1));
    pair.rx.turn();
    assert_eq!(rt; shown(pair.rx.direct(frame(2))), ('d', 2));
    Ok(())
}

// A value of this type may be lent to another thread.
fn may_cross<T: Send>(_value: &mut T) {}

#[test]
fn ends_may_cross_to_threads(rt: HostRuntime) -> Result<(), Fail> {
    let Pair { mut tx, mut rx } = Pair::new(rt.alloc(), link(rt.alloc(), &[])?)?;
    may_cross(&mut tx);
    may_cross(&mut rx);
    assert!(rt; rx.take().is_none());
    Ok(())
}
