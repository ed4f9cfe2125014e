//! What an inport answers to tokens.

use cv_queue::{InPort, Offered};
use cv_token::Token;
use std::process::Abort;
use std::test::Fail;

fn offer(rt: &impl Abort, port: &mut InPort, n: u64) -> Offered {
    assert!(rt; port.received() < 100);
    port.offer(n, Token::Int(7))
}

/// The numbers of tokens that are offered, one after another, and the answers.
const OFFERS: [(u64, Offered); 7] = [
    (0, Offered::Taken),
    (1, Offered::Taken),
    (1, Offered::Old),
    (3, Offered::Gap),
    (2, Offered::Taken),
    (3, Offered::Taken),
    (4, Offered::Full),
];

/// Each offer has its answer.
fn check_offers(rt: &impl Abort, port: &mut InPort) {
    for (n, answer) in &OFFERS {
        assert!(rt; offer(rt, port, *n) == *answer, "{n}");
    }
}

// An inport of four places that received two tokens and took none.
#[test]
fn offers_are_answered(rt: HostRuntime) -> Result<(), Fail> {
    let mut port = InPort::new(rt.alloc(), 4)?;
    check_offers(&rt, &mut port);
    assert!(rt; port.len() >= 2);
    port.peek(2);
    port.cancel();
    assert!(rt; port.len() >= 1);
    port.peek(1);
    assert!(rt; port.tentative() >= 1);
    port.commit(1);
    assert_eq!(rt; (port.taken(), port.tentative()), (1, 0));
    Ok(())
}
