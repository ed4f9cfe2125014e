//! Whether what a node tells is what its second reading tells.

use cv_actor::Live;
use cv_node::Node;
use cv_node_reading::beings::Being;
use cv_node_reading::letters::{Known, Letter, Parcel, Says};
use cv_node_reading::reading::Reading;
use cv_protocol::{ActorState, Body, Frame, Hint};
use cv_queue::{InPort, OutPort};
use cv_token::{ActorId, Token};

/// Whether the number is that one.
fn is(number: u64, other: usize) -> bool {
    match usize::try_from(number) {
        Ok(number) => number == other,
        Err(_) => false,
    }
}

/// Whether the frame says what the letter says.
pub fn is_same(frame: &Frame, letter: &Letter) -> bool {
    frame.from == letter.from
        && frame.to == letter.to
        && frame.stamp == letter.stamp
        && says_of(&frame.body) == letter.says
        && match (&frame.body, &letter.parcel) {
            (Body::Transfer { state, .. }, Some(parcel)) => travels_same(state.get(), parcel),
            (_, parcel) => parcel.is_none(),
        }
}

/// What the body says.
pub fn says_of(body: &Body) -> Says {
    match body {
        Body::Token {
            conn,
            actor,
            n,
            token,
        } => Says::Token(*conn, *actor, *n, int(token)),
        Body::Ack { conn, actor, upto } => Says::Ack(*conn, *actor, *upto),
        Body::Nack { conn, actor, upto } => Says::Nack(*conn, *actor, *upto),
        Body::Transfer { actor, attempt, .. } => Says::Transfer(*actor, *attempt),
        Body::Verdict {
            actor,
            attempt,
            verdict,
        } => Says::Verdict(*actor, *attempt, *verdict),
        Body::Cancel { actor, attempt } => Says::Cancel(*actor, *attempt),
        Body::Located {
            actor,
            attempt,
            node,
        } => Says::Located(*actor, *attempt, *node),
        Body::Destroy { app } => Says::Destroy(*app),
    }
}

/// The integer that the token is; the least one for a token that is none, which no network here writes.
fn int(token: &Token) -> i64 {
    match token {
        Token::Int(int) => *int,
        _ => i64::MIN,
    }
}

/// Whether the inport is the being's: what was taken, what it holds, and whether it was read.
fn in_same(port: Option<&InPort>, being: &Being) -> bool {
    match port {
        Some(port) => {
            being.fed.is_some()
                && is(port.taken(), being.took)
                && is(port.received(), being.got.len())
                && (port.tentative() > 0) == being.reads
                && holds_same(port, being)
        }
        None => being.fed.is_none(),
    }
}

/// Whether the tokens in the inport are those that came last.
fn holds_same(port: &InPort, being: &Being) -> bool {
    (0..port.len()).all(|place| {
        let wanted = being.got.get(being.took.saturating_add(usize::from(place)));
        match (port.head(place), wanted) {
            (Some(token), Some(number)) => int(token) == *number,
            _ => false,
        }
    })
}

/// Whether the outport is the being's: what was written, and where its readers stand.
fn out_same(port: Option<&OutPort>, being: &Being) -> bool {
    match port {
        Some(port) => {
            is(port.written(), being.wrote.len())
                && usize::from(port.readers()) == being.ways.len()
                && (0..port.readers()).all(|place| way_same(port, place, being))
        }
        None => being.ways.is_empty() && being.wrote.is_empty(),
    }
}

fn way_same(port: &OutPort, place: u16, being: &Being) -> bool {
    match (port.reader(place), being.ways.get(usize::from(place))) {
        (Some(reader), Some(way)) => {
            reader.conn == way.conn
                && reader.consumer == way.consumer
                && is(reader.acked, way.acked)
                && is(reader.sent, way.sent)
        }
        _ => false,
    }
}

fn hint_same(hint: &Hint, other: &Known) -> bool {
    hint.actor == other.0 && hint.attempt == other.1 && hint.node == other.2
}

fn travels_same(state: &ActorState, parcel: &Parcel) -> bool {
    let hints = state.hints().as_slice();
    let being = &parcel.being;
    state.id() == being.id
        && state.wait() == being.due
        && in_same(state.inp(0), being)
        && out_same(state.out(0), being)
        && hints.len() == parcel.hints.len()
        && hints
            .iter()
            .zip(parcel.hints.iter())
            .all(|(hint, other)| hint_same(hint, other))
}

fn lives_same(live: &Live, being: &Being) -> bool {
    live.id() == being.id
        && live.attempt() == being.attempt
        && in_same(live.inp(0), being)
        && out_same(live.out(0), being)
}

/// A place as the node's calls take it.
fn number(place: usize) -> u32 {
    u32::try_from(place).unwrap_or(u32::MAX)
}

/// Whether the actors that live at the node are those of the reading.
fn all_live_same(node: &Node, reading: &Reading) -> bool {
    let few = match u32::try_from(reading.live.len()) {
        Ok(count) => node.live_at(count).is_none(),
        Err(_) => false,
    };
    few && reading.live.iter().enumerate().all(|(place, being)| {
        node.live_at(number(place)) == Some(being.id)
            && match node.live(being.id) {
                Some(live) => lives_same(live, being),
                None => false,
            }
    })
}

/// Whether the frozen copies are those of the reading, in the order of their actors.
fn all_frozen_same(node: &Node, reading: &Reading) -> bool {
    let count = reading.left.len();
    (0..count).all(|place| match node.frozen_at(number(place)) {
        Some((actor, attempt, target)) => {
            let before = reading
                .left
                .iter()
                .filter(|left| left.parcel.being.id < actor)
                .count();
            before == place
                && reading.left.iter().any(|left| {
                    left.parcel.being.id == actor
                        && left.attempt == attempt
                        && left.target == target
                })
        }
        None => false,
    }) && node.frozen_at(number(count)).is_none()
}

/// Whether the node sees the actor as the reading does.
fn seen_same(node: &Node, reading: &Reading, actor: ActorId) -> bool {
    let hint = reading.hint(actor);
    let kept = match node.hint(actor) {
        Some(place) => Some((place.attempt, place.node)),
        None => None,
    };
    kept == hint && node.known_actor(actor) == reading.seen(actor)
}

/// Whether the node's calls tell what the reading tells.
pub fn are_alike(node: &Node, reading: &Reading) -> bool {
    node.now() == reading.now
        && stamp(node) == reading.stamp
        && all_live_same(node, reading)
        && all_frozen_same(node, reading)
        && node.next_due() == reading.next_due()
        && reading
            .hints
            .iter()
            .all(|hint| seen_same(node, reading, hint.0))
}

/// The stamp of the last entry, 0 before the first one.
fn stamp(node: &Node) -> u64 {
    match node.journal().entries.last() {
        Some(entry) => entry.stamp,
        None => 0,
    }
}
