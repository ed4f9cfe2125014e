//! What nodes send to one another.

use crate::state::ActorState;
use cv_token::{ActorId, AppId, ConnId, Token};
use sqlite_items::Boxed;

/// What the target of a move made of it.
#[derive(Debug, Clone, Copy, PartialEq, Eq)]
pub enum Verdict {
    /// The actor lives there now.
    Accepted,
    /// The node's attributes fail the actor's rule.
    Unfit,
    /// As many actors live there as it has room for.
    Full,
    /// The application is destroyed there.
    Gone,
    /// The move was given up.
    Cancelled,
}

/// What a frame says.
#[derive(Drop)]
pub enum Body {
    /// Token number `n` of a connection, to its consumer.
    Token {
        conn: ConnId,
        actor: ActorId,
        n: u64,
        token: Token,
    },
    /// The consumer received `upto` tokens and took the last one that was sent; to the producer.
    Ack {
        conn: ConnId,
        actor: ActorId,
        upto: u64,
    },
    /// The consumer received `upto` tokens and did not take the last one that was sent; to the producer.
    Nack {
        conn: ConnId,
        actor: ActorId,
        upto: u64,
    },
    /// An actor's state, by an attempt to move it.
    Transfer {
        actor: ActorId,
        attempt: u64,
        state: Boxed<ActorState>,
    },
    /// What became of an attempt.
    Verdict {
        actor: ActorId,
        attempt: u64,
        verdict: Verdict,
    },
    /// An attempt is given up.
    Cancel {
        actor: ActorId,
        attempt: u64,
    },
    /// Where the actor was made live, as far as the sender knows.
    Located {
        actor: ActorId,
        attempt: u64,
        node: u16,
    },
    /// An application is destroyed.
    Destroy {
        app: AppId,
    },
}

/// A message from one node to another, with the stamp of the entry that sent it.
#[derive(Drop)]
pub struct Frame {
    pub from: u16,
    pub to: u16,
    pub stamp: u64,
    pub body: Body,
}

/// Frames, in order.
pub type Frames = sqlite_items::Items<Frame>;
