//! Frames of the second reading.

use crate::beings::Being;
use cv_protocol::Verdict;
use cv_token::{ActorId, AppId, ConnId};
use std::alloc::{AllocError, Global};

/// What is known of an actor: the attempt by which it was made live, and the node.
pub type Known = (ActorId, u64, u16);

/// What a letter says, in the order of the fields of a frame's body; of a transfer, all but what travels.
#[derive(Clone, Copy, PartialEq, Eq)]
pub enum Says {
    Token(ConnId, ActorId, u64, i64),
    Ack(ConnId, ActorId, u64),
    Nack(ConnId, ActorId, u64),
    Transfer(ActorId, u64),
    Verdict(ActorId, u64, Verdict),
    Cancel(ActorId, u64),
    Located(ActorId, u64, u16),
    Destroy(AppId),
}

/// An actor that travels, with what is known of those that are joined to it.
#[derive(Drop)]
pub struct Parcel {
    pub being: Being,
    pub hints: Vec<Known>,
}

impl Parcel {
    /// An equal one.
    pub fn copy(&self, alloc: Global) -> Result<Parcel, AllocError> {
        let being = self.being.copy(alloc)?;
        let hints = Vec::from_slice(alloc, self.hints.as_slice())?;
        Ok(Parcel { being, hints })
    }
}

/// A frame.
#[derive(Drop)]
pub struct Letter {
    pub from: u16,
    pub to: u16,
    pub stamp: u64,
    pub says: Says,
    pub parcel: Option<Parcel>,
}
