//! What a node keeps of applications, of actors that left it, and of where actors are.

use crate::frame::Verdict;
use crate::state::ActorState;
use cv_kinds::Network;
use cv_token::Text;
use sqlite_items::Boxed;

/// An application that a node heard of.
#[derive(Drop)]
pub enum Application {
    /// It is known with its name and its network.
    Known { name: Text, net: Boxed<Network> },
    /// It is destroyed.
    Destroyed,
}

/// An actor that is frozen here until its move is judged.
#[derive(Drop)]
pub struct Frozen {
    pub state: Boxed<ActorState>,
    pub attempt: u64,
    /// The node that it is to move to.
    pub target: u16,
}

/// The greatest attempt of an actor that a node judged or released, and its verdict where it was judged here.
#[derive(Debug, Clone, Copy, PartialEq, Eq)]
pub struct Judged {
    pub attempt: u64,
    pub verdict: Option<Verdict>,
}

/// Where an actor was made live, and by which attempt.
#[derive(Debug, Clone, Copy, PartialEq, Eq)]
pub struct Location {
    pub attempt: u64,
    pub node: u16,
}
