//! What happens at a node, and what it journals.

use crate::frame::{Frame, Frames};
use cv_kinds::Network;
use cv_rules::{Attrs, NodeSpec};
use cv_token::{ActorId, AppId, ConnId, Text};
use sqlite_items::Boxed;

/// What happens at a node in one step.
#[derive(Drop)]
pub enum Event {
    /// The node learns of a node and its attributes.
    Meet {
        node: u16,
        attrs: Attrs,
    },
    /// An application comes to live here.
    Deploy {
        name: Text,
        net: Boxed<Network>,
    },
    /// Time goes on.
    Tick {
        now: u64,
    },
    /// An actor reads an inport tentatively.
    Peek {
        actor: ActorId,
        port: u8,
    },
    /// An action fires.
    Fire {
        actor: ActorId,
        action: u8,
    },
    /// A token moves between two ports that both live here.
    Pass {
        conn: ConnId,
    },
    /// A token is sent to the node where the consumer is.
    Send {
        conn: ConnId,
    },
    /// What was sent and not acknowledged is to be sent again.
    Rewind {
        conn: ConnId,
    },
    /// An actor leaves for another node.
    Freeze {
        actor: ActorId,
        to: u16,
    },
    /// A frozen actor's state is sent again.
    Resend {
        actor: ActorId,
    },
    /// A move is to be given up.
    Withdraw {
        actor: ActorId,
    },
    /// The node learns where an actor was made live.
    Hint {
        actor: ActorId,
        attempt: u64,
        node: u16,
    },
    /// An application is destroyed.
    Destroy {
        app: AppId,
    },
    /// A frame is lost on its way here.
    Lose {
        frame: Frame,
    },
    /// A frame comes.
    Deliver {
        frame: Frame,
    },
}

/// One step of a node, with the stamp that orders it among all steps.
#[derive(Drop)]
pub struct Entry {
    pub stamp: u64,
    pub event: Event,
}

/// What a node did.
#[derive(Drop)]
pub struct Journal {
    /// What the node is from the start.
    pub spec: NodeSpec,
    /// How many entries before the first one are left out.
    pub dropped: u64,
    /// Its entries, in order; there is room for more.
    pub entries: Vec<Entry>,
}

/// The frames that a step sent.
#[derive(Drop)]
pub enum Sent {
    Nothing,
    One(Frame),
    All(Frames),
}

/// One step of a run: an entry, and the node that made it.
#[derive(Drop)]
pub struct Step {
    pub stamp: u64,
    pub node: u16,
    pub event: Event,
}

/// The steps of a run, in order.
pub type Steps = sqlite_items::Items<Step>;

/// The specifications of a run's nodes.
pub type NodeSpecs = sqlite_items::Items<NodeSpec>;

/// All steps of a run, ordered by their stamps, and then by their nodes.
#[derive(Drop)]
pub struct Record {
    pub specs: NodeSpecs,
    pub entries: Steps,
}
