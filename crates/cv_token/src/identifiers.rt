//! The identifiers of applications, actors and connections.

/// An application: the node that deployed it (1 to 64), and its number there.
#[derive(Clone, Copy, PartialEq, Eq, PartialOrd, Ord, Hash, Debug)]
pub struct AppId {
    pub node: u16,
    pub seq: u32,
}

/// An actor: its application, and its place among that network's actors.
#[derive(Clone, Copy, PartialEq, Eq, PartialOrd, Ord, Hash, Debug)]
pub struct ActorId {
    pub app: AppId,
    pub actor: u16,
}

/// A connection: its application, and its place among that network's connections.
#[derive(Clone, Copy, PartialEq, Eq, PartialOrd, Ord, Hash, Debug)]
pub struct ConnId {
    pub app: AppId,
    pub place: u16,
}
