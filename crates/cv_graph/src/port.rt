//! Ports and joins by numbers.

/// A side of an actor or of an instance.
#[derive(Debug, Clone, Copy, PartialEq, Eq, PartialOrd, Ord)]
pub enum Side {
    /// That of its inports.
    In,
    /// That of its outports.
    Out,
}

/// A port by the number of its place, its side, and its number there. Places count the actors first, then the instances.
#[derive(Debug, Clone, Copy, PartialEq, Eq, PartialOrd, Ord)]
pub struct Port {
    pub place: usize,
    pub side: Side,
    pub number: usize,
}

/// A join by its two ports. None stands for `voidport`.
#[derive(Debug, Clone, Copy, PartialEq, Eq)]
pub struct Wire {
    pub source: Option<Port>,
    pub target: Option<Port>,
}
