//! The gate that the workers pass at the start and at the end of each round.

/// What a worker tells at the start and at the end of each of its rounds. A gate may hold the worker for a while.
pub trait Gate: Sync {
    /// The worker of `node` begins its round `round`, counted from 1, with `at` entries in its journal.
    fn pass(&self, node: u16, round: u32, at: u32);

    /// The worker of `node` ends its round `round`, counted from 1, with `at` entries in its journal.
    fn leave(&self, node: u16, round: u32, at: u32);
}

/// The gate that does nothing.
#[derive(Clone, Copy, Debug)]
pub struct OpenGate;

impl Gate for OpenGate {
    fn pass(&self, _node: u16, _round: u32, _at: u32) {}

    fn leave(&self, _node: u16, _round: u32, _at: u32) {}
}
