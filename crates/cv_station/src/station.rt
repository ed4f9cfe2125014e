//! A node with its ends of the rings.

use cv_link::{Rx, Tx};
use cv_node::Node;

/// What a station has of a node of its cluster: that node's number, and its own end of each of the two rings between them.
#[derive(Drop)]
pub struct Peer {
    pub no: u16,
    pub tx: Tx,
    pub rx: Rx,
}

/// A node with its ends of the rings to all nodes of its cluster, in their order; to itself too, where nothing is ever pushed.
#[derive(Drop)]
pub struct Station {
    pub node: Node,
    pub peers: Vec<Peer>,
    /// How many firings the next round may make at most.
    pub quota: u32,
    /// How many the last round made.
    pub fired: u32,
    /// Whether memory was wanting in the last round.
    pub failed: bool,
}
