//! `Head`: what stands before the entries of a journal.

use cv_rules::NodeSpec;

/// What the node is from the start, and how many entries before the first one are left out.
#[derive(Drop)]
pub struct Head {
    pub spec: NodeSpec,
    pub dropped: u64,
}
