//! `Outlook`: what an actor may do at a moment.

use cv_protocol::Need;

/// What an action of an actor lacks first, or that it fires. Reading is no lack, but comes first.
#[derive(Debug, Clone, Copy, PartialEq, Eq)]
pub enum Sight {
    Lacks(Need),
    /// So many tokens of that inport are to be read.
    Reads(u8, u16),
    Fires,
}

/// What a poll would answer.
#[derive(Debug, Clone, Copy, PartialEq, Eq)]
pub enum Outlook {
    /// That action fires.
    Fires(u8),
    /// So many tokens of that inport are to be read.
    Reads(u8, u16),
    /// Each action lacks something; the lacks stand in the order of the actions.
    Waits([Option<Need>; 4]),
}
