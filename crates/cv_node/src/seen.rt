//! `Seen`: where a node sees an actor.

/// Where a node sees an actor that it knows.
#[derive(Debug, Clone, Copy, PartialEq, Eq)]
pub enum Seen {
    /// It lives here.
    Live,
    /// It is frozen here, on its way to another node.
    Moving,
    /// It was made live at that node, as far as this one knows.
    Away(u16),
}
