//! `Need`: what an action lacks.

/// What an action of an actor lacks first.
#[derive(Debug, Clone, Copy, PartialEq, Eq)]
pub enum Need {
    /// `Token(port, count)`: that inport holds fewer tokens.
    Token(u8, u16),
    /// The guard does not hold.
    Guard,
    /// That outport has no place.
    Space(u8),
    /// The moment has not come.
    Until(u64),
}
