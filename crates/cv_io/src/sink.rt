//! A sink of bytes.

ghost use Rattle.std.specs.Prelude.{◌≡◌, ◌<◌, ◌≤◌, ℕ, List, length};
ghost use Rattle.std.specs.declared.option.Option.{Option};

/// What one call of `Sink::write` answers.
#[derive(Clone, Copy, Debug, PartialEq, Eq)]
pub enum Took {
    /// So many bytes at the front of the piece were taken: at least 1, at most its length.
    Bytes(usize),
    /// The sink took nothing, and its count of faults rose.
    Failed,
}

/// What takes bytes, in pieces of any size.
pub trait Sink {
    ghost use Rattle.cv_io.specs.Bytes.{Takes, CountsWrites};

    /// The bytes written so far, or None where the sink doesn't tell.
    ghost written: { Self → Option (List ℕ) };

    /// How often the sink has failed. A call that fails raises the count, and no other call changes it.
    ghost faults: { Self → ℕ };

    /// Takes some bytes at the front of the piece. After `Failed` the same bytes are written.
    fn write(&mut self, piece: &[u8]) -> Took
        requires { 0 < length piece.now }
        ensures later { faults self.old ≤ faults self.new }
        ensures bytes { Takes (written self.old) (written self.new) piece.now result }
        ensures count { CountsWrites (faults self.old) (faults self.new) result };
}
