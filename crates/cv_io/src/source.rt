//! A source of bytes.

ghost use Rattle.std.specs.Prelude.{◌≡◌, ◌<◌, ◌≤◌, ℕ, List, length};
ghost use Rattle.std.specs.declared.option.Option.{Option};

/// What one call of `Source::read` answers.
#[derive(Clone, Copy, Debug, PartialEq, Eq)]
pub enum Got {
    /// So many bytes now stand at the front of the buffer: at least 1, at most its length.
    Bytes(usize),
    /// Nothing is left.
    End,
    /// The source failed, and its count of faults rose.
    Failed,
}

/// What gives bytes, in pieces of any size.
pub trait Source {
    ghost use Rattle.cv_io.specs.Bytes.{GivesBytes, CountsReads};

    /// The bytes still to come, or None where the source doesn't tell.
    ghost left: { Self → Option (List ℕ) };

    /// How often the source has failed. A call that fails raises the count, and no other call changes it.
    ghost faults: { Self → ℕ };

    /// Gives some of the next bytes, or tells that there are none. After `Failed` the same bytes are left.
    fn read(&mut self, buf: &mut [u8]) -> Got
        requires { 0 < length buf.old }
        ensures later { faults self.old ≤ faults self.new }
        ensures bytes { GivesBytes (left self.old) (left self.new) buf.new result }
        ensures count { CountsReads (faults self.old) (faults self.new) result };
}
