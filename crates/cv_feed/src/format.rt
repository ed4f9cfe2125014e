//! `Format`: a kind of message, told by what stands at the front of bytes.

ghost use Rattle.std.specs.Prelude.{◌≡◌, ℕ, ◌<◌, ◌≤◌, List, ◌++◌, length, take, IfOk};
ghost use Rattle.cv_feed.specs.Judgement.{ForMessage, ForFault, ForNeed};
ghost use Rattle.cv_feed.specs.Streams.{Waits};

use std::alloc::{AllocError, AllocFailed, Global};

/// What stands at the front of bytes.
#[derive(Drop)]
pub enum Judged<M, F> {
    /// A whole message, in so many bytes.
    Message(M, usize),
    /// No message can stand there.
    Fault(F),
    /// Nothing is known before there are so many bytes.
    Need(usize),
}

/// Why a piece was not taken.
#[derive(Clone, Copy, Debug, PartialEq, Eq)]
pub enum Refusal<F> {
    /// This fault stands where the next message should.
    Fault(F),
    /// Memory was wanting.
    OutOfMemory,
}

impl<F> From<AllocError> for Refusal<F> {
    ghost use Rattle.std.specs.Prelude.{◌≡◌};
    ghost use Rattle.cv_feed.specs.declared.format.Refusal.TheVariants.{OutOfMemory};

    ghost from_gives = { λ _ e. e ≡ OutOfMemory };

    fn from(_refused: AllocError) -> Refusal<F> {
        Refusal::OutOfMemory
    }
}

impl<F, T: Drop> From<AllocFailed<T>> for Refusal<F> {
    ghost use Rattle.std.specs.Prelude.{◌≡◌};
    ghost use Rattle.cv_feed.specs.declared.format.Refusal.TheVariants.{OutOfMemory};

    ghost from_gives = { λ _ e. e ≡ OutOfMemory };

    fn from(_refused: AllocFailed<T>) -> Refusal<F> {
        Refusal::OutOfMemory
    }
}

/// A kind of message. `Spells` says which bytes are a message, whole; `Stands` what it means that a fault is told of
/// bytes; `Due` where some fault must be told. No message begins another's bytes, and none begins where a fault
/// stands, whatever follows.
pub trait Format {
    type Message: Drop;

    type Fault: Copy + Drop;

    ghost Spells: { Self.Message → List ℕ → Type 0 };

    ghost Stands: { Self.Fault → List ℕ → Type 0 };

    ghost Due: { Self.Fault → List ℕ → Type 0 };

    /// Never are more bytes needed.
    ghost most: { ℕ };

    /// Judges what stands at the front of the bytes.
    fn judge(alloc: Global, bytes: &[u8]) -> Result<Judged<Self::Message, Self::Fault>, AllocError>
        ensures message { IfOk result (λ j. ForMessage j (λ m n.
            (0 < n) × (n ≤ length bytes.now) × Spells m (take n bytes.now))) }
        ensures fault { IfOk result (λ j. ForFault j (λ f. Stands f bytes.now)) }
        ensures need { IfOk result (λ j. ForNeed j (λ n.
            (length bytes.now < n) × (n ≤ most) × Waits Spells Due n bytes.now)) };

    ghost one: { (m n : Self.Message) (a b x y : List ℕ) → Spells m a → Spells n b → a ++ x ≡ b ++ y
        → (m ≡ n) × (x ≡ y) };

    ghost some: { (m : Self.Message) (bytes : List ℕ) → Spells m bytes → 0 < length bytes };

    ghost stuck: { (f : Self.Fault) (m : Self.Message) (bytes more front rest : List ℕ) → Stands f bytes
        → Spells m front → ¬ (bytes ++ more ≡ front ++ rest) };
}
