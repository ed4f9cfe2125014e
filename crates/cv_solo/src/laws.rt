//! What holds of the rounds of every network. The function does nothing: its clause is a law.

ghost use Rattle.std.specs.Prelude.{◌≡◌, ℕ, Some};
ghost use Rattle.cv_solo.specs.OneRuntime.{opening, solo};
ghost use Rattle.cv_solo.specs.PlainNetwork.{plain, rounds_firings};

use cv_kinds::Network;

/// The machine of rounds is the one runtime that fires what the rounds fire, in their order.
#[tactic(auto, using(crate::proofs::Replays::rounds_lead))]
pub fn rounds_are_their_firings(_net: &Network)
    ensures { (n : ℕ) → solo _net.now (rounds_firings _net.now (opening _net.now) n) ≡ Some (plain _net.now n) }
{}
