//! The law, over the one runtime and the rounds of the plain network. The functions do nothing: their clauses are laws.

ghost use Rattle.std.specs.Prelude.{◌≡◌, ◌≤◌, ◌⊎◌, ℕ, List, length, slice_get, Some};
ghost use Rattle.cv_kahn.specs.Determined.{Determined, Rests};
ghost use Rattle.cv_kahn.specs.Streams.{Prefix, took_at, wrote_at};
ghost use Rattle.cv_kinds.specs.Net.{Net};
ghost use Rattle.cv_kinds.specs.Wired.{IsWired};
ghost use Rattle.cv_kinds.specs.declared.network.ActorSpec.{ActorSpec};
ghost use Rattle.cv_kinds.specs.declared.network.Connection.{Connection};
ghost use Rattle.cv_solo.specs.OneRuntime.{Runtime, slots_of, solo};
ghost use Rattle.cv_solo.specs.PlainNetwork.{plain};

/// What a run wrote to a determined connection is a prefix of what any number of rounds writes to it that is at least the
/// number of the run's firings.
pub fn prefix()
    ensures { (net : Net) (firings : List (ℕ × ℕ)) (r : Runtime) (n c : ℕ) (j : Connection) → IsWired net → solo net firings ≡ Some r → length firings ≤ n → slice_get net.connections c ≡ Some j → Determined net j.from → Prefix (wrote_at r c) (wrote_at (plain net n) c) }
{}

/// Where no actor that leads to a determined connection can fire, the run has written all that the rounds write to it.
pub fn whole()
    ensures { (net : Net) (firings : List (ℕ × ℕ)) (r : Runtime) (n c : ℕ) (j : Connection) → IsWired net → solo net firings ≡ Some r → length firings ≤ n → slice_get net.connections c ≡ Some j → Determined net j.from → Rests net r j.from → wrote_at r c ≡ wrote_at (plain net n) c }
{}

/// Where a determined actor can't fire, nor any that leads to it, the run has taken from each of its inports as many
/// tokens as the rounds take.
pub fn taken()
    ensures { (net : Net) (firings : List (ℕ × ℕ)) (r : Runtime) (n c : ℕ) (j : Connection) → IsWired net → solo net firings ≡ Some r → length firings ≤ n → slice_get net.connections c ≡ Some j → Determined net j.to → Rests net r j.to → took_at r c ≡ took_at (plain net n) c }
{}

/// Where a determined actor can't fire, nor any that leads to it, its slots are those after the rounds.
pub fn slots()
    ensures { (net : Net) (firings : List (ℕ × ℕ)) (r : Runtime) (n actor : ℕ) (spec : ActorSpec) → IsWired net → solo net firings ≡ Some r → length firings ≤ n → slice_get net.actors actor ≡ Some spec → Determined net actor → Rests net r actor → slots_of r actor ≡ slots_of (plain net n) actor }
{}

/// Of two runs of a network one wrote to a determined connection a prefix of what the other wrote, and both wrote the same
/// where after neither run an actor that leads to it can fire.
pub fn agree()
    ensures one_begins { (net : Net) (firings others : List (ℕ × ℕ)) (r s : Runtime) (c : ℕ) (j : Connection) → IsWired net → solo net firings ≡ Some r → solo net others ≡ Some s → slice_get net.connections c ≡ Some j → Determined net j.from → Prefix (wrote_at r c) (wrote_at s c) ⊎ Prefix (wrote_at s c) (wrote_at r c) }
    ensures same { (net : Net) (firings others : List (ℕ × ℕ)) (r s : Runtime) (c : ℕ) (j : Connection) → IsWired net → solo net firings ≡ Some r → solo net others ≡ Some s → slice_get net.connections c ≡ Some j → Determined net j.from → Rests net r j.from → Rests net s j.from → wrote_at r c ≡ wrote_at s c }
{}
