//! What holds of the rows as a whole, at all arguments, states and inputs: of the rows that `Behave` answers. The functions
//! do nothing: their clauses are laws.

ghost use Rattle.std.specs.Prelude.{◌≡◌, ℕ, List, length};
ghost use Rattle.std.specs.Str.{encode_utf8_all};
ghost use Rattle.cv_behave.specs.KindRow.{Deterministic, GivesItsTokens, StaysReady};
ghost use Rattle.cv_calc.specs.Values.{character_count};

use crate::kind::CalcKind;
use cv_behave::Behave;

/// At most one action is ready.
pub fn at_most_one_ready(_kind: CalcKind)
    ensures { Deterministic (⟦<CalcKind as Behave>⟧.row _kind) }
{}

/// An action that is ready stays ready when tokens are put behind the ends of its inputs.
pub fn ready_stays_ready(_kind: CalcKind)
    ensures { StaysReady (⟦<CalcKind as Behave>⟧.row _kind) }
{}

/// An effect has a place for each outport, and gives each as many tokens as `gives` says.
pub fn gives_its_tokens(_kind: CalcKind)
    ensures { GivesItsTokens (⟦<CalcKind as Behave>⟧.row _kind) }
{}

/// What `text.Length` counts are the characters that the text encodes.
pub fn counts_characters()
    ensures { (characters : List ℕ) → character_count (encode_utf8_all characters)
        ≡ length characters }
{}
