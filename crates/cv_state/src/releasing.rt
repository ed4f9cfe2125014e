//! Frozen copies that go since their actor came to live elsewhere.

ghost use Rattle.std.specs.Prelude.{◌≡◌, ◌+◌, ◌<◌, ◌≤◌, length};
ghost use Rattle.std.specs.FinMap as map;
ghost use Rattle.cv_protocol.specs.NodeState.{judged_attempt, released};
ghost use Rattle.cv_state.specs.Arrivals.{all_released, moves_of};

use cv_protocol::{Frozen, Hint, Judged};
use cv_table::ActorTable;
use cv_token::ActorId;

/// The attempt of the actor's record; 0 without any.
pub(crate) fn judged_attempt(judged: &ActorTable<Judged>, actor: ActorId) -> u64
    ensures { result ≡ judged_attempt (map.get judged.now.map actor) }
{
    match judged.get(actor) {
        Some(record) => record.attempt,
        None => 0,
    }
}

/// Lets a frozen copy of an attempt of at most `upto` go; the actor's record rises to that attempt.
pub(crate) fn release(
    frozen: &mut ActorTable<Frozen>,
    judged: &mut ActorTable<Judged>,
    actor: ActorId,
    upto: u64,
)
    requires { 0 < judged.old.spare }
    ensures moves { moves_of frozen.new.map judged.new.map ≡ released (moves_of frozen.old.map judged.old.map) actor upto }
    ensures room { judged.old.spare ≤ judged.new.spare + 1 }
{
    let Some(copy) = frozen.get(actor) else {
        return;
    };
    let attempt = copy.attempt;
    if attempt > upto {
        return;
    }
    if judged_attempt(judged, actor) < attempt {
        let record = Judged {
            attempt,
            verdict: None,
        };
        let Ok(_old) = judged.insert(actor, record) else {
            unreachable!()
        };
    }
    frozen.remove(actor);
}

/// Lets the frozen copies go that these hints know to be old.
pub(crate) fn release_all(
    frozen: &mut ActorTable<Frozen>,
    judged: &mut ActorTable<Judged>,
    hints: &[Hint],
)
    requires { length hints.now ≤ judged.old.spare }
    ensures { moves_of frozen.new.map judged.new.map ≡ all_released hints.now (moves_of frozen.old.map judged.old.map) }
{
    for hint in hints {
        release(frozen, judged, hint.actor, hint.attempt);
    }
}
