//! Whether what the actors' actions need may wait.

ghost use Rattle.std.specs.Prelude.{◌≡◌, ◌↔◌, ◌≤◌, ◌<◌, ℕ, IsTrue};
ghost use Rattle.cv_behave.specs.KindRow.{needed};
ghost use Rattle.cv_kinds.specs.KindRow.{row_of};
ghost use Rattle.cv_graph.specs.Checks.{queue_checks};
ghost use Rattle.cv_graph.specs.Faults.{Judges};
ghost use Rattle.cv_graph.specs.Meaning.{AreSpecs, FitsQueues, most_waiting};

use crate::fault::GraphFault;
use cv_behave::Behave;
use cv_expand::Parts;
use cv_kinds::ActorSpec;

/// How many tokens wait at an inport at most.
const MOST_WAITING: u16 = 4;

/// The first actor with an action that needs more tokens of an inport than may wait there.
pub fn check_queues(parts: &Parts, specs: &[ActorSpec]) -> Result<(), GraphFault>
    requires { AreSpecs (parts.now).actors specs.now }
    ensures { Judges parts.now (queue_checks (parts.now).actors) result }
{
    for (number, actor) in parts.actors.as_slice().iter().enumerate() {
        if !fits_queues(&specs[number]) {
            return Err(GraphFault::BatchOverQueue { at: actor.at });
        }
    }
    Ok(())
}

/// Whether each action needs of each inport no more tokens than may wait there.
fn fits_queues(spec: &ActorSpec) -> bool
    ensures { IsTrue result ↔ FitsQueues spec.now }
{
    for action in 0..spec.kind.actions() {
        if !action_fits(spec, action) {
            return false;
        }
    }
    true
}

/// Whether an action needs of each inport no more tokens than may wait there.
fn action_fits(spec: &ActorSpec, action: u8) -> bool
    ensures { IsTrue result ↔ ((port : ℕ) → port < (row_of (spec.now).kind).inports → needed (row_of (spec.now).kind) (spec.now).args action port ≤ most_waiting) }
{
    for port in 0..spec.kind.inports() {
        if spec.kind.needs(&spec.args, action, port) > MOST_WAITING {
            return false;
        }
    }
    true
}
