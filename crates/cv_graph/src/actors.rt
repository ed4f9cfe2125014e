//! The actors of a network.

ghost use Rattle.std.specs.Prelude.{◌≡◌, ◌∷◌, [], IfOk, OnOk};
ghost use Rattle.std.specs.List.{AllByRecursion};
ghost use Rattle.cv_expand.specs.Paths.{IsPath};
ghost use Rattle.cv_expand.specs.declared.flat.Parts.{Parts};
ghost use Rattle.cv_graph.specs.Checks.{kind_known, args_taken, actor_checks};
ghost use Rattle.cv_graph.specs.Faults.{Judges};
ghost use Rattle.cv_graph.specs.Meaning.{IsSpec, AreSpecs};
ghost use Rattle.cv_kinds.specs.WellFormed.{IsSpec as IsSound};

use crate::arguments::arguments;
use crate::fault::GraphFault;
use cv_expand::{Actor, Parts, path_text};
use cv_kinds::{ActorSpec, find};
use std::alloc::Global;

/// The actors as a network has them, or the first fault of their kinds and arguments.
pub fn actors_of(alloc: Global, parts: &Parts) -> Result<Vec<ActorSpec>, GraphFault>
    ensures judged { Judges parts.now (actor_checks (parts.now).actors) result }
    ensures actors { IfOk result (λ specs. AreSpecs (parts.now).actors specs.items) }
    ensures sound { IfOk result (λ specs. AllByRecursion IsSound specs.items) }
    ensures named { OnOk result (AllByRecursion (λ a. IsPath a.path) (parts.now).actors) }
{
    let mut specs = Vec::new(alloc);
    for actor in parts.actors.as_slice() {
        let spec = actor_of(alloc, actor)?;
        specs.push(spec)?;
    }
    Ok(specs)
}

/// An actor as a network has it.
fn actor_of(alloc: Global, actor: &Actor) -> Result<ActorSpec, GraphFault>
    ensures judged { (parts : Parts) → Judges parts (kind_known actor.now ∷ args_taken actor.now ∷ []) result }
    ensures actor { IfOk result (IsSpec actor.now) }
    ensures sound { IfOk result IsSound }
    ensures named { OnOk result (IsPath (actor.now).path) }
{
    let Some(kind) = find(actor.kind.as_str()) else {
        return Err(GraphFault::NoKind { at: actor.at });
    };
    let args = arguments(alloc, kind, actor)?;
    let path = path_text(alloc, actor.path.as_slice())?;
    let _letters = path.as_str();
    Ok(ActorSpec { path, kind, args })
}
