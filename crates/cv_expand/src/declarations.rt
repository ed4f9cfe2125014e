//! What declarations make: actors, instances, and the spot inside an instance.

ghost use Rattle.std.specs.Prelude.{◌≡◌, ◌∷◌, [], ◌++◌, IfOk, None};
ghost use Rattle.cv_expand.specs.Walk.{actor_met, argument_faults, actor_at, instance_at, inside_with, path_below, dotted, bads};
ghost use Rattle.cv_expand.specs.Runs.{Answers, run};

use crate::arguments::{arguments, values_of};
use crate::copying::{copy_names, names_with};
use crate::fault::ExpandFault;
use crate::flat::{Actor, Argument, Instance, Parts};
use crate::path::{Path, Step, path_with};
use crate::putting::put_actor;
use crate::setting::{Spot, World};
use cv_lex::NameText;
use cv_syntax::{Component, Declare};
use cv_token::{OutOfMemory, Text};
use std::alloc::Global;

/// The parts, and an actor of the kind `first.second`.
pub(crate) fn walk_actor(
    alloc: Global,
    world: &World<'_>,
    spot: &Spot,
    declare: &Declare,
    first: &NameText,
    second: &NameText,
    flat: Parts,
) -> Result<Parts, ExpandFault>
    ensures { Answers result (run flat (bads (argument_faults world.now spot.now None (declare.now).args) ++ actor_met (actor_at world.now spot.now declare.now (dotted first.now second.now)) ∷ [])) }
{
    let args = arguments(alloc, world, spot, None, declare.args.as_slice())?;
    let path = path_below(alloc, spot, &declare.name.text)?;
    let kind = dotted_name(alloc, first, second)?;
    let at = declare.name.at;
    put_actor(
        flat,
        Actor {
            path,
            kind,
            args,
            at,
        },
    )
}

/// The name of a kind.
fn dotted_name(alloc: Global, first: &NameText, second: &NameText) -> Result<Text, OutOfMemory>
    ensures { IfOk result (λ kind. kind ≡ dotted first.now second.now) }
{
    let (first, second) = (first.as_str(), second.as_str());
    Ok(Text::from_string(format!(in alloc; "{first}.{second}")?))
}

/// The path of what is declared under a name.
fn path_below(alloc: Global, spot: &Spot, name: &NameText) -> Result<Path, OutOfMemory>
    ensures { IfOk result (λ path. path ≡ path_below spot.now name.now) }
{
    path_with(alloc, &spot.path, Step::Name(name.copy(alloc)?))
}

/// The instance of a component.
pub(crate) fn instance_at(
    alloc: Global,
    spot: &Spot,
    declare: &Declare,
    name: &NameText,
    component: &Component,
) -> Result<Instance, OutOfMemory>
    ensures { IfOk result (λ instance. instance ≡ instance_at spot.now declare.now name.now component.now) }
{
    let path = path_below(alloc, spot, &declare.name.text)?;
    let inports = copy_names(alloc, component.inports.as_slice())?;
    let outports = copy_names(alloc, component.outports.as_slice())?;
    Ok(Instance {
        path,
        component: name.copy(alloc)?,
        inports,
        outports,
        at: declare.name.at,
    })
}

/// The body of a component that is declared here with these arguments.
pub(crate) fn inside(
    alloc: Global,
    spot: &Spot,
    declare: &Declare,
    name: &NameText,
    args: &[Argument],
) -> Result<Spot, OutOfMemory>
    ensures { IfOk result (λ inner. inner ≡ inside_with spot.now declare.now name.now args.now) }
{
    let opened = names_with(alloc, spot.opened.as_slice(), name)?;
    let path = path_below(alloc, spot, &declare.name.text)?;
    let values = values_of(alloc, args)?;
    Ok(Spot {
        opened,
        path,
        values,
    })
}
