//! The walk over a script's statements, into the components that they declare.

ghost use Rattle.std.specs.Prelude.{◌≡◌, ◌<◌, ◌^◌, false};
ghost use Rattle.cv_expand.specs.Lookup.{has};
ghost use Rattle.cv_expand.specs.Components.{component_of};
ghost use Rattle.cv_expand.specs.Walk.{walk, statement_events, instance_events, kind_events, root_spot};
ghost use Rattle.cv_expand.specs.Heads.{statements_in};
ghost use Rattle.cv_expand.specs.Runs.{Answers, run};

use crate::arguments::{arguments, places_of};
use crate::checking::{check_count, check_declared};
use crate::copying::has;
use crate::declarations::{inside, instance_at, walk_actor};
use crate::fault::ExpandFault;
use crate::flat::Parts;
use crate::joins::walk_join;
use crate::putting::put_instance;
use crate::setting::{Seen, Spot, World, note_statement, nothing_seen, root_spot};
use cv_lex::NameText;
use cv_syntax::{Component, Declare, Item, KindName, Statement};
use std::alloc::Global;

/// The parts, and what a body adds to them.
#[cycle(walk)]
fn walk_body(
    alloc: Global,
    world: &World<'_>,
    spot: &Spot,
    body: &[Statement],
    flat: Parts,
) -> Result<Parts, ExpandFault>
    ensures { Answers result (run flat (walk world.now spot.now body.now)) }
{
    let mut flat = flat;
    let mut seen = nothing_seen(alloc);
    for statement in body {
        flat = walk_statement(alloc, world, spot, &seen, statement, flat)?;
        seen = note_statement(alloc, seen, statement)?;
    }
    Ok(flat)
}

/// The parts, and what a statement adds to them.
#[cycle(walk)]
fn walk_statement(
    alloc: Global,
    world: &World<'_>,
    spot: &Spot,
    seen: &Seen,
    statement: &Statement,
    flat: Parts,
) -> Result<Parts, ExpandFault>
    requires { (seen.now).constants < 2 ^ 63 }
    ensures { Answers result (run flat (statement_events (walk world.now) world.now spot.now seen.now statement.now)) }
{
    match statement {
        Statement::Declare(declare) => {
            check_declared(alloc, seen, declare)?;
            walk_declare(alloc, world, spot, declare, flat)
        }
        Statement::Join(join) => walk_join(alloc, world, spot, seen, join, flat),
    }
}

/// The parts, and what a declaration adds to them.
#[cycle(walk)]
fn walk_declare(
    alloc: Global,
    world: &World<'_>,
    spot: &Spot,
    declare: &Declare,
    flat: Parts,
) -> Result<Parts, ExpandFault>
    ensures { Answers result (run flat (kind_events (walk world.now) world.now spot.now declare.now (declare.now).kind)) }
{
    match &declare.kind {
        KindName::Dotted(first, second) => {
            walk_actor(alloc, world, spot, declare, first, second, flat)
        }
        KindName::Plain(name) => {
            let at = declare.name.at;
            let Some(component) = world.components.find(name.as_str()) else {
                return Err(ExpandFault::NoComponent { at });
            };
            if has(spot.opened.as_slice(), name) {
                return Err(ExpandFault::Recursion { at });
            }
            walk_instance(alloc, world, spot, declare, name, component, flat)
        }
    }
}

/// The parts, and an instance of a component that is not open, with what stands in it.
#[cycle(walk)]
fn walk_instance(
    alloc: Global,
    world: &World<'_>,
    spot: &Spot,
    declare: &Declare,
    name: &NameText,
    component: &Component,
    flat: Parts,
) -> Result<Parts, ExpandFault>
    requires found { component_of (world.now).components name.now ≡ Some component.now }
    requires closed { has (spot.now).opened name.now ≡ false }
    ensures { Answers result (run flat (instance_events (walk world.now) world.now spot.now declare.now name.now component.now)) }
{
    check_count(declare, component)?;
    let places = places_of(alloc, component.args.as_slice())?;
    let args = arguments(alloc, world, spot, Some(&places), declare.args.as_slice())?;
    let inner = inside(alloc, spot, declare, name, args.as_slice())?;
    let flat = put_instance(flat, instance_at(alloc, spot, declare, name, component)?)?;
    walk_body(alloc, world, &inner, component.body.as_slice(), flat)
}

/// The parts of the root's statements.
pub(crate) fn walk_root(
    alloc: Global,
    world: &World<'_>,
    script: &[Item],
    flat: Parts,
) -> Result<Parts, ExpandFault>
    ensures { Answers result (run flat (walk world.now root_spot (statements_in script.now))) }
{
    let spot = root_spot(alloc);
    let mut flat = flat;
    let mut seen = nothing_seen(alloc);
    for item in script {
        if let Item::Statement(statement) = item {
            flat = walk_statement(alloc, world, &spot, &seen, statement, flat)?;
            seen = note_statement(alloc, seen, statement)?;
        }
    }
    Ok(flat)
}
