//! A script expanded: its components inlined, its names replaced by what they stand for.

ghost use Rattle.std.specs.Prelude.{◌≡◌, IfOk};
ghost use Rattle.cv_expand.specs.Meaning.{meaning, unwalked};
ghost use Rattle.cv_expand.specs.Runs.{Answers};
ghost use Rattle.cv_expand.specs.Bodies.{Distinct, IsMadeOf, paths};
ghost use Rattle.cv_expand.specs.Flat.{IsFlat};

use crate::checking::{check_components, check_rules};
use crate::components::Components;
use crate::constants::constants;
use crate::fault::ExpandFault;
use crate::flat::{Flat, Parts};
use crate::rules::{applies_of, rules_of};
use crate::setting::World;
use crate::walking::walk_root;
use cv_syntax::{Item, Script};
use cv_token::OutOfMemory;
use sqlite_items::Items;
use std::alloc::Global;

/// The actors, component instances and joins of a script in the order of its walk, with its rules and applies as they are
/// written, or the first fault that the walk meets: those of the constants, then of the components, then of the rules,
/// then of the root's statements.
pub fn expand(alloc: Global, script: &Script) -> Result<Flat, ExpandFault>
    ensures exact { Answers result (meaning (script.now).items) }
    ensures made { IfOk result (λ flat. IsMadeOf (script.now).items flat) }
    ensures distinct { IfOk result (λ flat. Distinct (paths flat)) }
{
    Ok(Flat::new(parts_of(alloc, script)?))
}

/// The same as parts alone.
fn parts_of(alloc: Global, script: &Script) -> Result<Parts, ExpandFault>
    ensures exact { Answers result (meaning (script.now).items) }
    ensures made { IfOk result (λ parts. IsMadeOf (script.now).items parts) }
    ensures flat { IfOk result IsFlat }
{
    let items = script.items.as_slice();
    let defines = constants(alloc, items)?;
    check_components(alloc, items)?;
    check_rules(alloc, items)?;
    let components = Components::of(alloc, items)?;
    let world = World {
        components,
        defines,
    };
    let parts = parts_before(alloc, items)?;
    walk_root(alloc, &world, items, parts)
}

/// The rules and applies of a script; nothing else was met yet.
fn parts_before(alloc: Global, script: &[Item]) -> Result<Parts, OutOfMemory>
    ensures { IfOk result (λ parts. parts ≡ unwalked script.now) }
{
    let rules = rules_of(alloc, script)?;
    let applies = applies_of(alloc, script)?;
    Ok(Parts {
        actors: Items::new(alloc),
        instances: Items::new(alloc),
        feeds: Items::new(alloc),
        rules,
        applies,
    })
}
