//! Faults of names: those that are taken already.

ghost use Rattle.std.specs.Prelude.{◌∷◌, [], ◌++◌};
ghost use Rattle.cv_expand.specs.declared.fault.ExpandFault.TheVariants as faults;
ghost use Rattle.cv_expand.specs.Components.{components_in};
ghost use Rattle.cv_expand.specs.Walk.{repeat_faults, arg_names, declared_faults, count_faults};
ghost use Rattle.cv_expand.specs.Heads.{component_faults, head_faults, rule_names};
ghost use Rattle.cv_expand.specs.Lookup.{binds, only_if};
ghost use Rattle.cv_expand.specs.Runs.{Answers, unless};

use crate::copying::has;
use crate::fault::ExpandFault;
use crate::named::Named;
use crate::setting::Seen;
use cv_readers::Name;
use cv_syntax::{Arg, Component, Declare, Item};
use std::alloc::Global;

/// Names, each with the place at which it stands first.
pub(crate) type Places = Named<u32>;

/// The names, and one more that is not among them.
pub(crate) fn note(alloc: Global, names: Places, name: &Name) -> Result<Places, ExpandFault>
    ensures { Answers result (unless (only_if (binds names (name.now).text) (faults.DoubleName (name.now).at)) (names ++ record { key = (name.now).text; value = (name.now).at } ∷ [])) }
{
    if names.has(name.text.as_str()) {
        return Err(ExpandFault::DoubleName { at: name.at });
    }
    Ok(names.with(alloc, name.text.as_text().copy(alloc)?, name.at)?)
}

/// That no name stands twice.
pub(crate) fn check_names(alloc: Global, names: &[Name]) -> Result<(), ExpandFault>
    ensures { Answers result (unless (repeat_faults [] names.now) tt) }
{
    let mut places = Places::new(alloc);
    for name in names {
        places = note(alloc, places, name)?;
    }
    Ok(())
}

/// That no argument is given twice.
fn check_args(alloc: Global, args: &[Arg]) -> Result<(), ExpandFault>
    ensures { Answers result (unless (repeat_faults [] (arg_names args.now)) tt) }
{
    let mut places = Places::new(alloc);
    for arg in args {
        places = note(alloc, places, &arg.name)?;
    }
    Ok(())
}

/// That the name of a declaration is not declared yet in its body, and that no argument is given twice.
pub(crate) fn check_declared(
    alloc: Global,
    seen: &Seen,
    declare: &Declare,
) -> Result<(), ExpandFault>
    ensures { Answers result (unless (declared_faults seen.now declare.now) tt) }
{
    if has(seen.names.as_slice(), &declare.name.text) {
        return Err(ExpandFault::DoubleName {
            at: declare.name.at,
        });
    }
    check_args(alloc, declare.args.as_slice())
}

/// That a declaration gives a component as many arguments as it has.
pub(crate) fn check_count(declare: &Declare, component: &Component) -> Result<(), ExpandFault>
    ensures { Answers result (unless (count_faults declare.now component.now) tt) }
{
    if declare.args.len() != component.args.len() {
        return Err(ExpandFault::ArgCount {
            at: declare.name.at,
        });
    }
    Ok(())
}

/// That no argument, no inport and no outport of a component's head stands twice.
fn check_head(alloc: Global, component: &Component) -> Result<(), ExpandFault>
    ensures { Answers result (unless (head_faults component.now) tt) }
{
    check_names(alloc, component.args.as_slice())?;
    check_names(alloc, component.inports.as_slice())?;
    check_names(alloc, component.outports.as_slice())
}

/// That no component is declared twice, and that no head repeats a name.
pub(crate) fn check_components(alloc: Global, script: &[Item]) -> Result<(), ExpandFault>
    ensures { Answers result (unless (component_faults [] (components_in script.now)) tt) }
{
    let mut places = Places::new(alloc);
    for item in script {
        if let Item::Component(component) = item {
            places = note(alloc, places, &component.name)?;
            check_head(alloc, component)?;
        }
    }
    Ok(())
}

/// That no rule is declared twice.
pub(crate) fn check_rules(alloc: Global, script: &[Item]) -> Result<(), ExpandFault>
    ensures { Answers result (unless (repeat_faults [] (rule_names script.now)) tt) }
{
    let mut places = Places::new(alloc);
    for item in script {
        if let Item::Rule(rule) = item {
            places = note(alloc, places, &rule.name)?;
        }
    }
    Ok(())
}
