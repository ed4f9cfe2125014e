//! What names stand for, and the arguments of declarations.

ghost use Rattle.std.specs.Prelude.{◌≡◌, ◌∷◌, [], ◌++◌, IfOk, option_map};
ghost use Rattle.cv_expand.specs.Walk.{given_named, given_of, arguments, argument_fault, argument_faults, argument_with, places_of, takes, source_given, source_faults, values_of};
ghost use Rattle.cv_expand.specs.Runs.{Answers, unless};

use crate::checking::Places;
use crate::copying::{copy_given, copy_literal, copy_name};
use crate::fault::ExpandFault;
use crate::flat::{Argument, Given};
use crate::named::Named;
use crate::setting::{Spot, World};
use cv_lex::NameText;
use cv_readers::Name;
use cv_syntax::{Arg, Join, JoinSource, Value};
use cv_token::OutOfMemory;
use sqlite_items::Items;
use std::alloc::Global;

/// What a name stands for: the argument of that name, else the constant.
fn given_named(
    alloc: Global,
    world: &World<'_>,
    spot: &Spot,
    name: &NameText,
) -> Result<Option<Given>, OutOfMemory>
    ensures { IfOk result (λ given. given ≡ given_named world.now spot.now name.now) }
{
    if let Some(given) = spot.values.get(name.as_str()) {
        return Ok(Some(copy_given(alloc, given)?));
    }
    match world.defines.get(name.as_str()) {
        Some(given) => Ok(Some(copy_given(alloc, given)?)),
        None => Ok(None),
    }
}

/// What a value stands for.
fn given_of(
    alloc: Global,
    world: &World<'_>,
    spot: &Spot,
    value: &Value,
) -> Result<Option<Given>, OutOfMemory>
    ensures { IfOk result (λ given. given ≡ given_of world.now spot.now value.now) }
{
    match value {
        Value::Literal(literal) => Ok(Some(Given::Literal(copy_literal(alloc, literal)?))),
        Value::Fraction(digits) => Ok(Some(Given::Fraction(digits.copy(alloc)?))),
        Value::Name(name) => given_named(alloc, world, spot, &name.text),
    }
}

/// The value of a join's source, if it is one.
pub(crate) fn source_given(
    alloc: Global,
    world: &World<'_>,
    spot: &Spot,
    join: &Join,
) -> Result<Option<Given>, ExpandFault>
    ensures { Answers result (unless (source_faults world.now spot.now join.now) (source_given world.now spot.now (join.now).source)) }
{
    match &join.source {
        JoinSource::Literal(literal) => Ok(Some(Given::Literal(copy_literal(alloc, literal)?))),
        JoinSource::Name(name) => match given_named(alloc, world, spot, name)? {
            Some(given) => Ok(Some(given)),
            None => Err(ExpandFault::NoArg { at: join.at }),
        },
        _ => Ok(None),
    }
}

/// Whether a component has an argument of a name; a kind is asked later.
fn takes(places: Option<&Places>, name: &NameText) -> bool
    ensures { result ≡ takes (option_map (λ p. p.now) places.entry) name.now }
{
    match places {
        Some(places) => places.has(name.as_str()),
        None => true,
    }
}

/// The arguments, and one more behind them.
fn with_argument(
    alloc: Global,
    world: &World<'_>,
    spot: &Spot,
    places: Option<&Places>,
    arg: &Arg,
    items: Items<Argument>,
) -> Result<Items<Argument>, ExpandFault>
    ensures { Answers result (unless (argument_fault world.now spot.now (option_map (λ p. p.now) places.entry) arg.now) (items ++ argument_with arg.now (given_of world.now spot.now (arg.now).value))) }
{
    if !takes(places, &arg.name.text) {
        return Err(ExpandFault::NoArg { at: arg.name.at });
    }
    let Some(given) = given_of(alloc, world, spot, &arg.value)? else {
        return Err(ExpandFault::NoArg { at: arg.name.at });
    };
    let name = copy_name(alloc, &arg.name)?;
    let mut items = items;
    items.push(Argument { name, given })?;
    Ok(items)
}

/// The arguments of a declaration. Those of a component are among the names of its head.
pub(crate) fn arguments(
    alloc: Global,
    world: &World<'_>,
    spot: &Spot,
    places: Option<&Places>,
    args: &[Arg],
) -> Result<Items<Argument>, ExpandFault>
    ensures { Answers result (unless (argument_faults world.now spot.now (option_map (λ p. p.now) places.entry) args.now) (arguments world.now spot.now args.now)) }
{
    let mut items = Items::new(alloc);
    for arg in args {
        items = with_argument(alloc, world, spot, places, arg, items)?;
    }
    Ok(items)
}

/// The values of arguments under their names.
pub(crate) fn values_of(alloc: Global, args: &[Argument]) -> Result<Named<Given>, OutOfMemory>
    ensures { IfOk result (λ values. values ≡ values_of args.now) }
{
    let mut values = Named::new(alloc);
    for arg in args {
        let given = copy_given(alloc, &arg.given)?;
        values = values.with(alloc, arg.name.text.as_text().copy(alloc)?, given)?;
    }
    Ok(values)
}

/// The names of a head with their places.
pub(crate) fn places_of(alloc: Global, names: &[Name]) -> Result<Places, OutOfMemory>
    ensures { IfOk result (λ places. places ≡ places_of names.now) }
{
    let mut places = Places::new(alloc);
    for name in names {
        places = places.with(alloc, name.text.as_text().copy(alloc)?, name.at)?;
    }
    Ok(places)
}
