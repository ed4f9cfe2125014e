//! Joins: the constants that values as sources make, and one feed for each target.

ghost use Rattle.std.specs.Prelude.{◌≡◌, ◌<◌, ◌^◌, IfOk};
ghost use Rattle.cv_lex.specs.Shapes.{IsName};
ghost use Rattle.cv_expand.specs.Walk.{feed_met, constant_step, constant_args, constant_at, constant_events, origin_of, feed_at, feed_events, join_events};
ghost use Rattle.cv_expand.specs.Runs.{Answers, run, take_in};

use crate::arguments::source_given;
use crate::copying::copy_target;
use crate::fault::ExpandFault;
use crate::flat::{Actor, Argument, Feed, Given, Origin, Parts};
use crate::path::{Step, copy_path, path_with};
use crate::putting::{put_actor, put_feed};
use crate::setting::{Seen, Spot, World};
use cv_lex::NameText;
use cv_readers::Name;
use cv_syntax::{Aim, Join, JoinSource, Literal};
use cv_token::{OutOfMemory, Text};
use sqlite_items::Items;
use std::alloc::Global;

/// The parts, and what a join adds to them.
pub(crate) fn walk_join(
    alloc: Global,
    world: &World<'_>,
    spot: &Spot,
    seen: &Seen,
    join: &Join,
    flat: Parts,
) -> Result<Parts, ExpandFault>
    requires { (seen.now).constants < 2 ^ 63 }
    ensures { Answers result (run flat (join_events world.now spot.now seen.now join.now)) }
{
    let given = source_given(alloc, world, spot, join)?;
    let flat = put_constant(alloc, spot, seen, join, given, flat)?;
    put_feeds(alloc, spot, seen, join, flat)
}

/// The parts, and the constant of a join whose source is a value.
fn put_constant(
    alloc: Global,
    spot: &Spot,
    seen: &Seen,
    join: &Join,
    given: Option<Given>,
    flat: Parts,
) -> Result<Parts, ExpandFault>
    requires { (seen.now).constants < 2 ^ 63 }
    ensures { Answers result (run flat (constant_events spot.now seen.now join.now given)) }
{
    match given {
        Some(given) => put_actor(flat, constant_at(alloc, spot, seen, join, given)?),
        None => Ok(flat),
    }
}

/// The constant of a join whose source is this value.
fn constant_at(
    alloc: Global,
    spot: &Spot,
    seen: &Seen,
    join: &Join,
    given: Given,
) -> Result<Actor, OutOfMemory>
    requires { (seen.now).constants < 2 ^ 63 }
    ensures { IfOk result (λ actor. actor ≡ constant_at spot.now seen.now join.now given) }
{
    let path = path_with(alloc, &spot.path, constant_step(seen))?;
    let kind = Text::from_string(String::from_str(alloc, "std.Constant")?);
    let args = constant_args(alloc, join, given)?;
    Ok(Actor {
        path,
        kind,
        args,
        at: join.at,
    })
}

/// The step to the next constant of a body.
fn constant_step(seen: &Seen) -> Step
    requires { (seen.now).constants < 2 ^ 63 }
    ensures { result ≡ constant_step seen.now }
{
    Step::Constant(seen.constants + 1)
}

/// The arguments of a constant: the value, and -1 for how often it is sent.
fn constant_args(alloc: Global, join: &Join, given: Given) -> Result<Items<Argument>, OutOfMemory>
    ensures { IfOk result (λ args. args ≡ constant_args join.now given) }
{
    let mut args = Items::new(alloc);
    let name = name_at(alloc, "data", join.at)?;
    args.push(Argument { name, given })?;
    let name = name_at(alloc, "n", join.at)?;
    let given = Given::Literal(Literal::Int(-1));
    args.push(Argument { name, given })?;
    Ok(args)
}

/// A name at a place.
fn name_at(alloc: Global, text: &str, at: u32) -> Result<Name, OutOfMemory>
    requires { IsName text.now }
    ensures { IfOk result (λ name. name ≡ record { text = text.now; at = at }) }
{
    let text = name_text(alloc, text)?;
    Ok(Name { text, at })
}

/// A name without a place.
fn name_text(alloc: Global, text: &str) -> Result<NameText, OutOfMemory>
    requires { IsName text.now }
    ensures { IfOk result (λ name. name ≡ text.now) }
{
    Ok(NameText::new(Text::from_string(String::from_str(alloc, text)?)))
}

/// The parts, and a feed for each target of a join.
fn put_feeds(
    alloc: Global,
    spot: &Spot,
    seen: &Seen,
    join: &Join,
    flat: Parts,
) -> Result<Parts, ExpandFault>
    requires { (seen.now).constants < 2 ^ 63 }
    ensures { Answers result (run flat (feed_events spot.now seen.now join.now (join.now).targets)) }
{
    let mut flat = flat;
    for aim in join.targets.as_slice() {
        flat = put_feed(flat, feed_at(alloc, spot, seen, join, aim)?)?;
    }
    Ok(flat)
}

/// The feed of one target.
fn feed_at(
    alloc: Global,
    spot: &Spot,
    seen: &Seen,
    join: &Join,
    aim: &Aim,
) -> Result<Feed, OutOfMemory>
    requires { (seen.now).constants < 2 ^ 63 }
    ensures { IfOk result (λ feed. feed ≡ feed_at spot.now seen.now join.now aim.now) }
{
    let body = copy_path(alloc, &spot.path)?;
    let origin = origin_of(alloc, seen, &join.source)?;
    let target = copy_target(alloc, &aim.target)?;
    Ok(Feed {
        body,
        origin,
        at: join.at,
        target,
        target_at: aim.at,
    })
}

/// Where a join comes from, in its body.
fn origin_of(alloc: Global, seen: &Seen, source: &JoinSource) -> Result<Origin, OutOfMemory>
    requires { (seen.now).constants < 2 ^ 63 }
    ensures { IfOk result (λ origin. origin ≡ origin_of seen.now source.now) }
{
    match source {
        JoinSource::Voidport => Ok(Origin::Void),
        JoinSource::Own(port) => Ok(Origin::Own(port.copy(alloc)?)),
        JoinSource::Port(actor, port) => {
            let actor = actor.copy(alloc)?;
            Ok(Origin::Port(Step::Name(actor), port.copy(alloc)?))
        }
        JoinSource::Name(_) | JoinSource::Literal(_) => {
            let port = name_text(alloc, "token")?;
            Ok(Origin::Port(constant_step(seen), port))
        }
    }
}
