//! What was met, put behind what was met before: at most 256 actors and instances, and at most 4,096 joins.

ghost use Rattle.std.specs.Prelude.{◌≡◌, nat_lt};
ghost use Rattle.cv_expand.specs.Walk.{actor_met, instance_met, feed_met};
ghost use Rattle.cv_expand.specs.Runs.{Answers, take_in, place_count, most_places};

use crate::fault::ExpandFault;
use crate::flat::{Actor, Feed, Instance, Parts};

/// How many actors and instances there are at most.
pub const MOST_PLACES: usize = 256;

/// How many joins there are at most, counted by their targets.
pub const MOST_FEEDS: usize = 4096;

/// Whether there is room for one more actor or instance.
fn has_place(flat: &Parts) -> bool
    ensures { result ≡ nat_lt (place_count flat.now) most_places }
{
    flat.actors.len() < MOST_PLACES && flat.instances.len() < MOST_PLACES - flat.actors.len()
}

/// The parts, and one more actor.
pub(crate) fn put_actor(flat: Parts, actor: Actor) -> Result<Parts, ExpandFault>
    ensures { Answers result (take_in flat (actor_met actor)) }
{
    if !has_place(&flat) {
        return Err(ExpandFault::TooMany { at: actor.at });
    }
    let mut flat = flat;
    flat.actors.push(actor)?;
    Ok(flat)
}

/// The parts, and one more instance.
pub(crate) fn put_instance(flat: Parts, instance: Instance) -> Result<Parts, ExpandFault>
    ensures { Answers result (take_in flat (instance_met instance)) }
{
    if !has_place(&flat) {
        return Err(ExpandFault::TooMany { at: instance.at });
    }
    let mut flat = flat;
    flat.instances.push(instance)?;
    Ok(flat)
}

/// The parts, and one more join to a target.
pub(crate) fn put_feed(flat: Parts, feed: Feed) -> Result<Parts, ExpandFault>
    ensures { Answers result (take_in flat (feed_met feed)) }
{
    if flat.feeds.len() >= MOST_FEEDS {
        return Err(ExpandFault::TooMany { at: feed.at });
    }
    let mut flat = flat;
    flat.feeds.push(feed)?;
    Ok(flat)
}
