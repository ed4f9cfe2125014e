//! Which connections touch each actor.

ghost use Rattle.std.specs.Prelude.{◌≡◌, ◌==◌, IfOk, OnOk, replicate, []};
ghost use Rattle.cv_solo.specs.Touching.{touches, AreTouching, IsNoted};

use cv_kinds::Connection;
use cv_token::OutOfMemory;
use std::alloc::Global;

/// Places of connections, in rising order.
pub(crate) type Places = sqlite_items::Items<usize>;

/// For each actor the places of the connections that lead to it or from it.
pub(crate) fn places_by_actor(
    alloc: Global,
    actors: usize,
    connections: &[Connection],
) -> Result<Vec<Places>, OutOfMemory>
    ensures { IfOk result (λ places. AreTouching places.items connections.now actors) }
{
    let mut places = no_places(alloc, actors)?;
    for (place, connection) in connections.iter().enumerate() {
        note(&mut places, connection, place)?;
    }
    Ok(places)
}

/// So many actors with no places.
fn no_places(alloc: Global, actors: usize) -> Result<Vec<Places>, OutOfMemory>
    ensures { IfOk result (λ places. places.items ≡ replicate actors []) }
{
    let mut places = Vec::with_capacity(alloc, actors)?;
    for _ in 0..actors {
        places.push(Places::new(alloc))?;
    }
    Ok(places)
}

/// Notes a connection's place for the actors that it touches.
fn note(places: &mut Vec<Places>, connection: &Connection, place: usize) -> Result<(), OutOfMemory>
    ensures { OnOk result (IsNoted (touches connection.now) place places.old.items places.new.items) }
{
    note_for(places, connection.to, place)?;
    if connection.from != connection.to {
        note_for(places, connection.from, place)?;
    }
    Ok(())
}

/// Notes a place for an actor, where there is one.
fn note_for(places: &mut Vec<Places>, actor: u16, place: usize) -> Result<(), OutOfMemory>
    ensures { OnOk result (IsNoted (λ other. actor == other) place places.old.items places.new.items) }
{
    let actor = actor as usize;
    if actor < places.len() {
        places[actor].push(place)?;
    }
    Ok(())
}
