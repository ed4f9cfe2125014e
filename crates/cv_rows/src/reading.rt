//! A second reading of what a run means, plain and slow: what was written to each connection as a list without bound, and
//! one recorded step after the other.

use std::alloc::{AllocError, Global};
use std::fmt::Write;

/// How many tokens a port holds at most.
const PORT: usize = 4;

/// An actor: its name, and how many times it may still write where it is a constant; a number below 0 never falls.
#[derive(Drop)]
pub struct Actor {
    pub name: &'static str,
    left: i64,
}

impl Actor {
    pub fn is_constant(&self) -> bool {
        self.name.starts_with('c')
    }

    pub fn is_print(&self) -> bool {
        self.name.starts_with('p') || self.name.starts_with('P')
    }
}

/// A connection between two actors, told by their places: the tokens written to it, those of them that came into the
/// inport, and those that were taken there. A constant writes its own place.
#[derive(Drop)]
struct Wire {
    from: usize,
    to: usize,
    wrote: Vec<usize>,
    got: Vec<usize>,
    took: Vec<usize>,
}

impl Wire {
    fn new(alloc: Global, from: usize, to: usize) -> Wire {
        Wire {
            from,
            to,
            wrote: Vec::new(alloc),
            got: Vec::new(alloc),
            took: Vec::new(alloc),
        }
    }

    /// Whether a token can move into the inport: one was written that did not come, and there is room.
    fn can_pass(&self) -> bool {
        self.got.len() < self.wrote.len() && self.got.len() < self.took.len() + PORT
    }

    /// Whether the ports let the actor fire: a token has come to its inport, and there is room in its outport.
    fn lets_fire(&self, actor: usize) -> bool {
        (self.to != actor || self.took.len() < self.got.len())
            && (self.from != actor || self.wrote.len() < self.got.len() + PORT)
    }

    /// The oldest token that was written and not taken.
    fn next(&self) -> Option<usize> {
        self.wrote.get(self.took.len()).copied()
    }
}

/// A network with what happened so far: its wires in the order of their consumers, and the actors that fired.
#[derive(Drop)]
pub struct Reading {
    pub actors: Vec<Actor>,
    wires: Vec<Wire>,
    pub fired: Vec<usize>,
}

impl Reading {
    /// The network before anything happened, with constants that write `n` times.
    pub fn of(
        alloc: Global,
        names: &'static str,
        joins: &str,
        n: i64,
    ) -> Result<Reading, AllocError> {
        let mut actors = Vec::new(alloc);
        for name in names.split(' ') {
            if !name.is_empty() {
                actors.push(Actor { name, left: n })?;
            }
        }
        let mut wires = Vec::new(alloc);
        for to in 0..actors.len() {
            if let Some(from) = producer_of(actors.as_slice(), joins, to) {
                wires.push(Wire::new(alloc, from, to))?;
            }
        }
        let fired = Vec::new(alloc);
        Ok(Reading {
            actors,
            wires,
            fired,
        })
    }

    /// Whether the one runtime allows the actor to fire: tokens wait on its wires, and a constant has some left.
    pub fn allows(&self, place: usize) -> bool {
        let wait = self
            .wires
            .iter()
            .all(|wire| wire.to != place || wire.next().is_some());
        match self.actors.get(place) {
            Some(actor) => wait && (actor.left != 0 || !actor.is_constant()),
            None => false,
        }
    }

    /// Whether the actor can fire: it is allowed to, and its ports have tokens and room.
    pub fn can_fire(&self, place: usize) -> bool {
        self.allows(place) && self.wires.iter().all(|wire| wire.lets_fire(place))
    }

    /// Whether nothing can fire and no token can move.
    pub fn is_quiet(&self) -> bool {
        !self.wires.iter().any(|wire| wire.can_pass())
            && !(0..self.actors.len()).any(|place| self.can_fire(place))
    }

    /// Moves a token over the wire at a place, and tells whether one can move.
    pub fn pass(&mut self, place: usize) -> Result<bool, AllocError> {
        let Some(wire) = self.wires.get_mut(place) else {
            return Ok(false)
        };
        let moves = wire.can_pass();
        if let Some(token) = wire.wrote.get(wire.got.len()).copied() {
            wire.got.push(token)?;
        }
        Ok(moves)
    }

    /// Fires the actor as the one runtime does: it takes a token from each wire to it, and writes one to each from it.
    pub fn fire(&mut self, place: usize) -> Result<(), AllocError> {
        if let Some(actor) = self.actors.get_mut(place) {
            actor.left -= i64::from(actor.left > 0);
        }
        let token = self.take(place)?.unwrap_or(place);
        for wire in &mut self.wires {
            if wire.from == place {
                wire.wrote.push(token)?;
            }
        }
        self.fired.push(place)?;
        Ok(())
    }

    /// Takes a token from each wire to the actor.
    fn take(&mut self, place: usize) -> Result<Option<usize>, AllocError> {
        let mut taken = None;
        for wire in &mut self.wires {
            if wire.to == place {
                taken = wire.next();
                if let Some(token) = taken {
                    wire.took.push(token)?;
                }
            }
        }
        Ok(taken)
    }

    /// The text that the prints have printed, the number of firings, and the end.
    pub fn text(&self, alloc: Global, end: &str) -> Result<String, AllocError> {
        let mut prints = Vec::new(alloc);
        for (place, actor) in self.actors.iter().enumerate() {
            if actor.is_print() {
                prints.push((actor.name, place))?;
            }
        }
        prints.sort()?;
        let mut text = String::new(alloc);
        for (path, place) in &prints {
            self.write_lines(&mut text, path, *place)?;
        }
        let firings = self.fired.len();
        write!(text, "firings {firings}\nend {end}\n")?;
        Ok(text)
    }

    /// A line for each token that the actor took.
    fn write_lines(&self, text: &mut String, path: &str, place: usize) -> Result<(), AllocError> {
        for wire in &self.wires {
            if wire.to == place {
                for token in &wire.took {
                    write!(text, "{path} {token}\n")?;
                }
            }
        }
        Ok(())
    }
}

/// The place of the actor of a name.
fn place_of(actors: &[Actor], name: &str) -> Option<usize> {
    actors.iter().position(|actor| actor.name == name)
}

/// The place of the actor whose outport is joined to the inport of the one at `to`.
fn producer_of(actors: &[Actor], joins: &str, to: usize) -> Option<usize> {
    for join in joins.split(' ') {
        if let Some((producer, consumer)) = join.split_once('>') {
            if place_of(actors, consumer) == Some(to) {
                return place_of(actors, producer);
            }
        }
    }
    None
}
