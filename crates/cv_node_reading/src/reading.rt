//! A second reading of the node table, plain and slow: one list for each thing that a node keeps.

use crate::beings::Being;
use crate::letters::{Known, Letter, Parcel, Says};
use cv_protocol::{StepRefusal, Verdict};
use cv_token::{ActorId, AppId, ConnId};
use std::alloc::{AllocError, Global};

/// The numbers of a node stay below this one.
pub const LIMIT: u64 = 1 << 62;

/// A frozen copy.
#[derive(Drop)]
pub struct Left {
    pub parcel: Parcel,
    pub attempt: u64,
    pub target: u16,
}

/// A node. Lists by actor are in the order of the actors.
#[derive(Drop)]
pub struct Reading {
    pub no: u16,
    pub room: usize,
    pub stamp: u64,
    pub now: u64,
    pub nodes: Vec<u16>,
    pub deployed: u32,
    /// The applications that are known, and whether each is destroyed.
    pub apps: Vec<(AppId, bool)>,
    pub live: Vec<Being>,
    pub left: Vec<Left>,
    pub judged: Vec<(ActorId, u64, Option<Verdict>)>,
    pub hints: Vec<Known>,
}

/// What a row answers.
pub type Answer = Result<Vec<Letter>, StepRefusal>;

/// Where an actor of an event is.
#[derive(Clone, Copy)]
enum Whereabouts {
    Here,
    Frozen,
    Absent,
}

impl Reading {
    /// A node that knows itself.
    pub fn new(alloc: Global, no: u16, room: usize) -> Result<Reading, AllocError> {
        let mut nodes = Vec::new(alloc);
        nodes.push(no)?;
        Ok(Reading {
            no,
            room,
            stamp: 0,
            now: 0,
            nodes,
            deployed: 0,
            apps: Vec::new(alloc),
            live: Vec::new(alloc),
            left: Vec::new(alloc),
            judged: Vec::new(alloc),
            hints: Vec::new(alloc),
        })
    }

    pub fn being(&self, actor: ActorId) -> Option<usize> {
        self.live.iter().position(|being| being.id == actor)
    }

    /// The frozen copy of the actor.
    pub fn frozen(&self, actor: ActorId) -> Option<&Left> {
        self.left.iter().find(|left| left.parcel.being.id == actor)
    }

    pub fn hint(&self, actor: ActorId) -> Option<(u64, u16)> {
        let found = self.hints.iter().find(|hint| hint.0 == actor)?;
        Some((found.1, found.2))
    }

    pub fn is_gone(&self, app: AppId) -> bool {
        self.apps.iter().any(|known| known.0 == app && known.1)
    }

    pub fn record(&self, actor: ActorId) -> Option<(u64, Option<Verdict>)> {
        let found = self.judged.iter().find(|record| record.0 == actor)?;
        Some((found.1, found.2))
    }

    /// The greatest attempt of the actor that is kept.
    pub fn last(&self, actor: ActorId) -> u64 {
        let mut last = 0;
        for being in &self.live {
            if being.id == actor {
                last = being.attempt.max(last);
            }
        }
        for left in &self.left {
            if left.parcel.being.id == actor {
                last = left.attempt.max(last);
            }
        }
        match self.record(actor) {
            Some((attempt, _verdict)) => attempt.max(last),
            None => last,
        }
    }

    fn place(&self, actor: ActorId) -> Whereabouts {
        if self.being(actor).is_some() {
            Whereabouts::Here
        } else if self.frozen(actor).is_some() {
            Whereabouts::Frozen
        } else {
            Whereabouts::Absent
        }
    }

    /// Whether a live or else a frozen actor here writes to the connection, and who reads it.
    pub fn writer(&self, conn: ConnId) -> Option<(ActorId, ActorId)> {
        for being in &self.live {
            if let Some(place) = being.way_of(conn) {
                return Some((being.id, being.ways.get(place)?.consumer));
            }
        }
        for left in &self.left {
            if let Some(place) = left.parcel.being.way_of(conn) {
                return Some((
                    left.parcel.being.id,
                    left.parcel.being.ways.get(place)?.consumer,
                ));
            }
        }
        None
    }

    /// Refuses an event of these actors, where one is absent, or else one is frozen.
    pub fn all_here(&self, actors: &[ActorId]) -> Result<(), StepRefusal> {
        let mut answer = Ok(());
        for actor in actors {
            match self.place(*actor) {
                Whereabouts::Absent => return Err(StepRefusal::NotHere),
                Whereabouts::Frozen => answer = Err(StepRefusal::Moving),
                Whereabouts::Here => {}
            }
        }
        answer
    }

    pub fn letter(&self, to: u16, says: Says) -> Letter {
        Letter {
            from: self.no,
            to,
            stamp: self.stamp,
            says,
            parcel: None,
        }
    }

    /// One more entry was made, which sends this.
    pub fn steps(&mut self, alloc: Global, sends: Option<(u16, Says)>) -> Answer {
        self.stamp = self.stamp.saturating_add(1);
        let mut letters = Vec::new(alloc);
        if let Some((to, says)) = sends {
            letters.push(self.letter(to, says))?;
        }
        Ok(letters)
    }
}
