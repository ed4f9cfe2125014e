//! Actors of the second reading: all tokens that ever came and were ever written, as lists without bound.

use cv_token::{ActorId, ConnId};
use std::alloc::{AllocError, Global};

/// How many tokens a port holds at most.
const PORT: usize = 4;

/// What an actor does.
#[derive(Clone, Copy, PartialEq, Eq)]
pub enum Does {
    /// It writes its number so many times.
    Writes,
    /// It writes rising numbers, one each time that its pause is over.
    Ticks,
    /// It writes each token that comes.
    Carries,
    /// It takes each token that comes.
    Prints,
}

/// A reader of an outport.
#[derive(Clone, Copy)]
pub struct Way {
    pub conn: ConnId,
    pub consumer: ActorId,
    pub acked: usize,
    pub sent: usize,
}

/// What an actor's one action lacks, or that it reads or fires.
#[derive(Clone, Copy, PartialEq, Eq)]
pub enum Look {
    Lacks,
    Until(u64),
    Reads,
    Fires,
}

/// An actor, wherever it is.
#[derive(Drop)]
pub struct Being {
    pub id: ActorId,
    pub does: Does,
    pub pause: u64,
    /// How many times it may still write, and what comes next.
    pub left: usize,
    pub next: i64,
    /// The moment from which it may write again; of a travelling actor, how long it still waits.
    pub due: u64,
    pub attempt: u64,
    /// Who feeds it, and by which connection.
    pub fed: Option<(ConnId, ActorId)>,
    pub got: Vec<i64>,
    pub took: usize,
    pub reads: bool,
    pub wrote: Vec<i64>,
    pub ways: Vec<Way>,
}

/// A length as frames tell it.
pub fn count(length: usize) -> u64 {
    u64::try_from(length).unwrap_or(u64::MAX)
}

/// A number of a frame as a length.
pub fn length(count: u64) -> usize {
    usize::try_from(count).unwrap_or(usize::MAX)
}

impl Being {
    /// An equal one.
    pub fn copy(&self, alloc: Global) -> Result<Being, AllocError> {
        let got = Vec::from_slice(alloc, self.got.as_slice())?;
        let wrote = Vec::from_slice(alloc, self.wrote.as_slice())?;
        let ways = Vec::from_slice(alloc, self.ways.as_slice())?;
        Ok(Being {
            id: self.id,
            does: self.does,
            pause: self.pause,
            left: self.left,
            next: self.next,
            due: self.due,
            attempt: self.attempt,
            fed: self.fed,
            got,
            took: self.took,
            reads: self.reads,
            wrote,
            ways,
        })
    }

    fn takes(&self) -> bool {
        self.does == Does::Carries || self.does == Does::Prints
    }

    fn counts(&self) -> bool {
        self.does == Does::Writes || self.does == Does::Ticks
    }

    fn gives(&self) -> bool {
        self.does != Does::Prints
    }

    /// Whether the outport has a place: what every reader acknowledged is gone, and without readers everything is.
    fn has_space(&self) -> bool {
        let least = self.ways.iter().map(|way| way.acked).min();
        match least {
            Some(least) => self.wrote.len() < least.saturating_add(PORT),
            None => true,
        }
    }

    /// Whether the inport has a place.
    pub fn has_room(&self) -> bool {
        self.got.len() < self.took.saturating_add(PORT)
    }

    /// What the action finds: tokens, reading, guard, space and time, in this order.
    pub fn look(&self, now: u64) -> Look {
        if self.takes() && self.got.len() <= self.took {
            return Look::Lacks;
        }
        if self.takes() && !self.reads {
            return Look::Reads;
        }
        if self.counts() && self.left == 0 || self.gives() && !self.has_space() {
            return Look::Lacks;
        }
        if self.does == Does::Ticks && now < self.due {
            return Look::Until(self.due);
        }
        Look::Fires
    }

    /// The action fires.
    pub fn fire(&mut self, now: u64) -> Result<(), AllocError> {
        let mut token = self.next;
        if self.takes() {
            if let Some(first) = self.got.get(self.took) {
                token = *first;
            }
            self.took = self.took.saturating_add(1);
            self.reads = false;
        }
        if self.does == Does::Ticks {
            self.next = self.next.saturating_add(1);
        }
        self.left = self.left.saturating_sub(1);
        if self.gives() {
            self.wrote.push(token)?;
        }
        self.due = now.saturating_add(self.pause);
        Ok(())
    }

    /// The place of the connection among the readers.
    pub fn way_of(&self, conn: ConnId) -> Option<usize> {
        self.ways.iter().position(|way| way.conn == conn)
    }

    /// Whether the connection feeds it.
    pub fn is_fed_by(&self, conn: ConnId) -> bool {
        match self.fed {
            Some((fed, _producer)) => fed == conn,
            None => false,
        }
    }

    /// Whether that actor feeds it or reads from it.
    pub fn is_joined(&self, actor: ActorId) -> bool {
        let feeds = match self.fed {
            Some((_conn, producer)) => producer == actor,
            None => false,
        };
        actor != self.id && (feeds || self.ways.iter().any(|way| way.consumer == actor))
    }

    /// The token is offered: whether it was taken, or had come before; else it comes too early or there is no place.
    pub fn offer(&mut self, n: usize, token: i64) -> Result<bool, AllocError> {
        if n < self.got.len() {
            return Ok(true);
        }
        if n > self.got.len() || !self.has_room() {
            return Ok(false);
        }
        self.got.push(token)?;
        Ok(true)
    }

    /// The reader's tokens up to this number are acknowledged, where that is news and they were written.
    pub fn ack(&mut self, place: usize, upto: usize) {
        let wrote = self.wrote.len();
        if let Some(way) = self.ways.get_mut(place) {
            if way.acked < upto && upto <= wrote {
                way.acked = upto;
                way.sent = way.sent.max(upto);
            }
        }
    }

    /// What the reader did not acknowledge is to be sent again.
    pub fn rewind(&mut self, place: usize) {
        if let Some(way) = self.ways.get_mut(place) {
            way.sent = way.acked;
        }
    }

    /// The same, where that begins with this number.
    pub fn rewind_at(&mut self, place: usize, from: usize) {
        if let Some(way) = self.ways.get_mut(place) {
            if way.acked == from {
                way.sent = from;
            }
        }
    }

    /// What no reader of that actor acknowledged is to be sent again.
    pub fn rewind_towards(&mut self, actor: ActorId) {
        for way in &mut self.ways {
            if way.consumer == actor {
                way.sent = way.acked;
            }
        }
    }

    /// It travels: reads are given up, and what was not acknowledged is to be sent again.
    pub fn settle(&mut self, now: u64) {
        self.reads = false;
        for way in &mut self.ways {
            way.sent = way.acked;
        }
        self.due = self.due.saturating_sub(now);
    }
}
