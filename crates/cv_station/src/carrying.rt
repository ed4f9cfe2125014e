//! Tokens are carried over the connections of the live actors: passed to a consumer that lives here too, or sent.

ghost use Rattle.std.specs.Prelude.{is_err};
ghost use Rattle.cv_station.specs.Going.{Goes};

use crate::station::Station;
use cv_protocol::Event;
use cv_queue::Reader;
use cv_token::{ActorId, ConnId, OutOfMemory};
use std::alloc::Global;

/// How many tokens of a connection may be on their way at most.
const MOST_WINDOW: u32 = 64;

impl Station {
    /// How many readers that outport of a live actor has; None where there is no such port.
    fn readers(&self, actor: ActorId, port: u8) -> Option<u16> {
        let out = self.node.live(actor)?.out(port)?;
        Some(out.readers())
    }

    /// How many of its tokens a reader needs no more: those that a consumer which lives here has acknowledged, or those that were sent.
    fn count_served(&self, reader: &Reader) -> u64 {
        if self.node.live(reader.consumer).is_some() {
            reader.acked
        } else {
            reader.sent
        }
    }

    /// The reader at that place of a live actor's outport, where the port has a token to carry to it.
    fn unserved_at(&self, actor: ActorId, port: u8, place: u16) -> Option<Reader> {
        let out = self.node.live(actor)?.out(port)?;
        let reader = out.reader(place)?;
        if self.count_served(&reader) < out.count(place) {
            Some(reader)
        } else {
            None
        }
    }

    /// Sends tokens of the connection until none can be sent.
    #[tactic(auto, using(crate::proofs::Goes::goes_none, crate::proofs::Goes::goes_then))]
    fn send(&mut self, alloc: Global, conn: ConnId, most: usize) -> Result<(), OutOfMemory>
        ensures { Goes most self.old (is_err result) self.new }
    {
        for _token in 0..MOST_WINDOW {
            if !self.act(alloc, Event::Send { conn }, most)? {
                return Ok(());
            }
        }
        Ok(())
    }

    /// Passes a token to the reader where it lives here, and sends tokens to it where it does not.
    #[tactic(auto, using(crate::proofs::Goes::goes_none, crate::proofs::Goes::goes_then))]
    fn carry(&mut self, alloc: Global, reader: Reader, most: usize) -> Result<(), OutOfMemory>
        ensures { Goes most self.old (is_err result) self.new }
    {
        let conn = reader.conn;
        if self.node.live(reader.consumer).is_none() {
            return self.send(alloc, conn, most);
        }
        self.act(alloc, Event::Pass { conn }, most)?;
        Ok(())
    }

    /// Carries tokens from an outport to its readers, of which there are so many.
    #[tactic(auto, using(crate::proofs::Goes::goes_none, crate::proofs::Goes::goes_then))]
    fn carry_port(
        &mut self,
        alloc: Global,
        actor: ActorId,
        port: u8,
        readers: u16,
        most: usize,
    ) -> Result<(), OutOfMemory>
        ensures { Goes most self.old (is_err result) self.new }
    {
        for place in 0..readers {
            if let Some(reader) = self.unserved_at(actor, port, place) {
                self.carry(alloc, reader, most)?;
            }
        }
        Ok(())
    }

    /// Carries tokens from all outports of an actor.
    #[tactic(auto, using(crate::proofs::Goes::goes_none, crate::proofs::Goes::goes_then))]
    fn carry_from(&mut self, alloc: Global, actor: ActorId, most: usize) -> Result<(), OutOfMemory>
        ensures { Goes most self.old (is_err result) self.new }
    {
        for port in 0..u8::MAX {
            let Some(readers) = self.readers(actor, port) else {
                return Ok(());
            };
            self.carry_port(alloc, actor, port, readers, most)?;
        }
        Ok(())
    }

    /// Carries tokens from all live actors.
    #[tactic(auto, using(crate::proofs::Goes::goes_none, crate::proofs::Goes::goes_then))]
    pub(crate) fn carry_all(&mut self, alloc: Global, most: usize) -> Result<(), OutOfMemory>
        ensures { Goes most self.old (is_err result) self.new }
    {
        for place in 0..u32::MAX {
            let Some(actor) = self.node.live_at(place) else {
                return Ok(());
            };
            self.carry_from(alloc, actor, most)?;
        }
        Ok(())
    }
}
