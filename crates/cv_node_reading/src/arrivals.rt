//! What the second reading makes of the letters that come.

use crate::beings::{Being, count, length};
use crate::letters::{Letter, Parcel, Says};
use crate::reading::{Answer, LIMIT, Reading};
use cv_protocol::{StepRefusal, Verdict};
use cv_token::{ActorId, AppId, ConnId};
use std::alloc::{AllocError, Global};

impl Reading {
    /// A live actor, to be changed.
    pub fn live_mut(&mut self, actor: ActorId) -> Option<&mut Being> {
        let place = self.being(actor)?;
        self.live.get_mut(place)
    }

    /// Takes a live actor out.
    pub fn leave(&mut self, actor: ActorId) -> Option<Being> {
        let place = self.being(actor)?;
        if place < self.live.len() {
            Some(self.live.remove(place))
        } else {
            None
        }
    }

    /// The actor lives here, in the order of the actors.
    pub fn settle(&mut self, being: Being) -> Result<(), AllocError> {
        let place = self.live.iter().filter(|other| other.id < being.id).count();
        self.live.insert(place.min(self.live.len()), being)?;
        Ok(())
    }

    pub fn set_hint(&mut self, actor: ActorId, attempt: u64, node: u16) -> Result<(), AllocError> {
        self.hints.retain(|hint| hint.0 != actor);
        let place = self.hints.iter().filter(|hint| hint.0 < actor).count();
        self.hints
            .insert(place.min(self.hints.len()), (actor, attempt, node))?;
        Ok(())
    }

    fn set_record(
        &mut self,
        actor: ActorId,
        attempt: u64,
        verdict: Option<Verdict>,
    ) -> Result<(), AllocError> {
        self.judged.retain(|record| record.0 != actor);
        self.judged.push((actor, attempt, verdict))?;
        Ok(())
    }

    /// A hint of a later attempt replaces the one that is kept; a frozen copy of an attempt of at most this one goes.
    pub fn raise(&mut self, actor: ActorId, attempt: u64, node: u16) -> Result<(), AllocError> {
        let later = match self.hint(actor) {
            Some((kept, _node)) => kept < attempt,
            None => true,
        };
        if later {
            self.set_hint(actor, attempt, node)?;
            for being in &mut self.live {
                being.rewind_towards(actor);
            }
        }
        let released = match self.frozen(actor) {
            Some(left) if left.attempt <= attempt => left.attempt,
            _ => return Ok(()),
        };
        self.release(actor);
        match self.record(actor) {
            Some((known, _verdict)) if released <= known => Ok(()),
            _ => self.set_record(actor, released, None),
        }
    }

    /// The frozen copy goes.
    fn release(&mut self, actor: ActorId) {
        self.left.retain(|left| left.parcel.being.id != actor);
    }

    /// The reader's tokens up to this number are acknowledged.
    pub fn ack(&mut self, producer: ActorId, conn: ConnId, upto: usize) {
        if let Some(being) = self.live_mut(producer) {
            if let Some(place) = being.way_of(conn) {
                being.ack(place, upto);
            }
        }
    }

    /// The same, and what follows is to be sent again where it begins with this number.
    fn nack(&mut self, producer: ActorId, conn: ConnId, upto: usize) {
        self.ack(producer, conn, upto);
        if let Some(being) = self.live_mut(producer) {
            if let Some(place) = being.way_of(conn) {
                being.rewind_at(place, upto);
            }
        }
    }

    /// The application is destroyed here.
    pub fn destroys(&mut self, app: AppId) -> Result<(), AllocError> {
        self.apps.retain(|known| known.0 != app);
        self.apps.push((app, true))?;
        self.live.retain(|being| being.id.app != app);
        Ok(())
    }

    /// A letter comes.
    pub fn deliver(&mut self, alloc: Global, letter: &Letter) -> Answer {
        if letter.to != self.no {
            return Err(StepRefusal::NotEnabled);
        }
        let says = self.takes(alloc, letter)?;
        self.stamp = self.stamp.max(letter.stamp);
        self.steps(alloc, says.map(|says| (letter.from, says)))
    }

    /// What is done about it, and what is answered.
    fn takes(&mut self, alloc: Global, letter: &Letter) -> Result<Option<Says>, StepRefusal> {
        match letter.says {
            Says::Token(conn, actor, n, token) => {
                return Ok(self.token_comes(conn, actor, length(n), token)?);
            }
            Says::Ack(conn, actor, upto) => self.ack(actor, conn, length(upto)),
            Says::Nack(conn, actor, upto) => self.nack(actor, conn, length(upto)),
            Says::Transfer(actor, attempt) => {
                let Some(parcel) = &letter.parcel else {
                    return Ok(None);
                };
                return Ok(self.transfer_comes(actor, attempt, parcel.copy(alloc)?)?);
            }
            Says::Verdict(actor, attempt, verdict) => {
                self.verdict_comes(alloc, actor, attempt, verdict)?;
            }
            Says::Cancel(actor, attempt) => {
                if attempt > self.last(actor) {
                    return Ok(Some(self.judges(actor, attempt, Verdict::Cancelled)?));
                }
                return Ok(self.old_attempt(actor, attempt));
            }
            Says::Located(actor, attempt, node) => {
                if attempt >= LIMIT {
                    return Err(StepRefusal::StampSpent);
                }
                self.raise(actor, attempt, node)?;
            }
            Says::Destroy(app) => self.destroys(app)?,
        }
        Ok(None)
    }

    fn token_comes(
        &mut self,
        conn: ConnId,
        actor: ActorId,
        n: usize,
        token: i64,
    ) -> Result<Option<Says>, AllocError> {
        let is_frozen = self.frozen(actor).is_some();
        let hint = self.hint(actor);
        let no = self.no;
        if let Some(being) = self.live_mut(actor) {
            if let Some((fed, producer)) = being.fed {
                if fed == conn {
                    let is_good = being.offer(n, token)?;
                    let upto = count(being.got.len());
                    if is_good {
                        return Ok(Some(Says::Ack(conn, producer, upto)));
                    }
                    return Ok(Some(Says::Nack(conn, producer, upto)));
                }
            }
        }
        match hint {
            Some((attempt, node)) if !is_frozen && node != no => {
                Ok(Some(Says::Located(actor, attempt, node)))
            }
            _ => Ok(None),
        }
    }

    /// The answer about an attempt that is not above all before.
    fn old_attempt(&self, actor: ActorId, attempt: u64) -> Option<Says> {
        if let Some((judged, Some(verdict))) = self.record(actor) {
            if judged == attempt {
                return Some(Says::Verdict(actor, attempt, verdict));
            }
        }
        match self.hint(actor) {
            Some((kept, node)) if attempt <= kept => Some(Says::Located(actor, kept, node)),
            _ => None,
        }
    }

    /// The verdict is kept and told.
    fn judges(
        &mut self,
        actor: ActorId,
        attempt: u64,
        verdict: Verdict,
    ) -> Result<Says, AllocError> {
        self.set_record(actor, attempt, Some(verdict))?;
        Ok(Says::Verdict(actor, attempt, verdict))
    }

    fn transfer_comes(
        &mut self,
        actor: ActorId,
        attempt: u64,
        parcel: Parcel,
    ) -> Result<Option<Says>, AllocError> {
        if attempt <= self.last(actor) {
            return Ok(self.old_attempt(actor, attempt));
        }
        if self.is_gone(actor.app) {
            return Ok(Some(self.judges(actor, attempt, Verdict::Gone)?));
        }
        if self.live.len() >= self.room {
            return Ok(Some(self.judges(actor, attempt, Verdict::Full)?));
        }
        let told = self.judges(actor, attempt, Verdict::Accepted)?;
        let Parcel { being, hints } = parcel;
        self.restore(being, attempt)?;
        self.raise(actor, attempt, self.no)?;
        for hint in &hints {
            self.raise(hint.0, hint.1, hint.2)?;
        }
        Ok(Some(told))
    }

    /// A travelling actor lives here.
    fn restore(&mut self, being: Being, attempt: u64) -> Result<(), AllocError> {
        let mut being = being;
        being.due = being.due.saturating_add(self.now);
        being.attempt = attempt;
        self.settle(being)
    }

    fn verdict_comes(
        &mut self,
        alloc: Global,
        actor: ActorId,
        attempt: u64,
        verdict: Verdict,
    ) -> Result<(), AllocError> {
        let Some(left) = self.frozen(actor) else {
            return Ok(());
        };
        if left.attempt != attempt {
            return Ok(());
        }
        if verdict == Verdict::Accepted {
            let target = left.target;
            return self.raise(actor, attempt, target);
        }
        let being = left.parcel.being.copy(alloc)?;
        self.release(actor);
        if self.is_gone(actor.app) {
            return Ok(());
        }
        self.restore(being, attempt)
    }
}
