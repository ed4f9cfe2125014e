//! `Live`: an actor that lives at a node.

ghost use Rattle.std.specs.Prelude.{◌≡◌, ◌+◌, ◌^◌, ◌<◌, ◌≤◌, length, slice_get, if◌then◌else◌, true, IsTrue, IfOk, OnOk, OnErr, IfSome, IsSomeAnd};
ghost use Rattle.std.specs.Option.{option_copied, option_copied_mut, option_map};
ghost use Rattle.std.specs.Borrow.{sem};
ghost use Rattle.cv_protocol.specs.Poll.{look, Fires, poll, fired, row_at, all_outs_fit, live_fits};
ghost use Rattle.cv_protocol.specs.Rows.{any_feeds, any_is_read, inlet_at, seat_of, spot_of};
ghost use Rattle.cv_protocol.specs.NodeState.{rewound_towards};
ghost use Rattle.cv_protocol.specs.Travel.{capture, first_due, new_live, restore};
ghost use Rattle.cv_actor.specs.Ends.{spot_in};
ghost use Rattle.cv_actor.specs.Passing.{MayPass, can_pass, passed};
ghost use Rattle.cv_actor.specs.Polled.{seen, foreseen, peeked, IsNew};
ghost use Rattle.cv_kinds.specs.Net.{most_connections};

use crate::finding;
use crate::finding::Spot;
use crate::firing::{copied_heads, read, take_needed, write_given};
use crate::joined::{feeds_any, reads_any};
use crate::looking::{first_crowded, first_short, first_unread, guard_head};
use crate::making::{new_inlets, new_outs};
use crate::numbers::{LIMIT, all_fit_taken, all_outs_fit, have_numbers};
use crate::outlook::{Outlook, Sight};
use crate::passing::pass;
use crate::travel::{cancel_all, rewind_all, rewind_all_towards};
use cv_behave::{Behave, Effect};
use cv_kinds::{ActorSpec, Connection, Kind, Network, actions};
use cv_protocol::{ActorState, Hints, Inlet, Need, StateParts, copy_inlets, copy_outs};
use cv_queue::{InPort, OutPort};
use cv_token::{ActorId, ConnId, Items, OutOfMemory, Text, copy_items};
use std::alloc::Global;
use std::marker::Model;

/// A live actor. Contracts see it as a `LiveState`, which has the ports of its kind's row.
#[derive(Drop)]
pub struct Live {
    id: ActorId,
    spec: ActorSpec,
    slots: Items,
    due: u64,
    attempt: u64,
    ins: Vec<Option<Inlet>>,
    outs: Vec<OutPort>,
}

impl Model for Live {
    ghost use Rattle.std.specs.Prelude.{length};
    ghost use Rattle.cv_protocol.specs.Actors.{IsShaped, LiveState, live_code};

    ghost Value = { LiveState };

    ghost coded = { live_code };

    ghost view = { λ l. record {
      actor = record { id = l.id; spec = l.spec; slots = l.slots; ins = l.ins.items; outs = l.outs.items };
      due = l.due;
      attempt = l.attempt;
    } };

    ghost invariant = { λ l. IsShaped l.spec.kind (length l.ins.items) (length l.outs.items) };
}

impl Live {
    /// The actor's identifier.
    pub fn id(&self) -> ActorId
        ensures { result ≡ self.now.actor.id }
    {
        self.id
    }

    /// Its path from the root.
    pub fn path(&self) -> &Text
        ensures { result.now ≡ self.now.actor.spec.path }
    {
        &self.spec.path
    }

    /// Its kind.
    pub fn kind(&self) -> Kind
        ensures { result ≡ self.now.actor.spec.kind }
    {
        self.spec.kind
    }

    /// Its arguments, in the order of the kind's row.
    pub fn args(&self) -> &Items
        ensures { result.now ≡ self.now.actor.spec.args }
    {
        &self.spec.args
    }

    /// Its slots, in the order of the kind's row.
    pub fn slots(&self) -> &Items
        ensures { result.now ≡ self.now.actor.slots }
    {
        &self.slots
    }

    /// The moment from which its timed action may fire.
    pub fn due(&self) -> u64
        ensures { result ≡ self.now.due }
    {
        self.due
    }

    /// The attempt by which it came to live.
    pub fn attempt(&self) -> u64
        ensures { result ≡ self.now.attempt }
    {
        self.attempt
    }
}

impl Live {
    /// The actor of that number of a network at the start. The moment and its pause are below 2^62 together.
    pub fn new(alloc: Global, id: ActorId, net: &Network, now: u64) -> Result<Live, OutOfMemory>
        requires { IsSomeAnd (slice_get net.now.actors id.actor) (λ spec. first_due spec now < 2 ^ 62) }
        ensures { IfOk result (λ live. IfSome (slice_get net.now.actors id.actor) (IsNew live id net.now now)) }
    {
        let Some(spec) = net.actors().get(usize::from(id.actor)) else {
            unreachable!()
        };
        Live::start(alloc, id, spec, net.connections(), now)
    }

    /// The actor of this specification at the start, in a network of these connections. The moment and its pause
    /// are below 2^62 together.
    pub fn start(
        alloc: Global,
        id: ActorId,
        spec: &ActorSpec,
        connections: &[Connection],
        now: u64,
    ) -> Result<Live, OutOfMemory>
        requires few { length connections.now ≤ most_connections }
        requires moment { first_due spec.now now < 2 ^ 62 }
        ensures { IfOk result (λ live. live ≡ new_live id.app connections.now id.actor spec.now now) }
    {
        let spec = spec.copy(alloc)?;
        let slots = spec.kind.start(alloc, &spec.args)?;
        let ins = new_inlets(alloc, id, connections, spec.kind.inports())?;
        let outs = new_outs(alloc, id, connections, spec.kind.outports())?;
        let due = now + spec.kind.pause(&spec.args);
        Ok(Live {
            id,
            spec,
            slots,
            due,
            attempt: 0,
            ins,
            outs,
        })
    }
}

impl Live {
    /// Its path, kind and arguments.
    fn spec(&self) -> &ActorSpec
        ensures { result.now ≡ self.now.actor.spec }
    {
        &self.spec
    }

    /// The inports, of which there are few.
    fn ins(&self) -> &[Option<Inlet>]
        ensures value { result.now ≡ self.now.actor.ins }
        ensures few { length result.now < 2 ^ 8 }
    {
        self.ins.as_slice()
    }

    /// The outports, of which there are few.
    fn outs(&self) -> &[OutPort]
        ensures value { result.now ≡ self.now.actor.outs }
        ensures few { length result.now < 2 ^ 8 }
    {
        self.outs.as_slice()
    }

    /// What is seen of an action: the first of what it lacks, the reading that comes first, or that it fires.
    pub fn sight(&self, now: u64, action: u8) -> Sight
        ensures { result ≡ seen (look self.now now action) }
    {
        if let Some(need) = first_short(&self.spec, action, self.ins()) {
            return Sight::Lacks(need);
        }
        if let Some(port) = first_unread(&self.spec, action, self.ins()) {
            return Sight::Reads(port, self.spec.kind.needs(&self.spec.args, action, port));
        }
        let head = guard_head(self.spec.kind, self.ins());
        if !self
            .spec
            .kind
            .guard(&self.spec.args, &self.slots, action, head)
        {
            return Sight::Lacks(Need::Guard);
        }
        if let Some(port) = first_crowded(self.spec.kind, action, self.outs()) {
            return Sight::Lacks(Need::Space(port));
        }
        if self.spec.kind.timed(action) && now < self.due {
            return Sight::Lacks(Need::Until(self.due));
        }
        Sight::Fires
    }

    /// What a poll at that moment would answer.
    pub fn outlook(&self, now: u64) -> Outlook
        ensures { result ≡ foreseen (poll self.now now) }
    {
        let mut lacks = [None; 4];
        for action in 0..actions(self.kind()) {
            match self.sight(now, action) {
                Sight::Lacks(need) => lacks[usize::from(action)] = Some(need),
                Sight::Reads(port, count) => return Outlook::Reads(port, count),
                Sight::Fires => return Outlook::Fires(action),
            }
        }
        Outlook::Waits(lacks)
    }

    /// Reads the first `count` tokens of an inport that holds so many.
    pub fn peek(&mut self, port: u8, count: u16)
        requires { IsSomeAnd (inlet_at self.old port) (λ i. count ≤ length i.port.held) }
        ensures { self.new ≡ peeked self.old port count }
    {
        read(&mut self.ins[usize::from(port)], count);
    }

    /// Fires the action: the needed tokens are taken, all other reads are given up, and the effect is written.
    /// Want of memory changes nothing.
    pub fn fire(&mut self, alloc: Global, now: u64, action: u8) -> Result<(), OutOfMemory>
        requires fires { look self.old now action ≡ Fires }
        requires moment { now + (row_at self.old).pause self.old.actor.spec.args < 2 ^ 62 }
        requires writable { all_outs_fit self.old.actor.outs ≡ true }
        ensures ok { OnOk result (self.new ≡ fired self.old now action) }
        ensures err { OnErr result (self.new ≡ self.old) }
    {
        let heads = copied_heads(alloc, &self.spec, action, self.ins.as_slice())?;
        let effect = self
            .spec
            .kind
            .effect(alloc, &self.spec.args, &self.slots, action, &heads)?;
        let Effect { state, out } = effect;
        self.slots = state;
        self.due = now + self.spec.kind.pause(&self.spec.args);
        take_needed(&self.spec, action, &mut self.ins);
        write_given(out, &mut self.outs);
        Ok(())
    }
}

impl Live {
    /// Whether all numbers of the actor are below 2^62 once the action fired at that moment.
    pub fn fits_firing(&self, now: u64, action: u8) -> bool
        requires fires { look self.now now action ≡ Fires }
        requires moment { now < 2 ^ 62 }
        ensures { result ≡ live_fits (fired self.now now action) }
    {
        let spec = self.spec();
        if spec.kind.pause(&spec.args) >= LIMIT - now || self.attempt() >= LIMIT {
            return false;
        }
        if !all_fit_taken(spec, action, self.ins()) {
            return false;
        }
        have_numbers(spec.kind, action, self.outs())
    }

    /// Whether a poll at that moment is allowed: the moment and the actor's pause are below 2^62 together, and each
    /// outport has a number for one token more.
    pub fn may_poll(&self, now: u64) -> bool
        ensures moment { IsTrue result → now + (row_at self.now).pause self.now.actor.spec.args < 2 ^ 62 }
        ensures writable { IsTrue result → all_outs_fit self.now.actor.outs ≡ true }
    {
        let spec = self.spec();
        now < LIMIT && spec.kind.pause(&spec.args) < LIMIT - now && all_outs_fit(self.outs())
    }

    /// The first reader of the connection, and where it stands.
    pub fn spot(&self, conn: ConnId) -> Option<Spot>
        ensures { result ≡ option_map spot_in (spot_of conn 0 self.now.actor.outs) }
    {
        finding::spot_of(conn, self.outs())
    }

    /// Whether that actor feeds this one, or reads from it.
    pub fn is_joined(&self, actor: ActorId) -> bool
        ensures { result ≡ (if any_feeds actor self.now.actor.ins then true else any_is_read actor self.now.actor.outs) }
    {
        feeds_any(actor, self.ins()) || reads_any(actor, self.outs())
    }

    /// The first inport that the connection feeds.
    pub fn seat(&self, conn: ConnId) -> Option<u8>
        ensures { result ≡ option_map (λ y. y.inp) (seat_of conn 0 self.now.actor.ins) }
    {
        finding::seat_of(conn, self.ins())
    }
}

impl Live {
    ghost use Rattle.cv_actor.specs.Lends.{LendsInPort, LendsOutPort};

    /// The inport of that number. None comes exactly where there is no such port or nothing feeds it.
    pub fn inp(&self, port: u8) -> Option<&InPort>
        ensures { option_copied result ≡ option_map (λ i. i.port) (inlet_at self.now port) }
    {
        match self.ins.get(usize::from(port)) {
            Some(Some(inlet)) => Some(&inlet.port),
            _ => None,
        }
    }

    /// Lends the inport of that number, which may be written; None as `inp`.
    pub fn inp_mut(&mut self, port: u8) -> Option<&mut InPort>
        ensures* writes_back { sem 𝓛 (LendsInPort self.entry port result) }
        ensures value { option_copied_mut result ≡ option_map (λ i. i.port) (inlet_at self.old port) }
    {
        match self.ins.get_mut(usize::from(port))? {
            Some(inlet) => Some(&mut inlet.port),
            None => None,
        }
    }

    /// The outport of that number. None comes exactly where there is no such port.
    pub fn out(&self, port: u8) -> Option<&OutPort>
        ensures { option_copied result ≡ slice_get self.now.actor.outs port }
    {
        self.outs.get(usize::from(port))
    }

    /// Lends the outport of that number, which may be written; None as `out`.
    pub fn out_mut(&mut self, port: u8) -> Option<&mut OutPort>
        ensures* writes_back { sem 𝓛 (LendsOutPort self.entry port result) }
        ensures value { option_copied_mut result ≡ slice_get self.old.actor.outs port }
    {
        self.outs.get_mut(usize::from(port))
    }

    /// Passes the reader's first token that is not acknowledged on to an inport of this actor. It answers false exactly
    /// where there is no such token or the inport is full; then nothing changes, as at want of memory.
    pub fn pass_self(
        &mut self,
        alloc: Global,
        out: u8,
        reader: u16,
        inp: u8,
    ) -> Result<bool, OutOfMemory>
        requires { MayPass reader (slice_get self.old.actor.outs out) (inlet_at self.old inp) }
        ensures answer { IfOk result (λ moved. moved ≡ can_pass reader (slice_get self.old.actor.outs out) (inlet_at self.old inp)) }
        ensures after { OnOk result (self.new ≡ passed self.old out reader inp (slice_get self.old.actor.outs out)) }
        ensures err { OnErr result (self.new ≡ self.old) }
    {
        pass(
            alloc,
            &mut self.outs[usize::from(out)],
            reader,
            &mut self.ins[usize::from(inp)],
        )
    }

    /// The connection that feeds the inport, and the actor at its other end; None as `inp`.
    pub fn feed(&self, port: u8) -> Option<(ConnId, ActorId)>
        ensures { result ≡ option_map (λ i. (i.conn, i.producer)) (inlet_at self.now port) }
    {
        match self.ins.get(usize::from(port)) {
            Some(Some(inlet)) => Some((inlet.conn, inlet.producer)),
            _ => None,
        }
    }
}

impl Live {
    /// An equal actor of its own.
    pub fn copy(&self, alloc: Global) -> Result<Live, OutOfMemory>
        ensures { IfOk result (λ live. live ≡ self.now) }
    {
        let spec = self.spec.copy(alloc)?;
        let slots = copy_items(alloc, &self.slots)?;
        let ins = copy_inlets(alloc, self.ins.as_slice())?;
        let outs = copy_outs(alloc, self.outs.as_slice())?;
        Ok(Live {
            id: self.id,
            spec,
            slots,
            due: self.due,
            attempt: self.attempt,
            ins,
            outs,
        })
    }

    /// What `capture` would give; nothing changes here.
    pub fn state(&self, alloc: Global, hints: Hints, now: u64) -> Result<ActorState, OutOfMemory>
        ensures { IfOk result (λ state. state ≡ capture self.now hints now) }
    {
        let live = self.copy(alloc)?;
        Ok(capture(live, hints, now))
    }

    /// What was sent to that actor and not acknowledged is to be sent again.
    pub fn rewind_towards(&mut self, actor: ActorId)
        ensures { self.new ≡ rewound_towards actor self.old }
    {
        rewind_all_towards(&mut self.outs, actor);
    }
}

/// What travels of a live actor: its tentative reads are given up, and what its readers have not acknowledged is to
/// be sent again. It takes no memory.
pub fn capture(live: Live, hints: Hints, now: u64) -> ActorState
    ensures { result ≡ capture live hints now }
{
    let Live {
        id,
        spec,
        slots,
        due,
        attempt: _attempt,
        mut ins,
        mut outs,
    } = live;
    cancel_all(&mut ins);
    rewind_all(&mut outs);
    ActorState::from_parts(StateParts {
        id,
        spec,
        slots,
        wait: due.saturating_sub(now),
        ins,
        outs,
        hints,
    })
}

/// The actor that travelled lives again, by this attempt; it waits as long as it still had to. It takes no memory.
pub fn restore(state: ActorState, attempt: u64, now: u64) -> Live
    requires { now + state.wait < 2 ^ 64 }
    ensures { result ≡ restore state attempt now }
{
    let StateParts {
        id,
        spec,
        slots,
        wait,
        ins,
        mut outs,
        hints: _hints,
    } = state.into_parts();
    rewind_all(&mut outs);
    Live {
        id,
        spec,
        slots,
        due: now + wait,
        attempt,
        ins,
        outs,
    }
}
