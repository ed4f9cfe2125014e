//! `Node`: a state with the journal that led to it.

ghost use Rattle.std.specs.Prelude.{◌≡◌, ℕ, ◌+◌, ◌-◌, ◌<◌, ◌≤◌, true, [], ◌∷◌, ◌++◌, length, slice_get, vec_len, vec_capacity, is_none, unwrap_or, IsOk, IfOk, IfErr, OnOk, OnErr};
ghost use Rattle.std.specs.List.{list_all};
ghost use Rattle.std.specs.Option.{option_copied, option_map};
ghost use Rattle.std.specs.FinMap as map;
ghost use Rattle.cv_protocol.specs.declared.refusal.StepRefusal.TheVariants as refusal;
ghost use Rattle.cv_protocol.specs.NodeState.{opening};
ghost use Rattle.cv_protocol.specs.NodeRow.{cause_of, row};
ghost use Rattle.cv_protocol.specs.Rows.{is_node, most_nodes, most_window};
ghost use Rattle.cv_state.specs.Leaving.{frozen_place};
ghost use Rattle.cv_state.specs.Opening.{opened};
ghost use Rattle.cv_state.specs.Steps.{LeadsTo, Refuses};
ghost use Rattle.cv_state.specs.Waking.{IsNextDue};
ghost use Rattle.cv_node.specs.Counts.{journal_length};
ghost use Rattle.cv_node.specs.Journalled.{IsReplay, MakesStep};
ghost use Rattle.cv_node.specs.Polls.{HasPolled, poll_cause};
ghost use Rattle.cv_node.specs.Seeing.{seen_actor};

use crate::seen::Seen;
use cv_actor::{Live, Outlook, Polled};
use cv_kinds::Network;
use cv_protocol::{Entry, Event, Journal, Location, Sent, StepRefusal};
use cv_rules::NodeSpec;
use cv_state::State;
use cv_token::{ActorId, AppId, OutOfMemory};
use http_server::Log;
use std::alloc::{AllocError, Global};
use std::marker::Model;

/// How many entries a journal holds at most; a growth past that is want of memory.
pub const JOURNAL_LENGTH: usize = 1 << 30;

/// A node. Contracts see the state that it began with, its state, its entries, and for how many more it has room; the state is what
/// the entries leave of the first one.
#[derive(Drop)]
pub struct Node {
    state: State,
    journal: Journal,
    /// How many entries more the journal has room for, made ahead.
    spare: u32,
    /// The state that the node began with, for proofs alone: it takes no memory. Where none is noted, it is a node that knows itself alone.
    noted: Log<State, u8>,
}

impl Model for Node {
    ghost use Rattle.std.specs.Prelude.{vec_len, vec_capacity};
    ghost use Rattle.cv_node.specs.Journalled.{Journalled, journalled_code, base_of, HasSpare, IsJournal};

    ghost Value = { Journalled };

    ghost coded = { journalled_code };

    ghost view = { λ n. record {
      base = base_of n.journal.spec n.noted.items;
      state = n.state;
      entries = n.journal.entries.items;
      spare = n.spare;
    } };

    ghost invariant = { λ n. IsJournal (base_of n.journal.spec n.noted.items) n.journal.spec n.state n.journal.entries.items × HasSpare n.spare (vec_len n.journal.entries) (vec_capacity n.journal.entries) };
}

impl Node {
    /// A node before its first entry.
    pub fn new(alloc: Global, spec: NodeSpec) -> Result<Node, OutOfMemory>
        requires number { (1 ≤ spec.no) × (spec.no ≤ most_nodes) }
        requires window { (1 ≤ spec.window) × (spec.window ≤ most_window) }
        ensures { IfOk result (λ node. node ≡ record { base = opening spec; state = opening spec; entries = []; spare = 0 }) }
    {
        let state = State::new(alloc, spec.copy(alloc)?)?;
        let journal = Journal {
            spec,
            dropped: 0,
            entries: Vec::new(alloc),
        };
        Ok(Node {
            state,
            journal,
            spare: 0,
            noted: Log::new(),
        })
    }

    /// A node before its first entry that opens with an application: the application is known by the name `run`, actor `a` is known to
    /// live at node `at[a]`, and those of this node live here.
    pub fn open(
        alloc: Global,
        spec: NodeSpec,
        app: AppId,
        net: &Network,
        at: &[u16],
    ) -> Result<Node, OutOfMemory>
        requires number { (1 ≤ spec.no) × (spec.no ≤ most_nodes) }
        requires window { (1 ≤ spec.window) × (spec.window ≤ most_window) }
        requires app { (app.seq ≡ 1) × (1 ≤ app.node) × (app.node ≤ most_nodes) }
        requires places { length at.now ≡ length net.now.actors }
        requires nodes { list_all is_node at.now ≡ true }
        ensures { IfOk result (λ node. node ≡ record { base = opened spec app net.now at.now; state = opened spec app net.now at.now; entries = []; spare = 0 }) }
    {
        let state = State::open(alloc, spec.copy(alloc)?, app, net, at)?;
        let noted = Log::new().and(&state, &0);
        let journal = Journal {
            spec,
            dropped: 0,
            entries: Vec::new(alloc),
        };
        Ok(Node {
            state,
            journal,
            spare: 0,
            noted,
        })
    }

    /// Does one row and appends its entry; tells the frames that it sends. A refused event changes nothing, and is answered with its
    /// cause; want of memory is told only where it has none, and of a Tick only where no room was made ahead.
    pub fn step(&mut self, alloc: Global, event: Event) -> Result<Sent, StepRefusal>
        ensures done { IfOk result (λ sent. MakesStep self.old event sent self.new) }
        ensures cause { IfErr result (Refuses (cause_of self.old.state event)) }
        ensures told { IfErr result (λ e. e ≡ unwrap_or (cause_of self.old.state event) refusal.OutOfMemory) }
        ensures ready { (moment : ℕ) → event ≡ Event.Tick moment → 0 < self.old.spare → IfErr result (λ e. cause_of self.old.state event ≡ Some e) }
        ensures err { OnErr result (self.new ≡ self.old) }
    {
        if make_room(&mut self.journal.entries, 1).is_err() {
            return Err(self.cause_or_memory(&event));
        }
        match apply(&mut self.state, alloc, &event) {
            Ok(sent) => {
                append(&mut self.journal.entries, self.state.stamp(), event);
                self.spare = self.spare.saturating_sub(1);
                Ok(sent)
            }
            Err(StepRefusal::OutOfMemory) => Err(self.cause_or_memory(&event)),
            Err(cause) => Err(cause),
        }
    }

    /// Makes room for so many entries, each of which uses one of it. While there is some, a Tick takes no memory.
    pub fn reserve(&mut self, n: u32) -> Result<(), OutOfMemory>
        ensures ok { OnOk result (n ≤ self.new.spare) }
        ensures kept { self.new ≡ record self.old { spare = self.new.spare } }
        ensures more { self.old.spare ≤ self.new.spare }
        ensures err { OnErr result (self.new ≡ self.old) }
        ensures had { n ≤ self.old.spare → IsOk result }
    {
        let more = n as usize;
        let left = JOURNAL_LENGTH.saturating_sub(self.journal.entries.len());
        if more > left {
            return Err(AllocError);
        }
        make_room(&mut self.journal.entries, more)?;
        self.spare = self.spare.max(n);
        Ok(())
    }

    /// How an event is refused for which memory was wanting: with its cause, where it has one.
    fn cause_or_memory(&self, event: &Event) -> StepRefusal
        ensures told { result ≡ unwrap_or (cause_of self.now.state event.now) refusal.OutOfMemory }
        ensures cause { Refuses (cause_of self.now.state event.now) result }
    {
        match self.state.cause(event) {
            Some(cause) => cause,
            None => StepRefusal::OutOfMemory,
        }
    }

    /// Whether the event would be refused for no cause but want of memory. It takes no memory.
    pub fn enabled(&self, event: &Event) -> bool
        ensures { result ≡ is_none (cause_of self.now.state event.now) }
    {
        self.state.cause(event).is_none()
    }

    /// Polls a live actor: its first action that lacks nothing fires, or an inport is read; where each action lacks something,
    /// nothing changes.
    pub fn poll(&mut self, alloc: Global, actor: ActorId) -> Result<Polled, StepRefusal>
        ensures done { IfOk result (λ polled. HasPolled self.old actor polled self.new) }
        ensures cause { IfErr result (Refuses (poll_cause self.old.state actor)) }
        ensures told { IfErr result (λ e. e ≡ unwrap_or (poll_cause self.old.state actor) refusal.OutOfMemory) }
        ensures err { OnErr result (self.new ≡ self.old) }
    {
        match self.state.outlook(actor)? {
            Outlook::Fires(action) => {
                self.step(alloc, Event::Fire { actor, action })?;
                Ok(Polled::Fired(action))
            }
            Outlook::Reads(port, _count) => {
                self.step(alloc, Event::Peek { actor, port })?;
                Ok(Polled::Held(port))
            }
            Outlook::Waits(lacks) => Ok(Polled::Waiting(lacks)),
        }
    }
}

impl Node {
    /// The moment.
    pub fn now(&self) -> u64
        ensures { result ≡ self.now.state.now }
    {
        self.state.now()
    }

    /// The live actor of that identifier.
    pub fn live(&self, actor: ActorId) -> Option<&Live>
        ensures { option_copied result ≡ map.get self.now.state.live actor }
    {
        self.state.live(actor)
    }

    /// Where the actor was made live, and by which attempt, as far as this node knows.
    pub fn hint(&self, actor: ActorId) -> Option<Location>
        ensures { result ≡ map.get self.now.state.hints actor }
    {
        self.state.hint(actor)
    }

    /// The live actor of that place in rising order, from 0.
    pub fn live_at(&self, place: u32) -> Option<ActorId>
        ensures { result ≡ slice_get (map.keys self.now.state.live) place }
    {
        self.state.live_at(place)
    }

    /// Where the node sees the actor; None exactly where it does not know it.
    pub fn known_actor(&self, actor: ActorId) -> Option<Seen>
        ensures { result ≡ seen_actor self.now.state actor }
    {
        let lives = self.state.live(actor).is_some();
        if !lives && self.state.is_frozen(actor) {
            return Some(Seen::Moving);
        }
        if self.state.is_gone(actor.app) {
            return None;
        }
        if lives {
            return Some(Seen::Live);
        }
        let hint = self.state.hint(actor)?;
        Some(Seen::Away(hint.node))
    }

    /// The frozen copy of that place by rising actor, from 0: its actor, attempt and target.
    pub fn frozen_at(&self, place: u32) -> Option<(ActorId, u64, u16)>
        ensures { result ≡ option_map frozen_place (slice_get (map.entries self.now.state.moves.frozen) place) }
    {
        self.state.frozen_at(place)
    }

    /// The least moment that an action of a live actor waits for first; None exactly where none waits for one.
    pub fn next_due(&self) -> Option<u64>
        ensures { IsNextDue self.now.state result }
    {
        self.state.next_due()
    }

    /// For how many entries more there is room, made ahead.
    pub fn spare(&self) -> u32
        ensures { result ≡ self.now.spare }
    {
        self.spare
    }

    /// The entries so far, with what the node is from the start.
    pub fn journal(&self) -> &Journal
        ensures entries { result.now.entries.items ≡ self.now.entries }
        ensures spec { result.now.spec ≡ self.now.base.spec }
        ensures replays { IsReplay self.now.base self.now.state self.now.entries }
        ensures room { self.now.spare ≤ journal_length - length self.now.entries }
    {
        &self.journal
    }

    /// The entries, with what the node is from the start.
    pub fn into_journal(self) -> Journal
        ensures entries { result.entries.items ≡ self.entries }
        ensures spec { result.spec ≡ self.base.spec }
        ensures replays { IsReplay self.base self.state self.entries }
    {
        self.journal
    }
}

/// Makes room for so many entries more.
fn make_room(entries: &mut Vec<Entry>, more: usize) -> Result<(), OutOfMemory>
    ensures items { entries.new.items ≡ entries.old.items }
    ensures len { vec_len entries.new ≡ vec_len entries.old }
    ensures capacity { vec_capacity entries.old ≤ vec_capacity entries.new }
    ensures ok { OnOk result (vec_len entries.new + more ≤ vec_capacity entries.new) }
    ensures had { vec_len entries.old + more ≤ vec_capacity entries.old → IsOk result }
{
    entries.reserve(more)
}

/// Appends an entry into the room that was made.
fn append(entries: &mut Vec<Entry>, stamp: u64, event: Event)
    requires room { vec_len entries.old < vec_capacity entries.old }
    ensures items { entries.new.items ≡ entries.old.items ++ record { stamp = stamp; event = event } ∷ [] }
    ensures len { vec_len entries.new ≡ vec_len entries.old + 1 }
    ensures capacity { vec_capacity entries.new ≡ vec_capacity entries.old }
{
    entries.push_reserved(Entry { stamp, event });
}

/// Does the row of the event, a Tick without memory.
fn apply(state: &mut State, alloc: Global, event: &Event) -> Result<Sent, StepRefusal>
    ensures done { IfOk result (λ sent. LeadsTo (row state.old event.now) state.new sent) }
    ensures cause { IfErr result (Refuses (cause_of state.old event.now)) }
    ensures tick { (moment : ℕ) → event.now ≡ Event.Tick moment → IfErr result (λ e. cause_of state.old event.now ≡ Some e) }
    ensures err { OnErr result (state.new ≡ state.old) }
{
    match event {
        Event::Tick { now } => {
            state.tick(*now)?;
            Ok(Sent::Nothing)
        }
        _ => state.apply(alloc, event),
    }
}
