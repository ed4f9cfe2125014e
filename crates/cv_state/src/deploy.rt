//! The row of an application that comes to live here.

ghost use Rattle.std.specs.Prelude.{◌≡◌, ◌<◌, ◌≤◌, ◌^◌, true, length, nat_lt, Some, IfErr, IfOk, OnOk, OnErr};
ghost use Rattle.std.specs.List.{list_all};
ghost use Rattle.cv_protocol.specs.declared.event.Sent.TheVariants as sent;
ghost use Rattle.cv_protocol.specs.NodeRow.{cause_of, row};
ghost use Rattle.cv_protocol.specs.Poll.{limit};
ghost use Rattle.cv_protocol.specs.Rows.{all_hinted, deployed_state, most_applications, next_app};
ghost use Rattle.cv_protocol.specs.Travel.{first_due};
ghost use Rattle.cv_state.specs.Deploying.{all_settled, are_due, new_lives};
ghost use Rattle.cv_state.specs.Steps.{LeadsTo, Refuses};
ghost use Rattle.cv_kinds.specs.Net.{most_actors, most_connections};

use crate::state::State;
use cv_actor::{LIMIT, Live};
use cv_behave::Behave;
use cv_kinds::{ActorSpec, Connection, Network};
use cv_protocol::{Event, Location, StepRefusal};
use cv_table::ActorTable;
use cv_token::{ActorId, AppId, OutOfMemory, Text};
use std::alloc::Global;
use std::collections::VecDeque;

/// How many applications are deployed at a node at most.
const MOST_APPLICATIONS: u16 = 4096;

/// Whether each actor's first moment is below the limit.
pub(crate) fn are_due(actors: &[ActorSpec], now: u64) -> bool
    requires { now < 2 ^ 62 }
    ensures { result ≡ are_due now actors.now }
{
    for actor in actors {
        if actor.kind.pause(&actor.args) >= LIMIT - now {
            return false;
        }
    }
    true
}

/// The application's actors at the start, in the order of their numbers.
fn new_lives(
    alloc: Global,
    app: AppId,
    actors: &[ActorSpec],
    connections: &[Connection],
    now: u64,
) -> Result<VecDeque<Live>, OutOfMemory>
    requires few_actors { length actors.now ≤ most_actors }
    requires few_connections { length connections.now ≤ most_connections }
    requires due { are_due now actors.now ≡ true }
    ensures { IfOk result (λ lives. lives.items ≡ new_lives app connections.now now 0 actors.now) }
{
    let mut lives = VecDeque::with_capacity(alloc, actors.len())?;
    for (place, actor) in actors.iter().enumerate() {
        let id = ActorId {
            app,
            actor: place as u16,
        };
        lives.push_back(Live::start(alloc, id, actor, connections, now)?)?;
    }
    Ok(lives)
}

/// These actors of the application live here, the first one as number 0. There is room for them.
fn settle(live: &mut ActorTable<Live>, app: AppId, lives: VecDeque<Live>)
    requires few { length lives.items ≤ most_actors }
    requires room { length lives.items ≤ live.old.spare }
    ensures { live.new.map ≡ all_settled app 0 lives.items live.old.map }
{
    let mut left = lives;
    for place in 0..left.len() {
        let Some(next) = left.pop_front() else {
            unreachable!()
        };
        let id = ActorId {
            app,
            actor: place as u16,
        };
        let Ok(_old) = live.insert(id, next) else {
            unreachable!()
        };
    }
}

/// These actors of the application are known to live at this node. There is room for their hints.
fn hint_all(hints: &mut ActorTable<Location>, app: AppId, node: u16, actors: &[ActorSpec])
    requires few { length actors.now ≤ most_actors }
    requires room { length actors.now ≤ hints.old.spare }
    ensures { hints.new.map ≡ all_hinted app node 0 actors.now hints.old.map }
{
    for (place, _actor) in actors.iter().enumerate() {
        let id = ActorId {
            app,
            actor: place as u16,
        };
        let Ok(_old) = hints.insert(id, Location { attempt: 0, node }) else {
            unreachable!()
        };
    }
}

impl State {
    /// Whether one application more may be deployed here.
    pub(crate) fn may_deploy(&self) -> bool
        ensures { result ≡ nat_lt self.now.known.deployed most_applications }
    {
        self.known.deployed() < MOST_APPLICATIONS
    }

    /// Whether the first moment of each actor of the network is below the limit.
    pub(crate) fn is_timely(&self, net: &Network) -> bool
        ensures { result ≡ are_due self.now.now net.now.actors }
    {
        are_due(net.actors(), self.moment)
    }

    /// The application that is deployed here next.
    fn next_app(&self) -> AppId
        ensures { result ≡ next_app self.now }
    {
        AppId {
            node: self.spec.no,
            seq: u32::from(self.known.deployed()) + 1,
        }
    }

    /// The application's actors live here, and no others of it do or are frozen here. Want of memory changes nothing.
    fn install(
        &mut self,
        alloc: Global,
        app: AppId,
        name: &Text,
        net: &Network,
    ) -> Result<(), OutOfMemory>
        requires due { are_due self.old.now net.now.actors ≡ true }
        requires number { self.old.known.deployed < most_applications }
        ensures ok { OnOk result (self.new ≡ deployed_state self.old name.now net.now app) }
        ensures err { OnErr result (self.new ≡ self.old) }
    {
        let actors = net.actors();
        let lives = new_lives(alloc, app, actors, net.connections(), self.moment)?;
        self.live.reserve(actors.len())?;
        self.hints.reserve(actors.len())?;
        self.known.deploy(alloc, app, name, net)?;
        self.live.drop_app(app);
        self.moves.drop_app(app);
        settle(&mut self.live, app, lives);
        hint_all(&mut self.hints, app, self.spec.no, actors);
        Ok(())
    }

    /// An application comes to live here, under the next number.
    pub fn deploy(&mut self, alloc: Global, name: &Text, net: &Network) -> Result<(), StepRefusal>
        ensures done { OnOk result (LeadsTo (row self.old (Event.Deploy name.now net.now)) self.new sent.Nothing) }
        ensures cause { IfErr result (Refuses (cause_of self.old (Event.Deploy name.now net.now))) }
        ensures err { OnErr result (self.new ≡ self.old) }
    {
        if !self.may_deploy() {
            return Err(StepRefusal::AppsSpent);
        }
        if !self.is_timely(net) {
            return Err(StepRefusal::StampSpent);
        }
        if self.is_spent() {
            return Err(StepRefusal::StampSpent);
        }
        self.install(alloc, self.next_app(), name, net)?;
        self.step_on();
        Ok(())
    }
}
