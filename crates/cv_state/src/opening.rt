//! A node that opens with the actors of an application in their places.

ghost use Rattle.std.specs.Prelude.{◌≡◌, ◌≤◌, true, length, IfOk};
ghost use Rattle.std.specs.FinMap as map;
ghost use Rattle.cv_state.specs.Deploying.{are_due};
ghost use Rattle.cv_state.specs.Opening.{all_located, all_placed, opened};
ghost use Rattle.cv_kinds.specs.Net.{most_actors};

use crate::deploy::are_due;
use crate::known::Known;
use crate::moves::Moves;
use crate::state::State;
use cv_actor::Live;
use cv_kinds::Network;
use cv_protocol::Location;
use cv_rules::NodeSpec;
use cv_table::ActorTable;
use cv_token::{ActorId, AppId, OutOfMemory};
use std::alloc::{AllocError, Global};

/// The actors whose place is that node, at their start.
fn start_placed(
    alloc: Global,
    app: AppId,
    net: &Network,
    at: &[u16],
    no: u16,
) -> Result<ActorTable<Live>, OutOfMemory>
    requires places { length at.now ≡ length net.now.actors }
    requires due { are_due 0 net.now.actors ≡ true }
    ensures { IfOk result (λ live. live.map ≡ all_placed app net.now.connections no 0 net.now.actors at.now map.empty) }
{
    let mut live = ActorTable::new(alloc);
    for (place, spec) in net.actors().iter().enumerate() {
        if at[place] == no {
            let id = ActorId {
                app,
                actor: place as u16,
            };
            let actor = Live::start(alloc, id, spec, net.connections(), 0)?;
            live.insert(id, actor)?;
        }
    }
    Ok(live)
}

/// The hint of each actor at its place, by the attempt 0.
fn hint_homes(alloc: Global, app: AppId, at: &[u16]) -> Result<ActorTable<Location>, OutOfMemory>
    requires few { length at.now ≤ most_actors }
    ensures { IfOk result (λ hints. hints.map ≡ all_located app 0 at.now map.empty) }
{
    let mut hints = ActorTable::new(alloc);
    for (place, node) in at.iter().enumerate() {
        let id = ActorId {
            app,
            actor: place as u16,
        };
        let hint = Location {
            attempt: 0,
            node: *node,
        };
        hints.insert(id, hint)?;
    }
    Ok(hints)
}

impl State {
    /// A node before its first entry that opens with the application: actor `a` lives at node `at[a]`, and where that is this one, it
    /// lives here. An application with an actor whose first moment is past every moment counts as want of memory.
    pub fn open(
        alloc: Global,
        spec: NodeSpec,
        app: AppId,
        net: &Network,
        at: &[u16],
    ) -> Result<State, OutOfMemory>
        requires places { length at.now ≡ length net.now.actors }
        ensures { IfOk result (λ state. state ≡ opened spec app net.now at.now) }
    {
        if !are_due(net.actors(), 0) {
            return Err(AllocError);
        }
        let attrs = spec.attrs.copy(alloc)?;
        let known = Known::open(alloc, spec.no, attrs, app, net)?;
        let live = start_placed(alloc, app, net, at, spec.no)?;
        let hints = hint_homes(alloc, app, at)?;
        Ok(State {
            spec,
            stamp: 0,
            moment: 0,
            known,
            live,
            moves: Moves::new(alloc),
            hints,
        })
    }
}
