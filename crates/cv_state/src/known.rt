//! `Known`: what a node knows of nodes, applications and connections.

ghost use Rattle.std.specs.Prelude.{◌≡◌, ◌<◌, ◌≤◌, length, slice_get, OnOk, OnErr, IfOk, is_some};
ghost use Rattle.std.specs.Option.{option_copied};
ghost use Rattle.std.specs.FinMap as map;
ghost use Rattle.cv_protocol.specs.Deliveries.{outs_noted};
ghost use Rattle.cv_protocol.specs.Rows.{producers_noted, most_applications};
ghost use Rattle.cv_state.specs.Deploying.{deployed_known, learned};
ghost use Rattle.cv_state.specs.Opening.{opened_known, own_count};
ghost use Rattle.cv_kinds.specs.Net.{most_connections};

use crate::noting::{count_readers, note_outs};
use cv_kinds::{Connection, Network};
use cv_protocol::Application;
use cv_queue::OutPort;
use cv_rules::Attrs;
use cv_table::{AppTable, ConnTable, NodeTable};
use cv_token::{ActorId, AppId, ConnId, OutOfMemory, Text};
use sqlite_items::Boxed;
use std::alloc::{AllocError, Global};
use std::marker::Model;

/// What a node knows: the nodes with their attributes, the applications and how many were deployed here, and the
/// producers of connections.
#[derive(Drop)]
pub struct Known {
    nodes: NodeTable<Attrs>,
    apps: AppTable<Application>,
    deployed: u16,
    producers: ConnTable<ActorId>,
}

impl Model for Known {
    ghost use Rattle.cv_protocol.specs.NodeState.{Known as KnownView, known_code};

    ghost Value = { KnownView };

    ghost coded = { known_code };

    ghost view = { λ k. record { nodes = k.nodes.map; apps = k.apps.map; deployed = k.deployed; producers = k.producers.map } };
}

/// The producers of the application's connections are known. There is room for them.
fn note_producers(producers: &mut ConnTable<ActorId>, app: AppId, connections: &[Connection])
    requires few { length connections.now ≤ most_connections }
    requires room { length connections.now ≤ producers.old.spare }
    ensures { producers.new.map ≡ producers_noted app 0 connections.now producers.old.map }
{
    for (place, connection) in connections.iter().enumerate() {
        let conn = ConnId {
            app,
            place: place as u16,
        };
        let producer = ActorId {
            app,
            actor: connection.from,
        };
        let Ok(_old) = producers.insert(conn, producer) else {
            unreachable!()
        };
    }
}

/// How often the node counts an application as deployed that it opens with.
fn own_count(app: AppId, no: u16) -> u16
    ensures { result ≡ own_count app no }
{
    if app.node == no { 1 } else { 0 }
}

impl Known {
    /// A node that knows itself alone, with these attributes.
    pub fn new(alloc: Global, no: u16, attrs: Attrs) -> Result<Known, OutOfMemory>
        ensures { IfOk result (λ known. known ≡ record {
          nodes = map.insert map.empty no attrs;
          apps = map.empty;
          deployed = 0;
          producers = map.empty;
        }) }
    {
        let mut nodes = NodeTable::new(alloc);
        nodes.insert(no, attrs)?;
        Ok(Known {
            nodes,
            apps: AppTable::new(alloc),
            deployed: 0,
            producers: ConnTable::new(alloc),
        })
    }

    /// Whether the node is known.
    pub fn knows(&self, node: u16) -> bool
        ensures { result ≡ is_some (map.get self.now.nodes node) }
    {
        self.nodes.get(node).is_some()
    }

    /// The attributes of a known node.
    pub fn attrs(&self, node: u16) -> Option<&Attrs>
        ensures { option_copied result ≡ map.get self.now.nodes node }
    {
        self.nodes.get(node)
    }

    /// An application that the node heard of.
    pub fn application(&self, app: AppId) -> Option<&Application>
        ensures { option_copied result ≡ map.get self.now.apps app }
    {
        self.apps.get(app)
    }

    /// How many applications were deployed here.
    pub fn deployed(&self) -> u16
        ensures { result ≡ self.now.deployed }
    {
        self.deployed
    }

    /// The producer of a connection.
    pub fn producer(&self, conn: ConnId) -> Option<ActorId>
        ensures { result ≡ map.get self.now.producers conn }
    {
        self.producers.get(conn).copied()
    }

    /// How many nodes are known.
    pub fn nodes(&self) -> usize
        ensures { result ≡ map.len self.now.nodes }
    {
        self.nodes.len()
    }

    /// The node of that place in rising order, from 0.
    pub fn node_at(&self, place: usize) -> Option<u16>
        ensures { result ≡ slice_get (map.keys self.now.nodes) place }
    {
        self.nodes.key_at(place)
    }

    /// The application is known with its name, its network and its connections. Want of memory changes nothing.
    fn learn(
        &mut self,
        alloc: Global,
        app: AppId,
        name: &Text,
        net: &Network,
    ) -> Result<(), OutOfMemory>
        ensures ok { OnOk result (self.new ≡ learned self.old app name.now net.now) }
        ensures err { OnErr result (self.new ≡ self.old) }
    {
        let connections = net.connections();
        let name = name.copy(alloc)?;
        let net = Boxed::new(alloc, net.copy(alloc)?)?;
        self.producers.reserve(connections.len())?;
        self.apps.insert(app, Application::Known { name, net })?;
        note_producers(&mut self.producers, app, connections);
        Ok(())
    }

    /// The application was deployed here. Want of memory changes nothing.
    pub fn deploy(
        &mut self,
        alloc: Global,
        app: AppId,
        name: &Text,
        net: &Network,
    ) -> Result<(), OutOfMemory>
        requires { self.old.deployed < most_applications }
        ensures ok { OnOk result (self.new ≡ deployed_known self.old app name.now net.now) }
        ensures err { OnErr result (self.new ≡ self.old) }
    {
        self.learn(alloc, app, name, net)?;
        self.deployed += 1;
        Ok(())
    }

    /// A node that knows itself, with these attributes, and the application, which the node that it names counts as deployed.
    pub fn open(
        alloc: Global,
        no: u16,
        attrs: Attrs,
        app: AppId,
        net: &Network,
    ) -> Result<Known, OutOfMemory>
        ensures { IfOk result (λ known. known ≡ opened_known no attrs app net.now) }
    {
        let mut known = Known::new(alloc, no, attrs)?;
        let name = Text::from_string(String::from_str(alloc, "run")?);
        known.learn(alloc, app, &name, net)?;
        known.deployed = own_count(app, no);
        Ok(known)
    }

    /// The node is known with these attributes.
    pub fn meet(&mut self, alloc: Global, node: u16, attrs: &Attrs) -> Result<(), OutOfMemory>
        ensures ok { OnOk result (self.new ≡ record self.old { nodes = map.insert self.old.nodes node attrs.now }) }
        ensures err { OnErr result (self.new ≡ self.old) }
    {
        let attrs = attrs.copy(alloc)?;
        self.nodes.insert(node, attrs)?;
        Ok(())
    }

    /// The connections of these outports are known to be the actor's. Want of memory changes nothing.
    pub fn note_outs(&mut self, actor: ActorId, outs: &[OutPort]) -> Result<(), OutOfMemory>
        ensures ok { OnOk result (self.new ≡ record self.old { producers = outs_noted actor outs.now self.old.producers }) }
        ensures err { OnErr result (self.new ≡ self.old) }
    {
        let Some(readers) = count_readers(outs) else {
            return Err(AllocError);
        };
        self.producers.reserve(readers)?;
        note_outs(&mut self.producers, actor, outs);
        Ok(())
    }

    /// The application is known to be destroyed. Want of memory changes nothing.
    pub fn destroy(&mut self, app: AppId) -> Result<(), OutOfMemory>
        ensures ok { OnOk result (self.new ≡ record self.old { apps = map.insert self.old.apps app Application.Destroyed }) }
        ensures err { OnErr result (self.new ≡ self.old) }
    {
        self.apps.insert(app, Application::Destroyed)?;
        Ok(())
    }
}
