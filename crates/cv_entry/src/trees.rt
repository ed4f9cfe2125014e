//! Token trees of events, entries and heads.

ghost use Rattle.std.specs.Prelude.{◌≡◌, ℕ, List, IfOk, [], ◌∷◌};
ghost use Rattle.cv_token.specs.declared.token.Token.TheVariants as tree;
ghost use Rattle.cv_protocol.specs.declared.event.Event.TheVariants as event;
ghost use Rattle.cv_frame.specs.Trees.{number, word, app_tree, actor_tree, conn_tree, frame_tree};
ghost use Rattle.cv_entry.specs.Trees.{attr_member, attrs_tree, event_tree, entry_tree, head_tree};

use cv_frame::trees::{actor_tree, app_tree, conn_tree, frame_tree, list, number, word};
use cv_kinds::Network;
use cv_network::network_token;
use cv_protocol::{Event, Frame};
use cv_rules::{Attrs, NodeSpec};
use cv_token::{ActorId, AppId, ConnId, OutOfMemory, Pair, PairsOf, Text, Token};
use sqlite_items::Items;
use std::alloc::Global;

/// A text under its key.
fn attr_member(alloc: Global, attr: &Pair<Text>) -> Result<Pair<Token>, OutOfMemory>
    ensures { IfOk result (λ p. p ≡ attr_member attr.now) }
{
    let key = attr.key.copy(alloc)?;
    let value = Token::Text(attr.value.copy(alloc)?);
    Ok(Pair { key, value })
}

/// The attributes of a node.
pub(crate) fn attrs_tree(alloc: Global, attrs: &Attrs) -> Result<Token, OutOfMemory>
    ensures { IfOk result (λ t. t ≡ attrs_tree attrs.now) }
{
    let mut members = Items::new(alloc);
    for attr in attrs.as_slice() {
        members.push(attr_member(alloc, attr)?)?;
    }
    Ok(Token::Dict(PairsOf::from_items(members)))
}

fn meet_tree(alloc: Global, node: u16, attrs: &Attrs) -> Result<Token, OutOfMemory>
    ensures { IfOk result (λ t. t ≡ event_tree (event.Meet node attrs.now)) }
{
    let name = word(alloc, "meet")?;
    let attrs = attrs_tree(alloc, attrs)?;
    Ok(list(vec![in alloc; name, number(u64::from(node)), attrs]?))
}

fn deploy_tree(alloc: Global, name: &Text, net: &Network) -> Result<Token, OutOfMemory>
    ensures { IfOk result (λ t. t ≡ event_tree (event.Deploy name.now net.now)) }
{
    let event = word(alloc, "deploy")?;
    let name = Token::Text(name.copy(alloc)?);
    let net = network_token(alloc, net)?;
    Ok(list(vec![in alloc; event, name, net]?))
}

fn tick_tree(alloc: Global, now: u64) -> Result<Token, OutOfMemory>
    ensures { IfOk result (λ t. t ≡ event_tree (event.Tick now)) }
{
    Ok(list(vec![in alloc; word(alloc, "tick")?, number(now)]?))
}

/// An event of an actor alone.
fn of_actor(alloc: Global, name: &str, actor: ActorId) -> Result<Token, OutOfMemory>
    ensures { IfOk result (λ t. t ≡ tree.List (word name.now ∷ actor_tree actor ∷ [])) }
{
    let name = word(alloc, name)?;
    let actor = actor_tree(alloc, actor)?;
    Ok(list(vec![in alloc; name, actor]?))
}

/// An event of an actor and a number.
fn of_place(alloc: Global, name: &str, actor: ActorId, n: u64) -> Result<Token, OutOfMemory>
    ensures { IfOk result (λ t. t ≡ tree.List (word name.now ∷ actor_tree actor ∷ number n ∷ [])) }
{
    let name = word(alloc, name)?;
    let actor = actor_tree(alloc, actor)?;
    Ok(list(vec![in alloc; name, actor, number(n)]?))
}

/// An event of a connection.
fn of_conn(alloc: Global, name: &str, conn: ConnId) -> Result<Token, OutOfMemory>
    ensures { IfOk result (λ t. t ≡ tree.List (word name.now ∷ conn_tree conn ∷ [])) }
{
    let name = word(alloc, name)?;
    let conn = conn_tree(alloc, conn)?;
    Ok(list(vec![in alloc; name, conn]?))
}

/// An event of a frame.
fn of_frame(alloc: Global, name: &str, frame: &Frame) -> Result<Token, OutOfMemory>
    ensures { IfOk result (λ t. t ≡ tree.List (word name.now ∷ frame_tree frame.now ∷ [])) }
{
    let name = word(alloc, name)?;
    let frame = frame_tree(alloc, frame)?;
    Ok(list(vec![in alloc; name, frame]?))
}

fn hint_tree(alloc: Global, actor: ActorId, attempt: u64, node: u16) -> Result<Token, OutOfMemory>
    ensures { IfOk result (λ t. t ≡ event_tree (event.Hint actor attempt node)) }
{
    let name = word(alloc, "hint")?;
    let actor = actor_tree(alloc, actor)?;
    Ok(list(vec![in alloc; name, actor, number(attempt), number(u64::from(node))]?))
}

fn destroy_tree(alloc: Global, app: AppId) -> Result<Token, OutOfMemory>
    ensures { IfOk result (λ t. t ≡ event_tree (event.Destroy app)) }
{
    let name = word(alloc, "destroy")?;
    let app = app_tree(alloc, app)?;
    Ok(list(vec![in alloc; name, app]?))
}

fn event_tree(alloc: Global, event: &Event) -> Result<Token, OutOfMemory>
    ensures { IfOk result (λ t. t ≡ event_tree event.now) }
{
    match event {
        Event::Meet { node, attrs } => meet_tree(alloc, *node, attrs),
        Event::Deploy { name, net } => deploy_tree(alloc, name, net.get()),
        Event::Tick { now } => tick_tree(alloc, *now),
        Event::Peek { actor, port } => of_place(alloc, "peek", *actor, u64::from(*port)),
        Event::Fire { actor, action } => of_place(alloc, "fire", *actor, u64::from(*action)),
        Event::Pass { conn } => of_conn(alloc, "pass", *conn),
        Event::Send { conn } => of_conn(alloc, "send", *conn),
        Event::Rewind { conn } => of_conn(alloc, "rewind", *conn),
        Event::Freeze { actor, to } => of_place(alloc, "freeze", *actor, u64::from(*to)),
        Event::Resend { actor } => of_actor(alloc, "resend", *actor),
        Event::Withdraw { actor } => of_actor(alloc, "withdraw", *actor),
        Event::Hint {
            actor,
            attempt,
            node,
        } => hint_tree(alloc, *actor, *attempt, *node),
        Event::Destroy { app } => destroy_tree(alloc, *app),
        Event::Lose { frame } => of_frame(alloc, "lose", frame),
        Event::Deliver { frame } => of_frame(alloc, "deliver", frame),
    }
}

/// The token tree of an entry.
pub(crate) fn entry_tree(alloc: Global, stamp: u64, event: &Event) -> Result<Token, OutOfMemory>
    ensures { IfOk result (λ t. t ≡ entry_tree (record { stamp = stamp; event = event.now })) }
{
    let event = event_tree(alloc, event)?;
    Ok(list(vec![in alloc; number(stamp), event]?))
}

/// The token tree of what stands before a journal's entries.
pub(crate) fn head_tree(alloc: Global, spec: &NodeSpec, dropped: u64) -> Result<Token, OutOfMemory>
    ensures { IfOk result (λ t. t ≡ head_tree (record { spec = spec.now; dropped = dropped })) }
{
    let name = word(alloc, "node")?;
    let no = number(u64::from(spec.no));
    let room = number(u64::from(spec.room));
    let window = number(u64::from(spec.window));
    let attrs = attrs_tree(alloc, &spec.attrs)?;
    Ok(list(vec![in alloc; name, no, room, window, attrs, number(dropped)]?))
}
