//! Token trees of what travels.

ghost use Rattle.std.specs.Prelude.{◌≡◌, IfOk, [], ◌∷◌, map, take, codes};
ghost use Rattle.cv_token.specs.declared.token.Token.TheVariants as tree;
ghost use Rattle.cv_frame.specs.Trees.{number, word, app_tree, actor_tree, conn_tree, inlet_tree, reader_tree, most_readers, out_tree, hint_tree, state_tree, verdict_number, body_tree, member, frame_tree};

use cv_kinds::name;
use cv_protocol::{ActorState, Body, Frame, Hint, Inlet, Verdict};
use cv_queue::{InPort, OutPort, Reader};
use cv_token::{
    ActorId, AppId, ConnId, Items, OutOfMemory, Pair, PairsOf, Text, Token, copy_items,
};
use std::alloc::Global;

/// A number; those that travel are below 2^62.
pub fn number(n: u64) -> Token
    ensures { result ≡ number n }
{
    Token::Int(n.min(i64::MAX as u64) as i64)
}

/// A word.
pub fn word(alloc: Global, text: &str) -> Result<Token, OutOfMemory>
    ensures { IfOk result (λ t. t ≡ word text.now) }
{
    Ok(Token::Text(Text::from_string(String::from_str(alloc, text)?)))
}

/// A list of these parts.
pub fn list(parts: Vec<Token>) -> Token
    ensures { result ≡ tree.List parts.items }
{
    Token::List(Items::from_vec(parts))
}

/// `[node,seq]`.
pub fn app_tree(alloc: Global, app: AppId) -> Result<Token, OutOfMemory>
    ensures { IfOk result (λ t. t ≡ app_tree app) }
{
    Ok(list(vec![in alloc; number(u64::from(app.node)), number(u64::from(app.seq))]?))
}

/// `[node,seq,actor]`.
pub fn actor_tree(alloc: Global, id: ActorId) -> Result<Token, OutOfMemory>
    ensures { IfOk result (λ t. t ≡ actor_tree id) }
{
    let node = number(u64::from(id.app.node));
    let seq = number(u64::from(id.app.seq));
    Ok(list(vec![in alloc; node, seq, number(u64::from(id.actor))]?))
}

/// `[node,seq,place]`.
pub fn conn_tree(alloc: Global, id: ConnId) -> Result<Token, OutOfMemory>
    ensures { IfOk result (λ t. t ≡ conn_tree id) }
{
    let node = number(u64::from(id.app.node));
    let seq = number(u64::from(id.app.seq));
    Ok(list(vec![in alloc; node, seq, number(u64::from(id.place))]?))
}

/// The tokens that an inport holds.
#[tactic(auto, using(crate::proofs::Lists::taken_more))]
fn tokens_in(alloc: Global, port: &InPort) -> Result<Token, OutOfMemory>
    ensures { IfOk result (λ t. t ≡ tree.List port.now.held) }
{
    let mut held = Items::new(alloc);
    for i in 0..port.len() {
        let Some(token) = port.head(i) else {
            unreachable!()
        };
        held.push(token.copy(alloc)?)?;
    }
    Ok(Token::List(held))
}

/// Null where nothing feeds the inport, else its connection, its producer, how many tokens were taken, and those held.
fn inlet_tree(alloc: Global, inlet: &Option<Inlet>) -> Result<Token, OutOfMemory>
    ensures { IfOk result (λ t. t ≡ inlet_tree inlet.now) }
{
    let Some(inlet) = inlet else {
        return Ok(Token::Null);
    };
    let conn = conn_tree(alloc, inlet.conn)?;
    let producer = actor_tree(alloc, inlet.producer)?;
    let held = tokens_in(alloc, &inlet.port)?;
    Ok(list(vec![in alloc; conn, producer, number(inlet.port.taken()), held]?))
}

fn reader_tree(alloc: Global, reader: Reader) -> Result<Token, OutOfMemory>
    ensures { IfOk result (λ t. t ≡ reader_tree reader) }
{
    let conn = conn_tree(alloc, reader.conn)?;
    let consumer = actor_tree(alloc, reader.consumer)?;
    Ok(list(vec![in alloc; conn, consumer, number(reader.acked)]?))
}

fn readers_tree(alloc: Global, port: &OutPort) -> Result<Token, OutOfMemory>
    ensures { IfOk result (λ t. t ≡ tree.List (map reader_tree (take most_readers port.now.readers))) }
{
    let mut readers = Items::new(alloc);
    for i in 0..u16::MAX {
        let Some(reader) = port.reader(i) else {
            return Ok(Token::List(readers));
        };
        readers.push(reader_tree(alloc, reader)?)?;
    }
    Ok(Token::List(readers))
}

/// The tokens that an outport holds.
#[tactic(auto, using(crate::proofs::Lists::taken_more))]
fn tokens_out(alloc: Global, port: &OutPort) -> Result<Token, OutOfMemory>
    ensures { IfOk result (λ t. t ≡ tree.List port.now.held) }
{
    let mut held = Items::new(alloc);
    let first = port.written() - u64::from(port.len());
    for i in 0..port.len() {
        let Some(token) = port.token_at(first + u64::from(i)) else {
            unreachable!()
        };
        held.push(token.copy(alloc)?)?;
    }
    Ok(Token::List(held))
}

fn out_tree(alloc: Global, port: &OutPort) -> Result<Token, OutOfMemory>
    ensures { IfOk result (λ t. t ≡ out_tree port.now) }
{
    let held = tokens_out(alloc, port)?;
    let readers = readers_tree(alloc, port)?;
    Ok(list(vec![in alloc; number(port.written()), held, readers]?))
}

fn hint_tree(alloc: Global, hint: &Hint) -> Result<Token, OutOfMemory>
    ensures { IfOk result (λ t. t ≡ hint_tree hint.now) }
{
    let actor = actor_tree(alloc, hint.actor)?;
    Ok(list(vec![in alloc; actor, number(hint.attempt), number(u64::from(hint.node))]?))
}

fn inlets_tree(alloc: Global, inlets: &[Option<Inlet>]) -> Result<Token, OutOfMemory>
    ensures { IfOk result (λ t. t ≡ tree.List (map inlet_tree inlets.now)) }
{
    let mut trees = Items::new(alloc);
    for inlet in inlets {
        trees.push(inlet_tree(alloc, inlet)?)?;
    }
    Ok(Token::List(trees))
}

fn outs_tree(alloc: Global, outs: &[OutPort]) -> Result<Token, OutOfMemory>
    ensures { IfOk result (λ t. t ≡ tree.List (map out_tree outs.now)) }
{
    let mut trees = Items::new(alloc);
    for out in outs {
        trees.push(out_tree(alloc, out)?)?;
    }
    Ok(Token::List(trees))
}

fn hints_tree(alloc: Global, hints: &[Hint]) -> Result<Token, OutOfMemory>
    ensures { IfOk result (λ t. t ≡ tree.List (map hint_tree hints.now)) }
{
    let mut trees = Items::new(alloc);
    for hint in hints {
        trees.push(hint_tree(alloc, hint)?)?;
    }
    Ok(Token::List(trees))
}

/// The token tree of a state.
pub(crate) fn state_tree(alloc: Global, state: &ActorState) -> Result<Token, OutOfMemory>
    ensures { IfOk result (λ t. t ≡ state_tree state.now) }
{
    let spec = state.spec();
    let format = word(alloc, "cs1")?;
    let path = Token::Text(spec.path.copy(alloc)?);
    let kind = word(alloc, name(spec.kind))?;
    let args = Token::List(copy_items(alloc, &spec.args)?);
    let slots = Token::List(copy_items(alloc, state.slots())?);
    let wait = number(state.wait());
    let ins = inlets_tree(alloc, state.ins())?;
    let outs = outs_tree(alloc, state.outs())?;
    let hints = hints_tree(alloc, state.hints().as_slice())?;
    let parts = vec![in alloc;
        format,
        path,
        kind,
        args,
        slots,
        wait,
        Token::Null,
        ins,
        outs,
        hints,
    ]?;
    Ok(list(parts))
}

fn verdict_number(verdict: Verdict) -> u64
    ensures { result ≡ verdict_number verdict }
{
    match verdict {
        Verdict::Accepted => 0,
        Verdict::Unfit => 1,
        Verdict::Full => 2,
        Verdict::Gone => 3,
        Verdict::Cancelled => 4,
    }
}

/// A body of a name, an actor, an attempt and one part more.
fn attempt_tree(
    alloc: Global,
    kind: &str,
    actor: ActorId,
    attempt: u64,
    part: Token,
) -> Result<Token, OutOfMemory>
    ensures { IfOk result (λ t. t ≡ tree.List (word kind.now ∷ actor_tree actor ∷ number attempt ∷ part ∷ [])) }
{
    let kind = word(alloc, kind)?;
    let actor = actor_tree(alloc, actor)?;
    Ok(list(vec![in alloc; kind, actor, number(attempt), part]?))
}

/// A body of a name, a connection, an actor and a number.
fn count_tree(
    alloc: Global,
    kind: &str,
    conn: ConnId,
    actor: ActorId,
    count: u64,
) -> Result<Token, OutOfMemory>
    ensures { IfOk result (λ t. t ≡ tree.List (word kind.now ∷ conn_tree conn ∷ actor_tree actor ∷ number count ∷ [])) }
{
    let kind = word(alloc, kind)?;
    let conn = conn_tree(alloc, conn)?;
    let actor = actor_tree(alloc, actor)?;
    Ok(list(vec![in alloc; kind, conn, actor, number(count)]?))
}

fn token_tree(
    alloc: Global,
    conn: ConnId,
    actor: ActorId,
    n: u64,
    carried: &Token,
) -> Result<Token, OutOfMemory>
    ensures { IfOk result (λ t. t ≡ tree.List (word (codes "token") ∷ conn_tree conn ∷ actor_tree actor ∷ number n ∷ carried.now ∷ [])) }
{
    let kind = word(alloc, "token")?;
    let conn = conn_tree(alloc, conn)?;
    let actor = actor_tree(alloc, actor)?;
    let carried = carried.copy(alloc)?;
    Ok(list(vec![in alloc; kind, conn, actor, number(n), carried]?))
}

fn cancel_tree(alloc: Global, actor: ActorId, attempt: u64) -> Result<Token, OutOfMemory>
    ensures { IfOk result (λ t. t ≡ tree.List (word (codes "cancel") ∷ actor_tree actor ∷ number attempt ∷ [])) }
{
    let kind = word(alloc, "cancel")?;
    let actor = actor_tree(alloc, actor)?;
    Ok(list(vec![in alloc; kind, actor, number(attempt)]?))
}

fn destroy_tree(alloc: Global, app: AppId) -> Result<Token, OutOfMemory>
    ensures { IfOk result (λ t. t ≡ tree.List (word (codes "destroy") ∷ app_tree app ∷ [])) }
{
    let kind = word(alloc, "destroy")?;
    let app = app_tree(alloc, app)?;
    Ok(list(vec![in alloc; kind, app]?))
}

fn body_tree(alloc: Global, body: &Body) -> Result<Token, OutOfMemory>
    ensures { IfOk result (λ t. t ≡ body_tree body.now) }
{
    match body {
        Body::Token {
            conn,
            actor,
            n,
            token,
        } => token_tree(alloc, *conn, *actor, *n, token),
        Body::Ack { conn, actor, upto } => count_tree(alloc, "ack", *conn, *actor, *upto),
        Body::Nack { conn, actor, upto } => count_tree(alloc, "nack", *conn, *actor, *upto),
        Body::Transfer {
            actor,
            attempt,
            state,
        } => {
            let state = state_tree(alloc, state.get())?;
            attempt_tree(alloc, "transfer", *actor, *attempt, state)
        }
        Body::Verdict {
            actor,
            attempt,
            verdict,
        } => {
            let verdict = number(verdict_number(*verdict));
            attempt_tree(alloc, "verdict", *actor, *attempt, verdict)
        }
        Body::Cancel { actor, attempt } => cancel_tree(alloc, *actor, *attempt),
        Body::Located {
            actor,
            attempt,
            node,
        } => {
            let node = number(u64::from(*node));
            attempt_tree(alloc, "located", *actor, *attempt, node)
        }
        Body::Destroy { app } => destroy_tree(alloc, *app),
    }
}

fn member(alloc: Global, key: &str, value: Token) -> Result<Pair<Token>, OutOfMemory>
    ensures { IfOk result (λ p. p ≡ member key.now value) }
{
    let key = Text::from_string(String::from_str(alloc, key)?);
    Ok(Pair { key, value })
}

/// The token tree of a frame.
pub fn frame_tree(alloc: Global, frame: &Frame) -> Result<Token, OutOfMemory>
    ensures { IfOk result (λ t. t ≡ frame_tree frame.now) }
{
    let body = member(alloc, "body", body_tree(alloc, &frame.body)?)?;
    let from = member(alloc, "from", number(u64::from(frame.from)))?;
    let stamp = member(alloc, "stamp", number(frame.stamp))?;
    let to = member(alloc, "to", number(u64::from(frame.to)))?;
    let members = vec![in alloc; body, from, stamp, to]?;
    Ok(Token::Dict(PairsOf::from_items(sqlite_items::Items::from_vec(members))))
}
