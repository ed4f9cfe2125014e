//! States that travel, out of their trees.

ghost use Rattle.std.specs.Prelude.{◌≡◌, ◌≢◌, ◌↔◌, List, Option, map, length, true, All, IfOk, IsTrue, MatchOption};
ghost use Rattle.std.specs.declared.cmp.Ordering.TheVariants.{Less};
ghost use Rattle.cv_token.specs.declared.token.Token.{Token};
ghost use Rattle.cv_token.specs.declared.token.Token.TheVariants as tree;
ghost use Rattle.cv_token.specs.Spells.{Spells};
ghost use Rattle.cv_kinds.specs.Sorts.{is_state};
ghost use Rattle.cv_kinds.specs.WellFormed.{IsSpec};
ghost use Rattle.cv_table.specs.Order.{actor_cmp};
ghost use Rattle.cv_queue.specs.Ports.{OutView};
ghost use Rattle.cv_protocol.specs.Actors.{IsShaped};
ghost use Rattle.cv_protocol.specs.declared.state.Inlet.{Inlet};
ghost use Rattle.cv_frame.specs.Trees.{number, hint_tree, inlet_tree, out_tree, spec_trees, state_tree};
ghost use Rattle.cv_frame.specs.Values.{AreHints, IsHint, IsIn, IsOut, IsState, IsWait, Rise};

use crate::listing::{Part, all_of};
use crate::parts::{actor_of, count_of, is_null, is_word, node_of, parts_of};
use cv_behave::Behave;
use cv_kinds::{ActorSpec, Kind, args_ok, find, state_ok};
use cv_protocol::{ActorState, Hint, Hints, Inlet, StateParts};
use cv_queue::OutPort;
use cv_token::{ActorId, Items, OutOfMemory, Text, Token, copy_items};
use std::alloc::Global;

/// The most milliseconds that an actor waits.
const LONGEST_WAIT: u64 = 2_147_483_647;

/// A hint.
fn hint_of(token: &Token) -> Option<Hint>
    ensures { Spells IsHint hint_tree token.now result }
{
    let parts = parts_of(token, 3)?;
    let actor = actor_of(&parts[0])?;
    let attempt = count_of(&parts[1])?;
    let node = node_of(&parts[2])?;
    Some(Hint {
        actor,
        attempt,
        node,
    })
}

impl Part for Hint {
    ghost use Rattle.cv_frame.specs.Trees.{hint_tree};
    ghost use Rattle.cv_frame.specs.Values.{IsHint};

    ghost Travels = { IsHint };

    ghost shape = { hint_tree };

    fn read(_alloc: Global, token: &Token) -> Result<Option<Hint>, OutOfMemory> {
        Ok(hint_of(token))
    }
}

/// Whether a hint's actor is below another's.
fn is_below(hint: &Hint, other: &Hint) -> bool
    ensures { IsTrue result ↔ (actor_cmp hint.now.actor other.now.actor ≡ Less) }
{
    hint.actor < other.actor
}

/// Whether each hint's actor is below that of the next.
fn rise(hints: &[Hint]) -> bool
    ensures { IsTrue result ↔ Rise hints.now }
{
    for i in 1..hints.len() {
        if !is_below(&hints[i - 1], &hints[i]) {
            return false;
        }
    }
    true
}

fn hints_of(alloc: Global, token: &Token) -> Result<Option<Hints>, OutOfMemory>
    ensures { IfOk result (Spells AreHints (λ hints. tree.List (map hint_tree hints)) token.now) }
{
    let Some(hints) = all_of::<Hint>(alloc, token)? else {
        return Ok(None);
    };
    if !rise(&hints) {
        return Ok(None);
    }
    Ok(Some(Hints::from_vec(hints)))
}

/// Path, kind and arguments.
fn spec_of(
    alloc: Global,
    path: &Token,
    kind: &Token,
    args: &Token,
) -> Result<Option<ActorSpec>, OutOfMemory>
    ensures { IfOk result (Spells IsSpec spec_trees (path.now, (kind.now, args.now))) }
{
    let (Token::Text(path), Token::Text(kind), Token::List(args)) = (path, kind, args) else {
        return Ok(None);
    };
    let Some(kind) = find(kind.as_str()) else {
        return Ok(None);
    };
    if !args_ok(kind, args) {
        return Ok(None);
    }
    let path = Text::from_string(String::from_str(alloc, path.as_str())?);
    let args = copy_items(alloc, args)?;
    Ok(Some(ActorSpec { path, kind, args }))
}

/// The slots of an actor of that kind with these arguments.
fn slots_of(alloc: Global, spec: &ActorSpec, token: &Token) -> Result<Option<Items>, OutOfMemory>
    ensures { IfOk result (Spells (λ slots. is_state spec.now.kind spec.now.args slots ≡ true) tree.List token.now) }
{
    let Token::List(slots) = token else {
        return Ok(None);
    };
    if !state_ok(spec.kind, &spec.args, slots) {
        return Ok(None);
    }
    Ok(Some(copy_items(alloc, slots)?))
}

fn wait_of(token: &Token) -> Option<u64>
    ensures { Spells IsWait number token.now result }
{
    let wait = count_of(token)?;
    if wait > LONGEST_WAIT {
        None
    } else {
        Some(wait)
    }
}

/// The ports of an actor of that kind.
fn ports_of(
    alloc: Global,
    kind: Kind,
    ins: &Token,
    outs: &Token,
) -> Result<Option<(Vec<Option<Inlet>>, Vec<OutPort>)>, OutOfMemory>
    ensures { IfOk result (λ found. MatchOption found
        ((xs : List (Option Inlet)) (ys : List OutView) → All IsIn xs → All IsOut ys → IsShaped kind (length xs) (length ys)
        → ins.now ≡ tree.List (map inlet_tree xs) → outs.now ≢ tree.List (map out_tree ys))
        (λ p. All IsIn p.0.items × All IsOut p.1.items × IsShaped kind (length p.0.items) (length p.1.items)
        × (ins.now ≡ tree.List (map inlet_tree p.0.items)) × (outs.now ≡ tree.List (map out_tree p.1.items)))) }
{
    let Some(ins) = all_of::<Option<Inlet>>(alloc, ins)? else {
        return Ok(None);
    };
    let Some(outs) = all_of::<OutPort>(alloc, outs)? else {
        return Ok(None);
    };
    if ins.len() != usize::from(kind.inports()) {
        return Ok(None);
    }
    if outs.len() != usize::from(kind.outports()) {
        return Ok(None);
    }
    Ok(Some((ins, outs)))
}

/// The state of an actor, out of its tree.
pub(crate) fn state_of(
    alloc: Global,
    id: ActorId,
    token: &Token,
) -> Result<Option<ActorState>, OutOfMemory>
    ensures { IfOk result (Spells (λ s. IsState s × (s.actor.id ≡ id)) state_tree token.now) }
{
    let Some(parts) = parts_of(token, 10) else {
        return Ok(None);
    };
    if !is_word(&parts[0], "cs1") {
        return Ok(None);
    }
    if !is_null(&parts[6]) {
        return Ok(None);
    }
    let Some(spec) = spec_of(alloc, &parts[1], &parts[2], &parts[3])? else {
        return Ok(None);
    };
    let Some(slots) = slots_of(alloc, &spec, &parts[4])? else {
        return Ok(None);
    };
    let Some(wait) = wait_of(&parts[5]) else {
        return Ok(None);
    };
    let Some((ins, outs)) = ports_of(alloc, spec.kind, &parts[7], &parts[8])? else {
        return Ok(None);
    };
    let Some(hints) = hints_of(alloc, &parts[9])? else {
        return Ok(None);
    };
    Ok(Some(ActorState::from_parts(StateParts {
        id,
        spec,
        slots,
        wait,
        ins,
        outs,
        hints,
    })))
}
