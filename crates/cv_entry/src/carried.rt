//! Events that carry attributes, a network or a frame, out of their trees.

ghost use Rattle.std.specs.Prelude.{◌≡◌, ◌≢◌, ℕ, List, [], ◌∷◌, IfOk, MatchOption};
ghost use Rattle.cv_token.specs.declared.pairs.Pair.{Pair};
ghost use Rattle.cv_token.specs.declared.token.Token.TheVariants as tree;
ghost use Rattle.cv_kinds.specs.Net.{Net};
ghost use Rattle.cv_protocol.specs.declared.event.Event.TheVariants as event;
ghost use Rattle.cv_protocol.specs.declared.frame.Frame.{Frame};
ghost use Rattle.cv_frame.specs.Trees.{frame_tree, word};
ghost use Rattle.cv_frame.specs.Values.{IsFrame};
ghost use Rattle.cv_entry.specs.Trees.{event_tree};
ghost use Rattle.cv_entry.specs.Values.{IsEvent};

use crate::attrs::attrs_of;
use cv_frame::frames::{behind, frame_of};
use cv_frame::parts::node_of;
use cv_network::network_of;
use cv_protocol::{Event, Frame};
use cv_token::{OutOfMemory, Text, Token};
use sqlite_items::Boxed;
use std::alloc::Global;

pub(crate) fn meet_event(alloc: Global, token: &Token) -> Result<Option<Event>, OutOfMemory>
    ensures { IfOk result (λ found. MatchOption found
        ((node : ℕ) (attrs : List (Pair (List ℕ))) → IsEvent (event.Meet node attrs) → token.now ≢ event_tree (event.Meet node attrs))
        (λ e. IsEvent e × (token.now ≡ event_tree e))) }
{
    let Some(rest) = behind(token, "meet", 3) else {
        return Ok(None);
    };
    let Some(node) = node_of(&rest[0]) else {
        return Ok(None);
    };
    let Some(attrs) = attrs_of(alloc, &rest[1])? else {
        return Ok(None);
    };
    Ok(Some(Event::Meet { node, attrs }))
}

pub(crate) fn deploy_event(alloc: Global, token: &Token) -> Result<Option<Event>, OutOfMemory>
    ensures { IfOk result (λ found. MatchOption found
        ((name : List ℕ) (net : Net) → IsEvent (event.Deploy name net) → token.now ≢ event_tree (event.Deploy name net))
        (λ e. IsEvent e × (token.now ≡ event_tree e))) }
{
    let Some(rest) = behind(token, "deploy", 3) else {
        return Ok(None);
    };
    let Token::Text(name) = &rest[0] else {
        return Ok(None);
    };
    let Some(net) = network_of(alloc, &rest[1])? else {
        return Ok(None);
    };
    let name = Text::from_string(String::from_str(alloc, name.as_str())?);
    let net = Boxed::new(alloc, net)?;
    Ok(Some(Event::Deploy { name, net }))
}

/// A frame behind a name.
fn frame_behind(alloc: Global, token: &Token, name: &str) -> Result<Option<Frame>, OutOfMemory>
    ensures { IfOk result (λ found. MatchOption found
        ((frame : Frame) → IsFrame frame → token.now ≢ tree.List (word name.now ∷ frame_tree frame ∷ []))
        (λ frame. IsFrame frame × (token.now ≡ tree.List (word name.now ∷ frame_tree frame ∷ [])))) }
{
    let Some(rest) = behind(token, name, 2) else {
        return Ok(None);
    };
    frame_of(alloc, &rest[0])
}

pub(crate) fn lose_event(alloc: Global, token: &Token) -> Result<Option<Event>, OutOfMemory>
    ensures { IfOk result (λ found. MatchOption found
        ((frame : Frame) → IsEvent (event.Lose frame) → token.now ≢ event_tree (event.Lose frame))
        (λ e. IsEvent e × (token.now ≡ event_tree e))) }
{
    match frame_behind(alloc, token, "lose")? {
        Some(frame) => Ok(Some(Event::Lose { frame })),
        None => Ok(None),
    }
}

pub(crate) fn deliver_event(alloc: Global, token: &Token) -> Result<Option<Event>, OutOfMemory>
    ensures { IfOk result (λ found. MatchOption found
        ((frame : Frame) → IsEvent (event.Deliver frame) → token.now ≢ event_tree (event.Deliver frame))
        (λ e. IsEvent e × (token.now ≡ event_tree e))) }
{
    match frame_behind(alloc, token, "deliver")? {
        Some(frame) => Ok(Some(Event::Deliver { frame })),
        None => Ok(None),
    }
}
