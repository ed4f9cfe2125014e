//! Ports that travel, out of their trees.

ghost use Rattle.std.specs.Prelude.{◌≡◌, ◌↔◌, All, map, Some, IfOk, IsTrue};
ghost use Rattle.cv_token.specs.declared.token.Token.{Token};
ghost use Rattle.cv_token.specs.declared.token.Token.TheVariants as tree;
ghost use Rattle.cv_token.specs.Spells.{Spells};
ghost use Rattle.cv_token.specs.Bounds.{Fits};
ghost use Rattle.cv_frame.specs.Trees.{inlet_tree, out_tree, subscription_tree};
ghost use Rattle.cv_frame.specs.Values.{IsInlet, IsOut, IsReader, AreHeld, AreReaders};

use crate::listing::{Part, all_of};
use crate::parts::{actor_of, conn_of, count_of, parts_of};
use cv_protocol::Inlet;
use cv_queue::{InPort, MOST_READERS, OutPort, Readers, Subscription};
use cv_token::{Items, OutOfMemory, Token, copy_items, fits};
use std::alloc::Global;

/// How many tokens a port holds at most.
const ROOM: u16 = 4;

/// Whether each token fits.
fn all_fit(items: &[Token]) -> bool
    ensures { IsTrue result ↔ All Fits items.now }
{
    items.iter().all(|token| fits(token))
}

/// The tokens that a port holds.
fn held_of(alloc: Global, token: &Token) -> Result<Option<Items>, OutOfMemory>
    ensures { IfOk result (Spells AreHeld tree.List token.now) }
{
    let Token::List(items) = token else {
        return Ok(None);
    };
    if items.len() > usize::from(ROOM) || !all_fit(items.as_slice()) {
        return Ok(None);
    }
    Ok(Some(copy_items(alloc, items)?))
}

/// An inport that a connection feeds.
fn inlet_of(alloc: Global, token: &Token) -> Result<Option<Inlet>, OutOfMemory>
    ensures { IfOk result (Spells IsInlet (λ i. inlet_tree (Some i)) token.now) }
{
    let Some(parts) = parts_of(token, 4) else {
        return Ok(None);
    };
    let Some(conn) = conn_of(&parts[0]) else {
        return Ok(None);
    };
    let Some(producer) = actor_of(&parts[1]) else {
        return Ok(None);
    };
    let Some(taken) = count_of(&parts[2]) else {
        return Ok(None);
    };
    let Some(held) = held_of(alloc, &parts[3])? else {
        return Ok(None);
    };
    let Some(port) = InPort::of(alloc, ROOM, taken, held)? else {
        return Ok(None);
    };
    Ok(Some(Inlet {
        conn,
        producer,
        port,
    }))
}

impl Part for Option<Inlet> {
    ghost use Rattle.cv_frame.specs.Trees.{inlet_tree};
    ghost use Rattle.cv_frame.specs.Values.{IsIn};

    ghost Travels = { IsIn };

    ghost shape = { inlet_tree };

    fn read(alloc: Global, token: &Token) -> Result<Option<Option<Inlet>>, OutOfMemory> {
        match token {
            Token::Null => Ok(Some(None)),
            _ => Ok(inlet_of(alloc, token)?.map(Some)),
        }
    }
}

/// A reader to be.
fn reader_of(token: &Token) -> Option<Subscription>
    ensures { Spells IsReader subscription_tree token.now result }
{
    let parts = parts_of(token, 3)?;
    let conn = conn_of(&parts[0])?;
    let consumer = actor_of(&parts[1])?;
    let acked = count_of(&parts[2])?;
    Some(Subscription {
        conn,
        consumer,
        acked,
    })
}

impl Part for Subscription {
    ghost use Rattle.cv_frame.specs.Trees.{subscription_tree};
    ghost use Rattle.cv_frame.specs.Values.{IsReader};

    ghost Travels = { IsReader };

    ghost shape = { subscription_tree };

    fn read(_alloc: Global, token: &Token) -> Result<Option<Subscription>, OutOfMemory> {
        Ok(reader_of(token))
    }
}

/// The readers of an outport.
fn readers_of(alloc: Global, token: &Token) -> Result<Option<Readers>, OutOfMemory>
    ensures { IfOk result (Spells AreReaders (λ rs. tree.List (map subscription_tree rs)) token.now) }
{
    let Some(readers) = all_of::<Subscription>(alloc, token)? else {
        return Ok(None);
    };
    if readers.len() > MOST_READERS {
        return Ok(None);
    }
    Ok(Some(Readers::from_vec(readers)))
}

fn out_of(alloc: Global, token: &Token) -> Result<Option<OutPort>, OutOfMemory>
    ensures { IfOk result (Spells IsOut out_tree token.now) }
{
    let Some(parts) = parts_of(token, 3) else {
        return Ok(None);
    };
    let Some(write) = count_of(&parts[0]) else {
        return Ok(None);
    };
    let Some(held) = held_of(alloc, &parts[1])? else {
        return Ok(None);
    };
    let Some(readers) = readers_of(alloc, &parts[2])? else {
        return Ok(None);
    };
    OutPort::of(alloc, ROOM, write, held, readers)
}

impl Part for OutPort {
    ghost use Rattle.cv_frame.specs.Trees.{out_tree};
    ghost use Rattle.cv_frame.specs.Values.{IsOut};

    ghost Travels = { IsOut };

    ghost shape = { out_tree };

    fn read(alloc: Global, token: &Token) -> Result<Option<OutPort>, OutOfMemory> {
        out_of(alloc, token)
    }
}
