//! A journal as a line of letters.

use cv_node::Node;
use cv_protocol::Event;
use cv_token::OutOfMemory;
use std::alloc::Global;

/// The letter of an entry's event.
fn letter(event: &Event) -> char {
    match event {
        Event::Meet { .. } => 'm',
        Event::Deploy { .. } => 'd',
        Event::Peek { .. } => 'p',
        Event::Fire { .. } => 'F',
        Event::Pass { .. } => 'P',
        Event::Send { .. } => 'S',
        Event::Rewind { .. } => 'R',
        Event::Freeze { .. } => 'f',
        Event::Lose { .. } => 'L',
        Event::Deliver { .. } => 'D',
        _ => '?',
    }
}

/// The letters of the journal's entries, in their order.
pub fn letters(alloc: Global, node: &Node) -> Result<String, OutOfMemory> {
    let mut letters = String::new(alloc);
    for entry in &node.journal().entries {
        letters.push(letter(&entry.event))?;
    }
    Ok(letters)
}
