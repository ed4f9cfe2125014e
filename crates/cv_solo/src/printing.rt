//! The lines of the prints.

ghost use Rattle.std.specs.Prelude.{◌≡◌, ◌≤◌, ◌++◌, length, take, map, string_bytes, OnOk, IfOk};
ghost use Rattle.cv_solo.specs.PrintedText.{taken_at, print_line, print_lines, print_of, prints_from, InPathOrder, IsPrinted};
ghost use Rattle.cv_solo.specs.Keyed.{keyed};
ghost use Rattle.cv_kinds.specs.Net.{most_actors};

use crate::solo::{Solo, feeds, first_of};
use crate::stream::Stream;
use cv_kinds::{ActorSpec, Connection};
use cv_token::{OutOfMemory, Text, Token, text};
use std::alloc::Global;

/// The tokens that were taken at an inport.
#[tactic(auto, using(crate::proofs::Inputs::taken_past))]
fn taken_at<'a>(
    connections: &[Connection],
    streams: &'a [Stream],
    actor: u16,
    port: u8,
) -> &'a [Token]
    ensures { result.now ≡ taken_at connections.now streams.now actor port }
{
    for (place, connection) in connections.iter().enumerate() {
        if place >= streams.len() {
            return &[];
        }
        let stream = &streams[place];
        if feeds(connection, actor, port) {
            return taken_of(stream);
        }
    }
    &[]
}

/// The tokens of a stream that were taken.
fn taken_of(stream: &Stream) -> &[Token]
    ensures { result.now ≡ take stream.now.took stream.now.wrote }
{
    let wrote = stream.wrote.as_slice();
    if stream.took < wrote.len() as u64 {
        first_of(wrote, stream.took as usize)
    } else {
        wrote
    }
}

/// Adds a line for each token.
fn push_lines(
    alloc: Global,
    lines: &mut String,
    path: &str,
    tokens: &[Token],
) -> Result<(), OutOfMemory>
    ensures { OnOk result (string_bytes lines.new ≡ string_bytes lines.old ++ print_lines path.now tokens.now) }
{
    for token in tokens {
        push_line(alloc, lines, path, token)?;
    }
    Ok(())
}

/// Adds the line of a token.
fn push_line(
    alloc: Global,
    lines: &mut String,
    path: &str,
    token: &Token,
) -> Result<(), OutOfMemory>
    ensures { OnOk result (string_bytes lines.new ≡ string_bytes lines.old ++ print_line path.now token.now) }
{
    let spelled = text(alloc, token)?;
    lines.push_str(path)?;
    lines.push_str(" ")?;
    lines.push_str(spelled.as_str())?;
    lines.push_str("\n")
}

/// The prints of a network, in the order of their paths' bytes, each with its path.
fn prints_in_order(alloc: Global, actors: &[ActorSpec]) -> Result<Vec<(String, u16)>, OutOfMemory>
    requires { length actors.now ≤ most_actors }
    ensures { IfOk result (λ prints. InPathOrder actors.now (map keyed prints.items)) }
{
    let mut prints = collected_prints(alloc, actors)?;
    prints.sort()?;
    Ok(prints)
}

/// The prints of a network, in the order of the actors.
fn collected_prints(alloc: Global, actors: &[ActorSpec]) -> Result<Vec<(String, u16)>, OutOfMemory>
    requires { length actors.now ≤ most_actors }
    ensures { IfOk result (λ prints. map keyed prints.items ≡ prints_from 0 actors.now) }
{
    let mut prints = Vec::new(alloc);
    for (place, actor) in actors.iter().enumerate() {
        push_print(alloc, &mut prints, place as u16, actor)?;
    }
    Ok(prints)
}

/// Adds an actor if it is a print.
fn push_print(
    alloc: Global,
    prints: &mut Vec<(String, u16)>,
    place: u16,
    actor: &ActorSpec,
) -> Result<(), OutOfMemory>
    ensures { OnOk result (map keyed prints.new.items ≡ map keyed prints.old.items ++ print_of place actor.now) }
{
    if actor.kind.is_print() {
        prints.push((String::from_str(alloc, actor.path.as_str())?, place))?;
    }
    Ok(())
}

impl Solo {
    /// The lines of the prints: for each in the order of its path's bytes one line `PATH TOKEN` for each token taken.
    pub fn print(&self, alloc: Global) -> Result<Text, OutOfMemory>
        ensures { IfOk result (IsPrinted self.now.net self.now.runtime.streams) }
    {
        let prints = prints_in_order(alloc, self.network().actors())?;
        let mut lines = String::new(alloc);
        for print in &prints {
            push_lines(alloc, &mut lines, print.0.as_str(), self.taken(print.1))?;
        }
        Ok(Text::from_string(lines))
    }

    /// The tokens that an actor took at its first inport.
    pub fn taken(&self, actor: u16) -> &[Token]
        ensures { result.now ≡ taken_at self.now.net.connections self.now.runtime.streams actor 0 }
    {
        taken_at(self.network().connections(), self.streams(), actor, 0)
    }
}
