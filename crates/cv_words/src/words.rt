//! The commands of a command line.

ghost use Rattle.std.specs.Prelude.{◌≡◌, map, string_bytes};
ghost use Rattle.cv_words.specs.Asked.{chains_item, chains_word, command_of, compiling, firings_option, stray_of};

use crate::items::Stray;
use crate::numbers::read_within;
use crate::options::{Setting, read_option};
use crate::runs::{DEFAULT_FIRINGS, RunWords, read_run};

/// The most chains that `gen` prints.
const MOST_CHAINS: u32 = 50;

/// What is done with the network of a script.
#[derive(Drop)]
pub enum Task {
    /// To run it on nodes, and to print its streams.
    Run(RunWords),
    /// The same run, and to print its journals.
    Trace(RunWords),
    /// To run it by the one runtime, which goes in rounds, with so many firings at most, and to print its streams.
    Solo { firings: u32 },
    /// To print it.
    Compile,
}

/// What the words ask for.
#[derive(Drop)]
pub enum Command {
    /// To read a script, and to do this with its network.
    Script(Task),
    /// To print a script of so many chains.
    Gen { number: u32 },
}

impl Task {
    /// The first item that names a node that does not run, with its place among all items, from 0.
    pub fn stray(&self) -> Option<Stray>
        ensures { result ≡ stray_of self.now }
    {
        match self {
            Task::Run(run) | Task::Trace(run) => run.stray(),
            _ => None,
        }
    }
}

/// What the words ask for: `run` or `trace` with options and items, `solo`, with or without `--firings N`, `compile`, or `gen N`; None
/// exactly where they are of another form.
pub fn read_command(words: &[String]) -> Option<Command>
    ensures { result ≡ command_of (map string_bytes words.now) }
{
    let [command, rest @ ..] = words else {
        return None
    };
    if command.as_str() == "run" {
        let run = read_run(rest)?;
        Some(Command::Script(Task::Run(run)))
    } else if command.as_str() == "trace" {
        let run = read_run(rest)?;
        Some(Command::Script(Task::Trace(run)))
    } else if command.as_str() == "solo" {
        let firings = read_firings_option(rest)?;
        Some(Command::Script(Task::Solo { firings }))
    } else if command.as_str() == "compile" {
        read_compile(rest)
    } else if command.as_str() == "gen" {
        let number = read_chains_item(rest)?;
        Some(Command::Gen { number })
    } else {
        None
    }
}

/// To print the network, where no words stand behind `compile`.
fn read_compile(words: &[String]) -> Option<Command>
    ensures { result ≡ compiling (map string_bytes words.now) }
{
    match words {
        [] => Some(Command::Script(Task::Compile)),
        _ => None,
    }
}

/// The number of chains of `gen`, with or without the mark `--` before it.
fn read_chains_item(words: &[String]) -> Option<u32>
    ensures { result ≡ chains_item (map string_bytes words.now) }
{
    match words {
        [word] => read_chains(word.as_bytes()),
        [mark, word] => if mark.as_str() == "--" {
            read_chains(word.as_bytes())
        } else {
            None
        },
        _ => None,
    }
}

/// The number of chains that a word asks for.
fn read_chains(word: &[u8]) -> Option<u32>
    ensures { result ≡ chains_word word.now }
{
    read_within(word, 1, MOST_CHAINS)
}

/// The bound of the option `--firings`, and the default where the option does not stand; None where the words are of another form.
fn read_firings_option(words: &[String]) -> Option<u32>
    ensures { result ≡ firings_option (map string_bytes words.now) }
{
    if words.is_empty() {
        return Some(DEFAULT_FIRINGS);
    }
    match read_option(words)? {
        (Setting::Firings(firings), []) => Some(firings),
        _ => None,
    }
}
