//! The refusals for faults of expanded scripts.

ghost use Rattle.std.specs.Prelude.{◌≡◌, ◌≤◌, ◌^◌, length};
ghost use Rattle.cv_deploy.specs.Faults.{SaidTo, expand_said, graph_said};
ghost use Rattle.cv_deploy.specs.Meaning.{first_word, word_by};

use crate::fault::{Code, NoNetwork};
use crate::placing::fault_at;
use cv_expand::ExpandFault;
use cv_graph::GraphFault;
use cv_syntax::Item;

/// The refusal for a fault of the walk.
pub fn of_expand(source: &[u8], fault: ExpandFault) -> NoNetwork
    requires { length source.now ≤ 2 ^ 31 }
    ensures { SaidTo source.now (expand_said fault) result }
{
    let (at, code) = match fault {
        ExpandFault::NoComponent { at } => (at, Code::NoComponent),
        ExpandFault::Recursion { at } => (at, Code::Recursion),
        ExpandFault::ArgCount { at } => (at, Code::ArgCount),
        ExpandFault::NoArg { at } => (at, Code::NoArg),
        ExpandFault::DoubleName { at } => (at, Code::DoubleName),
        ExpandFault::TooMany { at } => (at, Code::TooMany),
        ExpandFault::OutOfMemory => return NoNetwork::OutOfMemory,
    };
    NoNetwork::Script(fault_at(source, at, code))
}

/// The refusal for a fault of kinds, arguments or joins.
pub fn of_graph(source: &[u8], fault: GraphFault) -> NoNetwork
    requires { length source.now ≤ 2 ^ 31 }
    ensures { SaidTo source.now (graph_said fault) result }
{
    let (at, code) = match fault {
        GraphFault::NoKind { at } => (at, Code::NoKind),
        GraphFault::Fraction { at } => (at, Code::Fraction),
        GraphFault::BadArg { at } => (at, Code::BadArg),
        GraphFault::NoPort { at } => (at, Code::NoPort),
        GraphFault::FedTwice { at } => (at, Code::FedTwice),
        GraphFault::Unfed { at } => (at, Code::Unfed),
        GraphFault::BatchOverQueue { at } => (at, Code::BatchOverQueue),
        GraphFault::OutOfMemory => return NoNetwork::OutOfMemory,
    };
    NoNetwork::Script(fault_at(source, at, code))
}

/// The place of the first word `rule` or `apply`.
pub fn first_word(script: &[Item]) -> Option<u32>
    ensures { result ≡ first_word script.now }
{
    for item in script {
        let word = word_by(item);
        if word.is_some() {
            return word;
        }
    }
    None
}

/// The place of the word `rule` or `apply`, where the item begins with one.
fn word_by(item: &Item) -> Option<u32>
    ensures { result ≡ word_by item.now }
{
    match item {
        Item::Rule(rule) => Some(rule.at),
        Item::Apply(apply) => Some(apply.at),
        _ => None,
    }
}
