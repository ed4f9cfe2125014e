//! The script that bytes spell.

ghost use Rattle.std.specs.Prelude.{◌≡◌, ◌≤◌, ◌^◌, ◌⊎◌, length, Ok, IfOk, IfErr};
ghost use Rattle.cv_syntax.specs.declared.tree.Script.{Script};
ghost use Rattle.cv_deploy.specs.declared.fault.Fault.{Fault};
ghost use Rattle.cv_deploy.specs.Faults.{SpellsScript, SpellsFault, Gives, Refuses, HasFault, IsCaused, LexedTo, ParsedTo};

use crate::fault::{Code, NoNetwork};
use crate::placing::fault_at;
use cv_lex::{LexFault, Lexeme, lex};
use cv_syntax::{ParseFault, Script, parse};
use std::alloc::Global;

/// The script that a source spells.
pub fn script_of(alloc: Global, source: &str) -> Result<Script, NoNetwork>
    requires { length source.now ≤ 2 ^ 31 }
    ensures found { IfOk result (SpellsScript source.now) }
    ensures only { (script : Script) → SpellsScript source.now script → Gives result script }
    ensures fault { IfErr result (IsCaused source.now) }
    // A fault of the lexemes or of the grammar is answered, unless memory runs out.
    ensures faulty { (fault : Fault) → HasFault source.now fault → Refuses result fault ⊎ SpellsFault source.now fault }
{
    let lexemes = match lex(alloc, source) {
        Ok(lexemes) => lexemes,
        Err(fault) => return Err(of_lex(source, fault)),
    };
    match parse(alloc, source, lexemes.as_slice()) {
        Ok(script) => Ok(script),
        Err(fault) => Err(of_parse(source, fault)),
    }
}

/// The refusal for a fault of the lexemes.
fn of_lex(source: &str, fault: LexFault) -> NoNetwork
    requires { length source.now ≤ 2 ^ 31 }
    ensures { LexedTo source.now fault result }
{
    let (at, code) = match fault {
        LexFault::BadChar { at } => (at, Code::BadChar),
        LexFault::OpenText { at } => (at, Code::OpenText),
        LexFault::OpenComment { at } => (at, Code::OpenComment),
        LexFault::WideNumber { at } => (at, Code::WideNumber),
        LexFault::BadEscape { at } => (at, Code::BadEscape),
        LexFault::LongName { at } => (at, Code::LongName),
        LexFault::OutOfMemory => return NoNetwork::OutOfMemory,
    };
    NoNetwork::Script(fault_at(source.as_bytes(), at, code))
}

/// The refusal for a fault of the parser.
fn of_parse(source: &str, fault: ParseFault) -> NoNetwork
    requires { length source.now ≤ 2 ^ 31 }
    ensures { ParsedTo source.now fault result }
{
    let (at, code) = match fault {
        ParseFault::Unexpected { at } => (at, Code::Unexpected),
        ParseFault::TooDeep { at } => (at, Code::TooDeep),
        ParseFault::OutOfMemory => return NoNetwork::OutOfMemory,
    };
    NoNetwork::Script(fault_at(source.as_bytes(), at, code))
}
