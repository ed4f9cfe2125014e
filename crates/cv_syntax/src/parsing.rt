//! Lexemes parsed to a script.

ghost use Rattle.std.specs.Prelude.{◌≡◌, ◌≤◌, ◌^◌, length, Ok, Err, IfOk, IfErr};
ghost use Rattle.cv_lex.specs.Spelling.{SpellsLexemes};
ghost use Rattle.cv_readers.specs.Reading.{Miss};
ghost use Rattle.cv_syntax.specs.declared.tree.Script.{Script};
ghost use Rattle.cv_syntax.specs.declared.fault.ParseFault.{ParseFault};
ghost use Rattle.cv_syntax.specs.Grammar.{SpellsTree, HasFault, IsFault};
ghost use Rattle.cv_syntax.specs.Parsing.{words_of, place_left, parsed, Answers};

use crate::fault::ParseFault;
use crate::roots::read_items;
use crate::tree::Script;
use cv_lex::{Lexeme, Placed, words};
use cv_readers::Stop;
use std::alloc::Global;

/// The place of the word from which on `left` words are left, or `end` behind the last.
fn place_left(end: u32, words: &[Placed], left: usize) -> u32
    ensures { result ≡ place_left end words.now left }
{
    match words.get(words.len().saturating_sub(left)) {
        Some(word) => word.at,
        None => end,
    }
}

/// The script of words of a source that has `end` bytes.
fn parse_words(alloc: Global, end: u32, words: &[Placed]) -> Result<Script, ParseFault>
    ensures { Answers result (parsed end words.now) }
{
    match read_items(alloc, words) {
        Ok((items, _)) => Ok(Script { items }),
        Err(Stop::Unexpected(left)) => Err(ParseFault::Unexpected {
            at: place_left(end, words, left),
        }),
        Err(Stop::TooDeep(left)) => Err(ParseFault::TooDeep {
            at: place_left(end, words, left),
        }),
        Err(Stop::OutOfMemory) => Err(ParseFault::OutOfMemory),
    }
}

/// The same for the lexemes of a source.
fn parse_all(alloc: Global, source: &str, lexemes: &[Lexeme]) -> Result<Script, ParseFault>
    requires small { length source.now ≤ 2 ^ 31 }
    requires lexed { SpellsLexemes 0 source.now lexemes.now }
    ensures { Answers result (parsed (length source.now) (words_of source.now lexemes.now)) }
{
    let words = words(alloc, source, lexemes)?;
    parse_words(alloc, source.len() as u32, words.as_slice())
}

/// The script that the lexemes of a source spell, or the fault that is furthest left.
pub fn parse(alloc: Global, source: &str, lexemes: &[Lexeme]) -> Result<Script, ParseFault>
    requires small { length source.now ≤ 2 ^ 31 }
    requires lexed { SpellsLexemes 0 source.now lexemes.now }
    // What is parsed is spelled by these words.
    ensures found { IfOk result (λ script. SpellsTree (words_of source.now lexemes.now) script) }
    // What these words spell is parsed, unless memory runs out, and they spell nothing else.
    ensures only { (script : Script) → SpellsTree (words_of source.now lexemes.now) script → Answers result (Ok script) }
    ensures one { (a b : Script) → SpellsTree (words_of source.now lexemes.now) a → SpellsTree (words_of source.now lexemes.now) b → a ≡ b }
    // Where the words begin a script and go on with none, or open a level too many. Words with
    // such a fault are answered with it, unless memory runs out.
    ensures fault { IfErr result (IsFault (length source.now) (words_of source.now lexemes.now)) }
    ensures faulty { (fault : ParseFault) → HasFault (length source.now) (words_of source.now lexemes.now) fault → Answers result (Err fault) }
{
    parse_all(alloc, source, lexemes)
}
