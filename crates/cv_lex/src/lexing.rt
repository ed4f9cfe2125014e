//! A text cut into its lexemes.

ghost use Rattle.std.specs.Prelude.{◌≡◌, ◌+◌, ◌<◌, ◌≤◌, ◌^◌, length, drop, IfOk, IfErr, ◌↔◌, List, [], ◌∷◌, Ok, Err, Some, None, ℕ, codes, ◌++◌};
ghost use Rattle.cv_lex.specs.Faults.{HasFault, IsCaused};
ghost use Rattle.cv_lex.specs.Lexemes.{lexemes, with_front, Fails, Gives, Rise};
ghost use Rattle.cv_lex.specs.Shapes.{IsAt, Stands};
ghost use Rattle.cv_lex.specs.Spelling.{SpellsLexemes};
ghost use Rattle.cv_lex.specs.declared.lexeme.LexFault.{LexFault};
ghost use Rattle.cv_lex.specs.declared.lexeme.Lexeme.{Lexeme};
ghost use Rattle.cv_lex.specs.declared.lexeme.Sort.{Sort};

use crate::fronts::{Front, at_front};
use crate::lexeme::{LexFault, Lexeme, Sort};
use std::alloc::Global;

/// Takes what stands at the front, keeps it if it is a lexeme, and answers how many bytes it has.
fn take_front(found: &mut Vec<Lexeme>, rest: &[u8], at: u32) -> Result<usize, LexFault>
    requires some { 0 < length rest.now }
    requires small { at + length rest.now ≤ 2 ^ 31 }
    ensures taken { IfOk result (λ n. (0 < n) × (n ≤ length rest.now)) }
    ensures ok { IfOk result (λ n. with_front found.old.items (lexemes at 0 rest.now)
        ≡ with_front found.new.items (lexemes (at + n) 0 (drop n rest.now))) }
    ensures err { IfErr result (λ fault. Fails fault (lexemes at 0 rest.now)) }
{
    match at_front(rest, at) {
        Front::Blank(more) => Ok(more + 1),
        Front::Lexeme(sort, more) => {
            let len = more as u32 + 1;
            found.push(Lexeme { sort, at, len })?;
            Ok(more + 1)
        }
        Front::Flaw(fault) => Err(fault),
    }
}

/// The lexemes of a script, in order, or its first fault from the left.
fn lex_all(alloc: Global, source: &str) -> Result<Vec<Lexeme>, LexFault>
    requires { length source.now ≤ 2 ^ 31 }
    ensures { Gives result (lexemes 0 0 source.now) }
{
    let mut found = Vec::new(alloc);
    let mut rest = source.as_bytes();
    let mut at = 0;
    while !rest.is_empty() {
        let taken = take_front(&mut found, rest, at)?;
        rest = rest.split_at(taken).1;
        at += taken as u32;
    }
    Ok(found)
}

/// The lexemes of a script, in order. White space and comments stand between them, and of what may
/// stand at a place the longest is taken.
///
/// # Errors
///
/// The first fault from the left, with its place in bytes; or `OutOfMemory`.
pub fn lex(alloc: Global, source: &str) -> Result<Vec<Lexeme>, LexFault>
    requires { length source.now ≤ 2 ^ 31 }
    ensures exact { Gives result (lexemes 0 0 source.now) }

    // Unless memory runs out, the answer is Ok exactly where the source spells lexemes.
    ensures found { IfOk result (λ found. SpellsLexemes 0 source.now found.items) }
    ensures only { (spelled : List Lexeme) → SpellsLexemes 0 source.now spelled → Gives result (Ok spelled) }

    // The spans rise, and end within the source.
    ensures rising { IfOk result (λ found. Rise 0 found.items (length source.now)) }

    // Each fault stands where white space, comments and lexemes lead to, and has its cause there. A
    // source with such a fault is answered with it.
    ensures cause { IfErr result (IsCaused source.now) }
    ensures faulty { (fault : LexFault) → HasFault source.now fault → Gives result (Err fault) }
{
    lex_all(alloc, source)
}

/// No bytes spell two lists of lexemes, and the lexemes of bytes are those that they spell.
pub fn one_spelling()
    ensures one { (bytes : List ℕ) (first second : List Lexeme) → SpellsLexemes 0 bytes first → SpellsLexemes 0 bytes second → first ≡ second }
    ensures same { (bytes : List ℕ) (spelled : List Lexeme) → (lexemes 0 0 bytes ≡ Ok spelled) ↔ SpellsLexemes 0 bytes spelled }
{}

/// A lexeme that a space follows is the longest that stands there, and so is the space: what a
/// printer needs that puts a space behind each lexeme.
pub fn before_a_space()
    ensures lexeme { (sort : Sort) (front rest : List ℕ) → IsAt (Some sort) front (codes " " ++ rest) → Stands (Some sort) front (codes " " ++ rest) }
    ensures space { (rest : List ℕ) → Stands None (codes " ") rest }
{}
