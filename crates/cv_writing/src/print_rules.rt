//! Expressions printed as text.

ghost use Rattle.std.specs.Prelude.{◌≡◌, [], ◌∷◌, ◌++◌, string_bytes, OnOk};
ghost use Rattle.cv_lex.specs.declared.word.Mark.TheVariants.{Ampersand, Bar, CloseBrace, CloseBracket, OpenBrace, OpenBracket};
ghost use Rattle.cv_readers.specs.Slots.{mark, opening, sep_slots, listed_slots};
ghost use Rattle.cv_syntax.specs.declared.tree.Factor.TheVariants as factors;
ghost use Rattle.cv_syntax.specs.Spelling.{in_level, field_slots, index_slots, group_slots, match_slots, factor_slots, terms_slots};
ghost use Rattle.cv_writing.specs.Printing.{Adds};

use crate::print_values::{print_name, print_text};
use crate::separated::{Printable, print_separated};
use crate::writing::{push_mark, push_name};
use cv_lex::Mark;
use cv_syntax::{Factor, Match, Term, Terms};
use cv_token::{OutOfMemory, Pair, Text};
use sqlite_items::Items;

/// A field of a match and the text that it has to have.
fn print_field(out: &mut String, field: &Pair<Text>) -> Result<(), OutOfMemory>
    ensures { OnOk result (Adds (string_bytes out.old) (string_bytes out.new) (field_slots field.now)) }
{
    print_text(out, &field.key)?;
    push_mark(out, Mark::Colon)?;
    print_text(out, &field.value)
}

impl Printable for Pair<Text> {
    ghost use Rattle.cv_syntax.specs.Spelling.{field_slots};

    ghost spell = { field_slots };

    fn print(&self, out: &mut String) -> Result<(), OutOfMemory> {
        print_field(out, self)
    }
}

/// Fields in braces.
fn print_braced(out: &mut String, fields: &Items<Pair<Text>>) -> Result<(), OutOfMemory>
    ensures { OnOk result (Adds (string_bytes out.old) (string_bytes out.new)
        (in_level (opening OpenBrace) (listed_slots CloseBrace field_slots fields.now))) }
{
    push_mark(out, Mark::OpenBrace)?;
    print_separated(out, Mark::Comma, fields)?;
    push_mark(out, Mark::CloseBrace)
}

/// The group of a match and its fields.
fn print_index(out: &mut String, found: &Match) -> Result<(), OutOfMemory>
    ensures { OnOk result (Adds (string_bytes out.old) (string_bytes out.new) (index_slots found.now)) }
{
    print_text(out, &found.group)?;
    push_mark(out, Mark::Comma)?;
    print_braced(out, &found.fields)
}

/// The same in brackets.
fn print_bracket(out: &mut String, found: &Match) -> Result<(), OutOfMemory>
    ensures { OnOk result (Adds (string_bytes out.old) (string_bytes out.new)
        (in_level (opening OpenBracket) (index_slots found.now ++ mark CloseBracket ∷ []))) }
{
    push_mark(out, Mark::OpenBracket)?;
    print_index(out, found)?;
    push_mark(out, Mark::CloseBracket)
}

/// What stands behind the parenthesis of a match.
fn print_named(out: &mut String, found: &Match) -> Result<(), OutOfMemory>
    ensures { OnOk result (Adds (string_bytes out.old) (string_bytes out.new) (group_slots found.now)) }
{
    push_name(out, "index")?;
    push_mark(out, Mark::Equals)?;
    print_bracket(out, found)?;
    push_mark(out, Mark::CloseParen)
}

/// A match.
fn print_match(out: &mut String, found: &Match) -> Result<(), OutOfMemory>
    ensures { OnOk result (Adds (string_bytes out.old) (string_bytes out.new) (match_slots found.now)) }
{
    push_name(out, "node_attr_match")?;
    push_mark(out, Mark::OpenParen)?;
    print_named(out, found)
}

/// A part of an expression.
#[cycle(print_factors)]
#[tactic(auto, using(cv_syntax::proofs::Weights::group_weight))]
fn print_factor(out: &mut String, factor: &Factor) -> Result<(), OutOfMemory>
    ensures { OnOk result (Adds (string_bytes out.old) (string_bytes out.new) (factor_slots factor.now)) }
{
    match factor {
        Factor::Not(inner) => {
            push_mark(out, Mark::Tilde)?;
            print_factor(out, inner.get())
        }
        Factor::Group(terms) => print_group(out, terms),
        Factor::Name(name) => print_name(out, name),
        Factor::Match(found) => print_match(out, found),
    }
}

/// An expression in parentheses.
#[cycle(print_factors)]
fn print_group(out: &mut String, terms: &Terms) -> Result<(), OutOfMemory>
    ensures { OnOk result (Adds (string_bytes out.old) (string_bytes out.new) (factor_slots (factors.Group terms.now))) }
{
    push_mark(out, Mark::OpenParen)?;
    print_terms(out, terms)?;
    push_mark(out, Mark::CloseParen)
}

/// Factors with `&` between them.
#[cycle(print_factors)]
fn print_term(out: &mut String, term: &Term) -> Result<(), OutOfMemory>
    ensures { OnOk result (Adds (string_bytes out.old) (string_bytes out.new) (sep_slots Ampersand factor_slots term.now)) }
{
    let Some((first, rest)) = term.as_slice().split_first() else {
        return Ok(());
    };
    print_factor(out, first)?;
    for factor in rest {
        push_mark(out, Mark::Ampersand)?;
        print_factor(out, factor)?;
    }
    Ok(())
}

/// Terms with `|` between them: an expression.
#[cycle(print_factors)]
pub(crate) fn print_terms(out: &mut String, terms: &Terms) -> Result<(), OutOfMemory>
    ensures { OnOk result (Adds (string_bytes out.old) (string_bytes out.new) (terms_slots terms.now)) }
{
    let Some((first, rest)) = terms.as_slice().split_first() else {
        return Ok(());
    };
    print_term(out, first)?;
    for term in rest {
        push_mark(out, Mark::Bar)?;
        print_term(out, term)?;
    }
    Ok(())
}
