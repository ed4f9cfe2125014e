//! Literals, values and arguments printed as text.

ghost use Rattle.std.specs.Prelude.{◌≡◌, [], ◌∷◌, string_bytes, OnOk};
ghost use Rattle.cv_lex.specs.declared.word.Mark.TheVariants.{CloseParen, Comma};
ghost use Rattle.cv_lex.specs.declared.word.Word.TheVariants as words;
ghost use Rattle.cv_readers.specs.Slots.{just, sep_slots, listed_slots};
ghost use Rattle.cv_syntax.specs.declared.tree.Literal.TheVariants as literals;
ghost use Rattle.cv_syntax.specs.Spelling.{name_slots, literal_slots, value_slots, arg_slots};
ghost use Rattle.cv_writing.specs.Printing.{Adds, entry_of, pair_slots};

use crate::separated::{Printable, print_separated};
use crate::writing::{push_fraction, push_int, push_mark, push_name, push_reserved, push_text};
use cv_lex::{Mark, Reserved};
use cv_readers::Name;
use cv_syntax::{Arg, Literal, Literals, Pairs, Value};
use cv_token::{OutOfMemory, Text};
use sqlite_items::Items;

/// A name, whatever its place.
pub(crate) fn print_name(out: &mut String, name: &Name) -> Result<(), OutOfMemory>
    ensures { OnOk result (Adds (string_bytes out.old) (string_bytes out.new) (name_slots name.now)) }
{
    push_name(out, name.text.as_str())
}

impl Printable for Name {
    ghost use Rattle.cv_syntax.specs.Spelling.{name_slots};

    ghost spell = { name_slots };

    fn print(&self, out: &mut String) -> Result<(), OutOfMemory> {
        print_name(out, self)
    }
}

/// A text.
pub(crate) fn print_text(out: &mut String, text: &Text) -> Result<(), OutOfMemory>
    ensures { OnOk result (Adds (string_bytes out.old) (string_bytes out.new) (just (words.Text text.now) ∷ [])) }
{
    push_text(out, text.as_str())
}

/// A literal.
#[cycle(print_literals)]
pub(crate) fn print_literal(out: &mut String, literal: &Literal) -> Result<(), OutOfMemory>
    ensures { OnOk result (Adds (string_bytes out.old) (string_bytes out.new) (literal_slots literal.now)) }
{
    match literal {
        Literal::Null => push_reserved(out, Reserved::Null),
        Literal::Bool(true) => push_reserved(out, Reserved::True),
        Literal::Bool(false) => push_reserved(out, Reserved::False),
        Literal::Int(number) => push_int(out, *number),
        Literal::Text(text) => print_text(out, text),
        Literal::List(items) => print_list(out, items),
        Literal::Dict(pairs) => print_dict(out, pairs),
    }
}

/// A list in its brackets.
#[cycle(print_literals)]
fn print_list(out: &mut String, list: &Literals) -> Result<(), OutOfMemory>
    ensures { OnOk result (Adds (string_bytes out.old) (string_bytes out.new) (literal_slots (literals.List list.now))) }
{
    push_mark(out, Mark::OpenBracket)?;
    print_literals(out, list)?;
    push_mark(out, Mark::CloseBracket)
}

/// Literals with commas between them.
#[cycle(print_literals)]
fn print_literals(out: &mut String, list: &Literals) -> Result<(), OutOfMemory>
    ensures { OnOk result (Adds (string_bytes out.old) (string_bytes out.new) (sep_slots Comma literal_slots list.now)) }
{
    let Some((first, rest)) = list.as_slice().split_first() else {
        return Ok(());
    };
    print_literal(out, first)?;
    for literal in rest {
        push_mark(out, Mark::Comma)?;
        print_literal(out, literal)?;
    }
    Ok(())
}

/// A dictionary in its braces.
#[cycle(print_literals)]
fn print_dict(out: &mut String, pairs: &Pairs) -> Result<(), OutOfMemory>
    ensures { OnOk result (Adds (string_bytes out.old) (string_bytes out.new) (literal_slots (literals.Dict pairs.now))) }
{
    push_mark(out, Mark::OpenBrace)?;
    print_pairs(out, pairs)?;
    push_mark(out, Mark::CloseBrace)
}

/// Pairs with commas between them.
#[cycle(print_literals)]
fn print_pairs(out: &mut String, pairs: &Pairs) -> Result<(), OutOfMemory>
    ensures { OnOk result (Adds (string_bytes out.old) (string_bytes out.new) (sep_slots Comma pair_slots pairs.now)) }
{
    let Some((first, rest)) = pairs.as_slice().split_first() else {
        return Ok(());
    };
    print_pair(out, &first.key, &first.value)?;
    for pair in rest {
        push_mark(out, Mark::Comma)?;
        print_pair(out, &pair.key, &pair.value)?;
    }
    Ok(())
}

/// A key and its value.
#[cycle(print_literals)]
fn print_pair(out: &mut String, key: &Text, value: &Literal) -> Result<(), OutOfMemory>
    ensures { OnOk result (Adds (string_bytes out.old) (string_bytes out.new) (entry_of key.now value.now)) }
{
    print_text(out, key)?;
    push_mark(out, Mark::Colon)?;
    print_literal(out, value)
}

/// A value.
pub(crate) fn print_value(out: &mut String, value: &Value) -> Result<(), OutOfMemory>
    ensures { OnOk result (Adds (string_bytes out.old) (string_bytes out.new) (value_slots value.now)) }
{
    match value {
        Value::Literal(literal) => print_literal(out, literal),
        Value::Fraction(digits) => push_fraction(out, digits.as_str()),
        Value::Name(name) => print_name(out, name),
    }
}

/// An argument.
fn print_arg(out: &mut String, arg: &Arg) -> Result<(), OutOfMemory>
    ensures { OnOk result (Adds (string_bytes out.old) (string_bytes out.new) (arg_slots arg.now)) }
{
    print_name(out, &arg.name)?;
    push_mark(out, Mark::Equals)?;
    print_value(out, &arg.value)
}

impl Printable for Arg {
    ghost use Rattle.cv_syntax.specs.Spelling.{arg_slots};

    ghost spell = { arg_slots };

    fn print(&self, out: &mut String) -> Result<(), OutOfMemory> {
        print_arg(out, self)
    }
}

/// Arguments, and the parenthesis behind them.
pub(crate) fn close_args(out: &mut String, args: &Items<Arg>) -> Result<(), OutOfMemory>
    ensures { OnOk result (Adds (string_bytes out.old) (string_bytes out.new) (listed_slots CloseParen arg_slots args.now)) }
{
    print_separated(out, Mark::Comma, args)?;
    push_mark(out, Mark::CloseParen)
}
