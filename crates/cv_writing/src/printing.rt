//! A script printed as text that is read as the same script.

ghost use Rattle.std.specs.Prelude.{◌≡◌, string_bytes, OnOk, IfOk};
ghost use Rattle.cv_readers.specs.Slots.{all_slots, listed_slots};
ghost use Rattle.cv_syntax.specs.Spelling.{name_slots, statement_slots, component_slots, define_slots, rule_slots, apply_slots, item_slots, script_slots};
ghost use Rattle.cv_writing.specs.Printing.{Adds, head_slots, printed};
ghost use Rattle.cv_syntax.specs.Asides.{CanBeWritten, ReadsBack};

use crate::print_rules::print_terms;
use crate::print_statements::print_statement;
use crate::print_values::{print_name, print_value};
use crate::separated::print_separated;
use crate::writing::{push_mark, push_reserved};
use cv_lex::{Mark, Reserved};
use cv_readers::Name;
use cv_syntax::{Apply, Component, Define, Item, NamedRule, Script, Statement};
use cv_token::{OutOfMemory, Text};
use sqlite_items::Items;
use std::alloc::Global;

/// Statements, one behind another.
fn print_statements(out: &mut String, statements: &Items<Statement>) -> Result<(), OutOfMemory>
    ensures { OnOk result (Adds (string_bytes out.old) (string_bytes out.new) (all_slots statement_slots statements.now)) }
{
    for statement in statements.as_slice() {
        print_statement(out, statement)?;
    }
    Ok(())
}

/// Names, and the mark behind them.
fn close_names(out: &mut String, names: &Items<Name>, close: Mark) -> Result<(), OutOfMemory>
    ensures { OnOk result (Adds (string_bytes out.old) (string_bytes out.new) (listed_slots close name_slots names.now)) }
{
    print_separated(out, Mark::Comma, names)?;
    push_mark(out, close)
}

/// A component's name, arguments, inports and outports.
fn print_head(out: &mut String, component: &Component) -> Result<(), OutOfMemory>
    ensures { OnOk result (Adds (string_bytes out.old) (string_bytes out.new) (head_slots component.now)) }
{
    print_name(out, &component.name)?;
    push_mark(out, Mark::OpenParen)?;
    close_names(out, &component.args, Mark::CloseParen)?;
    close_names(out, &component.inports, Mark::Arrow)?;
    close_names(out, &component.outports, Mark::OpenBrace)
}

/// A component.
fn print_component(out: &mut String, component: &Component) -> Result<(), OutOfMemory>
    ensures { OnOk result (Adds (string_bytes out.old) (string_bytes out.new) (component_slots component.now)) }
{
    push_reserved(out, Reserved::Component)?;
    print_head(out, component)?;
    print_statements(out, &component.body)?;
    push_mark(out, Mark::CloseBrace)
}

/// A constant.
fn print_define(out: &mut String, define: &Define) -> Result<(), OutOfMemory>
    ensures { OnOk result (Adds (string_bytes out.old) (string_bytes out.new) (define_slots define.now)) }
{
    push_reserved(out, Reserved::Define)?;
    print_name(out, &define.name)?;
    push_mark(out, Mark::Equals)?;
    print_value(out, &define.value)
}

/// A rule with a name.
fn print_rule(out: &mut String, rule: &NamedRule) -> Result<(), OutOfMemory>
    ensures { OnOk result (Adds (string_bytes out.old) (string_bytes out.new) (rule_slots rule.now)) }
{
    push_reserved(out, Reserved::Rule)?;
    print_name(out, &rule.name)?;
    push_mark(out, Mark::Colon)?;
    print_terms(out, &rule.terms)
}

/// A rule for actors.
fn print_apply(out: &mut String, apply: &Apply) -> Result<(), OutOfMemory>
    ensures { OnOk result (Adds (string_bytes out.old) (string_bytes out.new) (apply_slots apply.now)) }
{
    push_reserved(out, Reserved::Apply)?;
    print_separated(out, Mark::Comma, &apply.names)?;
    push_mark(out, Mark::Colon)?;
    print_terms(out, &apply.terms)
}

/// What stands at the root.
fn print_item(out: &mut String, item: &Item) -> Result<(), OutOfMemory>
    ensures { OnOk result (Adds (string_bytes out.old) (string_bytes out.new) (item_slots item.now)) }
{
    match item {
        Item::Component(component) => print_component(out, component),
        Item::Define(define) => print_define(out, define),
        Item::Rule(rule) => print_rule(out, rule),
        Item::Apply(apply) => print_apply(out, apply),
        Item::Statement(statement) => print_statement(out, statement),
    }
}

/// The items of a script, one behind another.
fn print_items(out: &mut String, items: &Items<Item>) -> Result<(), OutOfMemory>
    ensures { OnOk result (Adds (string_bytes out.old) (string_bytes out.new) (all_slots item_slots items.now)) }
{
    for item in items.as_slice() {
        print_item(out, item)?;
    }
    Ok(())
}

/// A text of the script: its words with a space behind each.
pub fn print(alloc: Global, script: &Script) -> Result<Text, OutOfMemory>
    requires { CanBeWritten script.now }
    // The text is read as the same script, places aside.
    ensures read_back { IfOk result (λ text. ReadsBack script.now text) }
    // Which text it is.
    ensures exact { IfOk result (λ text. text ≡ printed (script_slots script.now)) }
{
    let mut out = String::new(alloc);
    print_items(&mut out, &script.items)?;
    Ok(Text::from_string(out))
}
