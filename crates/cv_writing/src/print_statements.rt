//! Declarations and joins printed as text.

ghost use Rattle.std.specs.Prelude.{◌≡◌, string_bytes, OnOk};
ghost use Rattle.cv_syntax.specs.Spelling.{kind_slots, declare_slots, source_slots, target_slots, aim_slots, join_slots, statement_slots};
ghost use Rattle.cv_writing.specs.Printing.{Adds};

use crate::print_values::{close_args, print_literal, print_name};
use crate::separated::{Printable, print_separated};
use crate::writing::{push_mark, push_name, push_reserved};
use cv_lex::{Mark, Reserved};
use cv_syntax::{Aim, Declare, Join, JoinSource, KindName, Statement, Target};
use cv_token::OutOfMemory;
use sqlite_items::Items;

/// The name of a kind.
fn print_kind(out: &mut String, kind: &KindName) -> Result<(), OutOfMemory>
    ensures { OnOk result (Adds (string_bytes out.old) (string_bytes out.new) (kind_slots kind.now)) }
{
    match kind {
        KindName::Plain(name) => push_name(out, name.as_str()),
        KindName::Dotted(first, second) => {
            push_name(out, first.as_str())?;
            push_mark(out, Mark::Dot)?;
            push_name(out, second.as_str())
        }
    }
}

/// A declaration.
fn print_declare(out: &mut String, declare: &Declare) -> Result<(), OutOfMemory>
    ensures { OnOk result (Adds (string_bytes out.old) (string_bytes out.new) (declare_slots declare.now)) }
{
    print_name(out, &declare.name)?;
    push_mark(out, Mark::Colon)?;
    print_kind(out, &declare.kind)?;
    push_mark(out, Mark::OpenParen)?;
    close_args(out, &declare.args)
}

/// Where a join comes from.
fn print_source(out: &mut String, source: &JoinSource) -> Result<(), OutOfMemory>
    ensures { OnOk result (Adds (string_bytes out.old) (string_bytes out.new) (source_slots 0 source.now)) }
{
    match source {
        JoinSource::Voidport => push_reserved(out, Reserved::Voidport),
        JoinSource::Own(port) => {
            push_mark(out, Mark::Dot)?;
            push_name(out, port.as_str())
        }
        JoinSource::Port(actor, port) => {
            push_name(out, actor.as_str())?;
            push_mark(out, Mark::Dot)?;
            push_name(out, port.as_str())
        }
        JoinSource::Name(name) => push_name(out, name.as_str()),
        JoinSource::Literal(literal) => print_literal(out, literal),
    }
}

/// Where a join goes.
fn print_target(out: &mut String, target: &Target) -> Result<(), OutOfMemory>
    ensures { OnOk result (Adds (string_bytes out.old) (string_bytes out.new) (target_slots target.now)) }
{
    match target {
        Target::Voidport => push_reserved(out, Reserved::Voidport),
        Target::Own(port) => {
            push_mark(out, Mark::Dot)?;
            push_name(out, port.as_str())
        }
        Target::Port(actor, port) => {
            push_name(out, actor.as_str())?;
            push_mark(out, Mark::Dot)?;
            push_name(out, port.as_str())
        }
    }
}

/// A target, whatever its place.
fn print_aim(out: &mut String, aim: &Aim) -> Result<(), OutOfMemory>
    ensures { OnOk result (Adds (string_bytes out.old) (string_bytes out.new) (aim_slots aim.now)) }
{
    print_target(out, &aim.target)
}

impl Printable for Aim {
    ghost use Rattle.cv_syntax.specs.Spelling.{aim_slots};

    ghost spell = { aim_slots };

    fn print(&self, out: &mut String) -> Result<(), OutOfMemory> {
        print_aim(out, self)
    }
}

/// A join.
fn print_join(out: &mut String, join: &Join) -> Result<(), OutOfMemory>
    ensures { OnOk result (Adds (string_bytes out.old) (string_bytes out.new) (join_slots join.now)) }
{
    print_source(out, &join.source)?;
    push_mark(out, Mark::Greater)?;
    print_separated(out, Mark::Comma, &join.targets)
}

/// A declaration or a join.
pub(crate) fn print_statement(out: &mut String, statement: &Statement) -> Result<(), OutOfMemory>
    ensures { OnOk result (Adds (string_bytes out.old) (string_bytes out.new) (statement_slots statement.now)) }
{
    match statement {
        Statement::Declare(declare) => print_declare(out, declare),
        Statement::Join(join) => print_join(out, join),
    }
}
