//! What the walk knows where it is.

ghost use Rattle.std.specs.Prelude.{◌≡◌, ◌<◌, ◌^◌, IfOk};
ghost use Rattle.cv_expand.specs.Walk.{nothing_seen, seen_with, is_value, root_spot};

use crate::components::Components;
use crate::flat::Given;
use crate::named::Named;
use crate::path::Path;
use cv_lex::NameText;
use cv_syntax::{JoinSource, Statement};
use cv_token::OutOfMemory;
use sqlite_items::Items;
use std::alloc::Global;

/// What is known everywhere: the components, and the constants that are defined.
#[derive(Drop)]
pub struct World<'a> {
    pub components: Components<'a>,
    pub defines: Named<Given>,
}

/// Where the walk is: the components that are open, the path, and the values of the arguments by their names.
#[derive(Drop)]
pub struct Spot {
    pub opened: Items<NameText>,
    pub path: Path,
    pub values: Named<Given>,
}

/// What was met in a body so far: the names that are declared, and how many joins have a value as their source.
#[derive(Drop)]
pub struct Seen {
    pub names: Items<NameText>,
    pub constants: usize,
}

/// The root, which knows no arguments.
pub(crate) fn root_spot(alloc: Global) -> Spot
    ensures { result ≡ root_spot }
{
    Spot {
        opened: Items::new(alloc),
        path: Path::new(alloc),
        values: Named::new(alloc),
    }
}

/// Nothing was met yet.
pub(crate) fn nothing_seen(alloc: Global) -> Seen
    ensures { result ≡ nothing_seen }
{
    Seen {
        names: Items::new(alloc),
        constants: 0,
    }
}

/// What was met, and one more statement.
pub(crate) fn note_statement(
    alloc: Global,
    seen: Seen,
    statement: &Statement,
) -> Result<Seen, OutOfMemory>
    requires { seen.constants < 2 ^ 63 }
    ensures { IfOk result (λ more. more ≡ seen_with seen statement.now) }
{
    let Seen { names, constants } = seen;
    match statement {
        Statement::Declare(declare) => {
            let mut names = names;
            names.push(declare.name.text.copy(alloc)?)?;
            Ok(Seen { names, constants })
        }
        Statement::Join(join) => {
            let constants = if is_value(&join.source) {
                constants + 1
            } else {
                constants
            };
            Ok(Seen { names, constants })
        }
    }
}

/// Whether a source is a value.
fn is_value(source: &JoinSource) -> bool
    ensures { result ≡ is_value source.now }
{
    matches!(source, JoinSource::Literal(_) | JoinSource::Name(_))
}
