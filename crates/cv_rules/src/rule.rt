//! `Rule`: what an actor asks of the node that it is to live on.

ghost use Rattle.std.specs.Prelude.{◌≡◌, IfOk};

use crate::attrs::copy_texts;
use cv_token::{OutOfMemory, PairsOf, Text};
use sqlite_items::Boxed;
use std::alloc::Global;

/// Texts by fields, which rise.
pub type Fields = PairsOf<Text>;

/// What an actor asks of a node's attributes.
#[derive(Drop)]
pub enum Rule {
    /// Nothing.
    Any,
    /// `Match(group, fields)`: for each field, that the attribute `group.field` is that text.
    Match(Text, Fields),
    And(Boxed<Rule>, Boxed<Rule>),
    Or(Boxed<Rule>, Boxed<Rule>),
    Not(Boxed<Rule>),
}

impl Rule {
    /// An equal rule of its own.
    #[cycle(copy)]
    pub fn copy(&self, alloc: Global) -> Result<Rule, OutOfMemory>
        ensures { IfOk result (λ r. r ≡ self.now) }
    {
        match self {
            Rule::Any => Ok(Rule::Any),
            Rule::Match(group, fields) => {
                let group = group.copy(alloc)?;
                Ok(Rule::Match(group, copy_texts(alloc, fields)?))
            }
            Rule::And(one, other) => {
                let one = copy_boxed(alloc, one)?;
                Ok(Rule::And(one, copy_boxed(alloc, other)?))
            }
            Rule::Or(one, other) => {
                let one = copy_boxed(alloc, one)?;
                Ok(Rule::Or(one, copy_boxed(alloc, other)?))
            }
            Rule::Not(rule) => Ok(Rule::Not(copy_boxed(alloc, rule)?)),
        }
    }
}

/// An equal rule in a box of its own.
#[cycle(copy)]
fn copy_boxed(alloc: Global, rule: &Boxed<Rule>) -> Result<Boxed<Rule>, OutOfMemory>
    ensures { IfOk result (λ r. r ≡ rule.now) }
{
    Boxed::new(alloc, rule.get().copy(alloc)?)
}
