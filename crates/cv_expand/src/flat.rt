//! What a script is expanded to.

ghost use Rattle.std.specs.Prelude.{◌≡◌};
ghost use Rattle.cv_expand.specs.Flat.{IsFlat};

use crate::path::{Path, Step};
use cv_lex::NameText;
use cv_readers::Name;
use cv_syntax::{Apply, Literal, NamedRule, Target};
use cv_token::Text;
use sqlite_items::Items;
use std::marker::Model;

/// The value of an argument, with names replaced by what they stand for.
#[derive(Drop)]
pub enum Given {
    Literal(Literal),
    /// The letters of a number with a fraction.
    Fraction(Text),
}

/// An argument of an actor, with its place.
#[derive(Drop)]
pub struct Argument {
    pub name: Name,
    pub given: Given,
}

/// An actor: its path, its kind as written, its arguments in written order, and its place.
#[derive(Drop)]
pub struct Actor {
    pub path: Path,
    pub kind: Text,
    pub args: Items<Argument>,
    pub at: u32,
}

/// A component instance: its path, its component, the ports of the component's head, and its place.
#[derive(Drop)]
pub struct Instance {
    pub path: Path,
    pub component: NameText,
    pub inports: Items<Name>,
    pub outports: Items<Name>,
    pub at: u32,
}

/// Where a join comes from.
#[derive(Drop)]
pub enum Origin {
    Void,
    /// An inport of the body's own instance.
    Own(NameText),
    /// An outport of what stands in the body one step further.
    Port(Step, NameText),
}

/// A join to one target: the path of its body, its source with the source's place, its target with the target's place.
#[derive(Drop)]
pub struct Feed {
    pub body: Path,
    pub origin: Origin,
    pub at: u32,
    pub target: Target,
    pub target_at: u32,
}

/// Actors, instances and joins in the order in which the walk meets them; rules and applies as they are written.
#[derive(Drop)]
pub struct Parts {
    pub actors: Items<Actor>,
    pub instances: Items<Instance>,
    pub feeds: Items<Feed>,
    pub rules: Items<NamedRule>,
    pub applies: Items<Apply>,
}

/// A script with its components inlined: at most 256 actors and instances together, no two at one path, and at most 4,096
/// joins. Contracts see its parts.
#[derive(Drop)]
pub struct Flat {
    parts: Parts,
}

impl Model for Flat {
    ghost use Rattle.std.specs.Coded.{codes};
    ghost use Rattle.cv_syntax.specs.contracts.tree.Factor as factor;
    ghost use Rattle.cv_syntax.specs.contracts.tree.Literal as literal;
    ghost use Rattle.cv_expand.specs.declared.flat.Parts.{Parts};
    ghost use Rattle.cv_expand.specs.Flat.{IsFlat};

    ghost Value = { Parts };

    ghost coded = { Prim.hlevel (codes, literal.the_row.coded, factor.the_row.coded) };

    ghost view = { λ f. f.parts };

    ghost invariant = { λ f. IsFlat f.parts };
}

impl Flat {
    /// What these parts are; it takes no memory.
    pub(crate) fn new(parts: Parts) -> Flat
        requires { IsFlat parts }
        ensures { result ≡ parts }
    {
        Flat { parts }
    }

    /// The parts.
    pub fn parts(&self) -> &Parts
        ensures value { result.now ≡ self.now }
        ensures flat { IsFlat self.now }
    {
        &self.parts
    }
}
