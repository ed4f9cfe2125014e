//! A script as it is written. An `at` is the place, in bytes, of the lexeme at which a fault can stand.

use cv_lex::NameText;
use cv_readers::Name;
use cv_token::{Pair, Text};
use sqlite_items::{Boxed, Items};

/// A list of literals.
pub type Literals = Items<Literal>;

/// Pairs of a dictionary in written order; a key may stand twice.
pub type Pairs = Items<Pair<Literal>>;

/// A token as it is written.
#[derive(Drop)]
pub enum Literal {
    Null,
    Bool(bool),
    Int(i64),
    Text(Text),
    List(Literals),
    Dict(Pairs),
}

/// What an argument or a constant is given.
#[derive(Drop)]
pub enum Value {
    Literal(Literal),
    /// The letters of a number with a fraction.
    Fraction(Text),
    Name(Name),
}

/// `name = value`.
#[derive(Drop)]
pub struct Arg {
    pub name: Name,
    pub value: Value,
}

/// The name of what a declaration makes.
#[derive(Drop)]
pub enum KindName {
    /// `A`, a component.
    Plain(NameText),
    /// `std.Constant`, a kind.
    Dotted(NameText, NameText),
}

/// `name : kind(args)`.
#[derive(Drop)]
pub struct Declare {
    pub name: Name,
    pub kind: KindName,
    pub args: Items<Arg>,
}

/// Where a join comes from.
#[derive(Drop)]
pub enum JoinSource {
    Voidport,
    /// `.port`, an inport of the component itself.
    Own(NameText),
    /// `actor.port`, an outport.
    Port(NameText, NameText),
    /// A bare name, which stands for a value.
    Name(NameText),
    Literal(Literal),
}

/// Where a join goes.
#[derive(Drop)]
pub enum Target {
    Voidport,
    /// `.port`, an outport of the component itself.
    Own(NameText),
    /// `actor.port`, an inport.
    Port(NameText, NameText),
}

/// A target, and the place of its first lexeme.
#[derive(Drop)]
pub struct Aim {
    pub at: u32,
    pub target: Target,
}

/// `source > target, ..`; `at` is the place of the source's first lexeme. There is at least one target.
#[derive(Drop)]
pub struct Join {
    pub at: u32,
    pub source: JoinSource,
    pub targets: Items<Aim>,
}

/// A declaration or a join.
#[derive(Drop)]
pub enum Statement {
    Declare(Declare),
    Join(Join),
}

/// `component name(args) inports -> outports { body }`.
#[derive(Drop)]
pub struct Component {
    pub name: Name,
    pub args: Items<Name>,
    pub inports: Items<Name>,
    pub outports: Items<Name>,
    pub body: Items<Statement>,
}

/// `define name = value`.
#[derive(Drop)]
pub struct Define {
    pub name: Name,
    pub value: Value,
}

/// `node_attr_match(index=[group, {field: value, ..}])`.
#[derive(Drop)]
pub struct Match {
    pub group: Text,
    pub fields: Items<Pair<Text>>,
}

/// Factors that `&` joins, from the left. There is at least one.
pub type Term = Items<Factor>;

/// Terms that `|` joins, from the left. There is at least one.
pub type Terms = Items<Term>;

/// A part of an expression.
#[derive(Drop)]
pub enum Factor {
    /// `~ factor`.
    Not(Boxed<Factor>),
    /// An expression in parentheses.
    Group(Terms),
    /// A rule of this name.
    Name(Name),
    Match(Match),
}

/// `rule name: expression`; `at` is the place of `rule`.
#[derive(Drop)]
pub struct NamedRule {
    pub at: u32,
    pub name: Name,
    pub terms: Terms,
}

/// `apply names: expression`; `at` is the place of `apply`. There is at least one name.
#[derive(Drop)]
pub struct Apply {
    pub at: u32,
    pub names: Items<Name>,
    pub terms: Terms,
}

/// What stands at the root of a script.
#[derive(Drop)]
pub enum Item {
    Component(Component),
    Define(Define),
    Rule(NamedRule),
    Apply(Apply),
    Statement(Statement),
}

/// A script: its items in written order.
#[derive(Drop)]
pub struct Script {
    pub items: Items<Item>,
}
