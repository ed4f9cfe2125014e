//! Scripts as they are written: the tree and the parser.
#![tactic(auto)]

pub mod fault;
mod nested;
pub mod parsing;
mod roots;
mod rows;
mod separated;
mod small;
mod statements;
pub mod tree;

pub use cv_readers::Name;
pub use fault::ParseFault;
pub use parsing::parse;
pub use tree::{
    Aim, Apply, Arg, Component, Declare, Define, Factor, Item, Join, JoinSource, KindName, Literal,
    Literals, Match, NamedRule, Pairs, Script, Statement, Target, Term, Terms, Value,
};
