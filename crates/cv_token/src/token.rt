//! `Token`: the values that travel between actors.

ghost use Rattle.std.specs.Prelude.{◌≡◌, ◌↔◌, IfOk, IsTrue};

use crate::pairs::{Pair, PairsOf};
use crate::utf8::Text;
use std::alloc::{AllocError, Global};

/// Want of memory, the one refusal that no clause ties to a cause.
pub type OutOfMemory = AllocError;

/// A list of tokens.
pub type Items = sqlite_items::Items<Token>;

/// The pairs of a dictionary; their keys rise by bytes.
pub type Pairs = PairsOf<Token>;

/// A value that travels between actors. Contracts see it as the tree that it is.
#[derive(Drop)]
pub enum Token {
    Null,
    Bool(bool),
    Int(i64),
    Text(Text),
    List(Items),
    Dict(Pairs),
}

impl Token {
    /// An equal token of its own.
    #[cycle(copy)]
    pub fn copy(&self, alloc: Global) -> Result<Token, OutOfMemory>
        ensures { IfOk result (λ t. t ≡ self.now) }
    {
        match self {
            Token::Null => Ok(Token::Null),
            Token::Bool(truth) => Ok(Token::Bool(*truth)),
            Token::Int(number) => Ok(Token::Int(*number)),
            Token::Text(text) => Ok(Token::Text(text.copy(alloc)?)),
            Token::List(items) => Ok(Token::List(copy_items(alloc, items)?)),
            Token::Dict(pairs) => Ok(Token::Dict(copy_pairs(alloc, pairs)?)),
        }
    }
}

/// An equal list of its own.
#[cycle(copy)]
pub fn copy_items(alloc: Global, items: &Items) -> Result<Items, OutOfMemory>
    ensures { IfOk result (λ list. list ≡ items.now) }
{
    let mut copies = Items::new(alloc);
    for item in items.as_slice() {
        copies.push(item.copy(alloc)?)?;
    }
    Ok(copies)
}

/// Equal pairs of their own.
#[cycle(copy)]
pub fn copy_pairs(alloc: Global, pairs: &Pairs) -> Result<Pairs, OutOfMemory>
    ensures { IfOk result (λ list. list ≡ pairs.now) }
{
    let mut copies = sqlite_items::Items::new(alloc);
    for pair in pairs.as_slice() {
        let key = pair.key.copy(alloc)?;
        let value = pair.value.copy(alloc)?;
        copies.push(Pair { key, value })?;
    }
    Ok(PairsOf::from_items(copies))
}
