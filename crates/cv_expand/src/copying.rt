//! Equal literals, values, names and targets of their own.

ghost use Rattle.std.specs.Prelude.{◌≡◌, [], ◌∷◌, ◌++◌, IfOk};
ghost use Rattle.cv_expand.specs.Lookup.{has};

use crate::flat::Given;
use cv_lex::NameText;
use cv_readers::Name;
use cv_syntax::{Literal, Literals, Pairs, Target};
use cv_token::{OutOfMemory, Pair};
use sqlite_items::Items;
use std::alloc::Global;

/// An equal literal.
#[cycle(copy)]
pub(crate) fn copy_literal(alloc: Global, literal: &Literal) -> Result<Literal, OutOfMemory>
    ensures { IfOk result (λ copy. copy ≡ literal.now) }
{
    match literal {
        Literal::Null => Ok(Literal::Null),
        Literal::Bool(truth) => Ok(Literal::Bool(*truth)),
        Literal::Int(number) => Ok(Literal::Int(*number)),
        Literal::Text(text) => Ok(Literal::Text(text.copy(alloc)?)),
        Literal::List(literals) => Ok(Literal::List(copy_literals(alloc, literals)?)),
        Literal::Dict(pairs) => Ok(Literal::Dict(copy_pairs(alloc, pairs)?)),
    }
}

#[cycle(copy)]
fn copy_literals(alloc: Global, literals: &Literals) -> Result<Literals, OutOfMemory>
    ensures { IfOk result (λ copies. copies ≡ literals.now) }
{
    let mut copies = Items::new(alloc);
    for literal in literals.as_slice() {
        copies.push(copy_literal(alloc, literal)?)?;
    }
    Ok(copies)
}

#[cycle(copy)]
fn copy_pairs(alloc: Global, pairs: &Pairs) -> Result<Pairs, OutOfMemory>
    ensures { IfOk result (λ copies. copies ≡ pairs.now) }
{
    let mut copies = Items::new(alloc);
    for pair in pairs.as_slice() {
        let key = pair.key.copy(alloc)?;
        let value = copy_literal(alloc, &pair.value)?;
        copies.push(Pair { key, value })?;
    }
    Ok(copies)
}

/// An equal value.
pub(crate) fn copy_given(alloc: Global, given: &Given) -> Result<Given, OutOfMemory>
    ensures { IfOk result (λ copy. copy ≡ given.now) }
{
    match given {
        Given::Literal(literal) => Ok(Given::Literal(copy_literal(alloc, literal)?)),
        Given::Fraction(digits) => Ok(Given::Fraction(digits.copy(alloc)?)),
    }
}

/// An equal name.
pub(crate) fn copy_name(alloc: Global, name: &Name) -> Result<Name, OutOfMemory>
    ensures { IfOk result (λ copy. copy ≡ name.now) }
{
    let text = name.text.copy(alloc)?;
    Ok(Name { text, at: name.at })
}

/// Equal names.
pub(crate) fn copy_names(alloc: Global, names: &[Name]) -> Result<Items<Name>, OutOfMemory>
    ensures { IfOk result (λ copies. copies ≡ names.now) }
{
    let mut copies = Items::new(alloc);
    for name in names {
        copies.push(copy_name(alloc, name)?)?;
    }
    Ok(copies)
}

/// An equal target.
pub(crate) fn copy_target(alloc: Global, target: &Target) -> Result<Target, OutOfMemory>
    ensures { IfOk result (λ copy. copy ≡ target.now) }
{
    match target {
        Target::Voidport => Ok(Target::Voidport),
        Target::Own(port) => Ok(Target::Own(port.copy(alloc)?)),
        Target::Port(actor, port) => {
            let actor = actor.copy(alloc)?;
            Ok(Target::Port(actor, port.copy(alloc)?))
        }
    }
}

/// Equal names, with one more behind them.
pub(crate) fn names_with(
    alloc: Global,
    names: &[NameText],
    name: &NameText,
) -> Result<Items<NameText>, OutOfMemory>
    ensures { IfOk result (λ more. more ≡ names.now ++ name.now ∷ []) }
{
    let mut more = Items::new(alloc);
    for one in names {
        more.push(one.copy(alloc)?)?;
    }
    more.push(name.copy(alloc)?)?;
    Ok(more)
}

/// Whether a name stands in a list.
pub(crate) fn has(names: &[NameText], name: &NameText) -> bool
    ensures { result ≡ has names.now name.now }
{
    for one in names {
        if one.as_str() == name.as_str() {
            return true;
        }
    }
    false
}
