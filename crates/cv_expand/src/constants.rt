//! The constants that a script defines.

ghost use Rattle.std.specs.Prelude.{◌≡◌, [], ◌++◌, IfOk};
ghost use Rattle.cv_expand.specs.Heads.{defines_in, constant_of, constant_with, constants_from, define_fault, define_faults, value_place};
ghost use Rattle.cv_expand.specs.Runs.{Answers, unless};

use crate::copying::{copy_given, copy_literal};
use crate::fault::ExpandFault;
use crate::flat::Given;
use crate::named::Named;
use cv_syntax::{Define, Item, Value};
use cv_token::OutOfMemory;
use std::alloc::Global;

/// What a value stands for among the constants before it.
fn constant_of(
    alloc: Global,
    constants: &Named<Given>,
    value: &Value,
) -> Result<Option<Given>, OutOfMemory>
    ensures { IfOk result (λ given. given ≡ constant_of constants.now value.now) }
{
    match value {
        Value::Literal(literal) => Ok(Some(Given::Literal(copy_literal(alloc, literal)?))),
        Value::Fraction(digits) => Ok(Some(Given::Fraction(digits.copy(alloc)?))),
        Value::Name(name) => match constants.get(name.text.as_str()) {
            Some(given) => Ok(Some(copy_given(alloc, given)?)),
            None => Ok(None),
        },
    }
}

/// The place of a value that is a name.
fn value_place(define: &Define) -> u32
    ensures { result ≡ value_place define.now }
{
    match &define.value {
        Value::Name(name) => name.at,
        _ => define.name.at,
    }
}

/// The constants, and one more behind them.
fn with_constant(
    alloc: Global,
    constants: Named<Given>,
    define: &Define,
) -> Result<Named<Given>, ExpandFault>
    ensures { Answers result (unless (define_fault constants define.now) (constants ++ constant_with define.now (constant_of constants (define.now).value))) }
{
    if constants.has(define.name.text.as_str()) {
        return Err(ExpandFault::DoubleName { at: define.name.at });
    }
    let Some(given) = constant_of(alloc, &constants, &define.value)? else {
        return Err(ExpandFault::NoArg {
            at: value_place(define),
        });
    };
    Ok(constants.with(alloc, define.name.text.as_text().copy(alloc)?, given)?)
}

/// The constants of a script, each from those before it.
pub(crate) fn constants(alloc: Global, script: &[Item]) -> Result<Named<Given>, ExpandFault>
    ensures { Answers result (unless (define_faults [] (defines_in script.now)) (constants_from [] (defines_in script.now))) }
{
    let mut constants = Named::new(alloc);
    for item in script {
        if let Item::Define(define) = item {
            constants = with_constant(alloc, constants, define)?;
        }
    }
    Ok(constants)
}
