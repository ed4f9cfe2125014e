//! The arguments of actors.

ghost use Rattle.std.specs.Prelude.{◌≡◌, IfOk, None, true};
ghost use Rattle.cv_kinds.specs.Sorts.{are_args};
ghost use Rattle.cv_graph.specs.Arguments.{value_given, given_of, tokenless, argument_place, args_fault, args_for, placed};
ghost use Rattle.cv_graph.specs.Faults.{Finds};

use crate::fault::GraphFault;
use crate::values::token_of;
use cv_expand::{Actor, Argument, Given};
use cv_kinds::{ArgFault, ArgList, Kind, check_args};
use cv_token::{Items, OutOfMemory};
use std::alloc::Global;

/// The arguments of an actor of that kind in the order of the kind's row, or what is wrong with them.
pub fn arguments(alloc: Global, kind: Kind, actor: &Actor) -> Result<Items, GraphFault>
    ensures found { Finds (args_fault kind actor.now) (args_for kind actor.now) result }
    ensures sorted { IfOk result (λ args. are_args kind args ≡ true) }
{
    let given = given_of(alloc, actor.args.as_slice())?;
    match check_args(alloc, kind, &given) {
        Ok(args) => Ok(args),
        Err(fault) => Err(place_fault(actor, fault)),
    }
}

/// A fault of arguments, at its place.
fn place_fault(actor: &Actor, fault: ArgFault) -> GraphFault
    ensures { result ≡ placed actor.now fault }
{
    match fault {
        ArgFault::Fraction { place } => GraphFault::Fraction {
            at: argument_place(actor, place),
        },
        ArgFault::BadArg { place } => GraphFault::BadArg {
            at: argument_place(actor, place),
        },
        ArgFault::Missing => GraphFault::BadArg { at: actor.at },
        ArgFault::OutOfMemory => GraphFault::OutOfMemory,
    }
}

/// The place of the argument of that number.
fn argument_place(actor: &Actor, number: usize) -> u32
    ensures { result ≡ argument_place actor.now number }
{
    match actor.args.get(number) {
        Some(argument) => argument.name.at,
        None => actor.at,
    }
}

/// The arguments as a kind is given them.
fn given_of(alloc: Global, args: &[Argument]) -> Result<ArgList, GraphFault>
    ensures { Finds (tokenless args.now) (given_of args.now) result }
{
    let mut given = ArgList::new(alloc);
    for argument in args {
        let Some(value) = value_given(alloc, &argument.given)? else {
            return Err(GraphFault::BadArg {
                at: argument.name.at,
            });
        };
        let name = argument.name.text.as_text().copy(alloc)?;
        given.push(cv_kinds::Argument { name, value })?;
    }
    Ok(given)
}

/// What a value is to a kind; None for a literal that has no token.
fn value_given(alloc: Global, given: &Given) -> Result<Option<cv_kinds::Given>, OutOfMemory>
    ensures { IfOk result (λ value. value ≡ value_given given.now) }
{
    match given {
        Given::Literal(literal) => Ok(token_of(alloc, literal)?.map(cv_kinds::Given::Token)),
        Given::Fraction(digits) => Ok(Some(cv_kinds::Given::Fraction(digits.copy(alloc)?))),
    }
}
