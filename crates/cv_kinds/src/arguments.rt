//! The arguments of an actor: what is given, checked against the parameters of its kind.

ghost use Rattle.std.specs.Prelude.{◌≡◌, ◌==◌, ◌&&◌, map, Some, None, Err, IfOk, MatchResult, true, is_some, is_none, option_map, unwrap_or};
ghost use Rattle.std.specs.List.{list_any};
ghost use Rattle.cv_token.specs.declared.token.Token.TheVariants as token;
ghost use Rattle.cv_kinds.specs.Table.{line_of, taking};
ghost use Rattle.cv_kinds.specs.Arguments.{arguments_of, argument_of, fault_at, fault_for, fault_of, faults_from, is_lacking, is_required, last_given, plain_token, preset_token, sort_named, token_given};
ghost use Rattle.cv_kinds.specs.Sorts.{are_args};
ghost use Rattle.cv_kinds.specs.declared.arguments.ArgFault.{ArgFault};
ghost use Rattle.cv_kinds.specs.declared.arguments.ArgFault.TheVariants as faults;

use crate::duration::milliseconds_of;
use crate::kind::Kind;
use crate::sorts::is_of;
use crate::table::{Param, Preset, Sort};
use cv_token::{Items, OutOfMemory, Text, Token, fits};
use std::alloc::{AllocError, Global};

/// What stands as the value of an argument.
#[derive(Drop)]
pub enum Given {
    Token(Token),
    /// The text of a number with a point, as scripts write it.
    Fraction(Text),
}

/// An argument as it is written: its name and its value.
#[derive(Drop)]
pub struct Argument {
    pub name: Text,
    pub value: Given,
}

/// The arguments of an actor, in written order.
pub type ArgList = sqlite_items::Items<Argument>;

/// Why arguments are none of a kind. A place counts arguments from 0.
#[derive(Debug, Clone, Copy, PartialEq, Eq)]
pub enum ArgFault {
    /// A fraction stands for an argument that is no duration.
    Fraction { place: usize },
    /// The kind has no parameter of that name, or the value is none that it takes.
    BadArg { place: usize },
    /// An argument that is required is not there.
    Missing,
    OutOfMemory,
}

impl From<AllocError> for ArgFault {
    ghost use Rattle.std.specs.Prelude.{◌≡◌};
    ghost use Rattle.cv_kinds.specs.declared.arguments.ArgFault.TheVariants.{OutOfMemory};

    ghost from_gives = { λ _ e. e ≡ OutOfMemory };

    fn from(_error: AllocError) -> ArgFault {
        ArgFault::OutOfMemory
    }
}

/// The arguments in the order of the kind's parameters, with what stands where none is given; of a name given twice the
/// last counts. What is wrong is told as the first fault in written order, and Missing only where there is none; neither
/// takes memory.
#[tactic(auto, using(crate::proofs::Checked::checked))]
pub fn check_args(alloc: Global, kind: Kind, given: &ArgList) -> Result<Items, ArgFault>
    ensures faulty { (fault : ArgFault) → fault_of (line_of kind).params given.now ≡ Some fault → result ≡ Err fault }
    ensures whole { fault_of (line_of kind).params given.now ≡ None → MatchResult result (λ args. args ≡ arguments_of (line_of kind).params given.now) (λ fault. fault ≡ faults.OutOfMemory) }

    // They are arguments of the kind's row.
    ensures sorted { IfOk result (λ args. are_args kind args ≡ true) }
{
    let params = kind.line().params;
    if let Some(fault) = fault_of(params, given.as_slice()) {
        return Err(fault);
    }
    Ok(arguments_of(alloc, params, given.as_slice())?)
}

/// What is wrong with what is given, if anything is.
fn fault_of(params: &[Param], given: &[Argument]) -> Option<ArgFault>
    ensures { result ≡ fault_of (map taking params.now) given.now }
{
    let first = first_fault(params, given);
    if first.is_none() && lacks_one(params, given) {
        return Some(ArgFault::Missing);
    }
    first
}

/// What is wrong with the first argument with which something is.
fn first_fault(params: &[Param], given: &[Argument]) -> Option<ArgFault>
    ensures { result ≡ faults_from (map taking params.now) 0 given.now }
{
    for (place, argument) in given.iter().enumerate() {
        let fault = fault_at(params, place, argument);
        if fault.is_some() {
            return fault;
        }
    }
    None
}

/// What is wrong with the argument at a place, if anything is.
fn fault_at(params: &[Param], place: usize, argument: &Argument) -> Option<ArgFault>
    ensures { result ≡ fault_at (map taking params.now) place argument.now }
{
    match sort_named(params, argument.name.as_str()) {
        Some(sort) => fault_for(place, &argument.value, sort),
        None => Some(ArgFault::BadArg { place }),
    }
}

/// The sort of the parameter of that name.
fn sort_named(params: &[Param], name: &str) -> Option<Sort>
    ensures { result ≡ sort_named (map taking params.now) name.now }
{
    for param in params {
        if name == param.name {
            return Some(param.sort);
        }
    }
    None
}

/// What is wrong with a value for a parameter of that sort, if anything is.
fn fault_for(place: usize, value: &Given, sort: Sort) -> Option<ArgFault>
    ensures { result ≡ fault_for place value.now sort }
{
    if is_taken(sort, value) {
        return None;
    }
    match value {
        Given::Fraction(_) if sort != Sort::Duration => Some(ArgFault::Fraction { place }),
        _ => Some(ArgFault::BadArg { place }),
    }
}

/// Whether a value makes an argument for a parameter of that sort.
fn is_taken(sort: Sort, value: &Given) -> bool
    ensures { result ≡ is_some (token_given sort value.now) }
{
    if sort == Sort::Duration {
        return milliseconds_of(value).is_some();
    }
    match value {
        Given::Token(token) => fits(token) && is_of(sort, token),
        Given::Fraction(_) => false,
    }
}

/// Whether an argument is required and not there.
fn lacks_one(params: &[Param], given: &[Argument]) -> bool
    ensures { result ≡ list_any (is_lacking given.now) (map taking params.now) }
{
    for param in params {
        if is_required(param.preset) && last_given(param.name, given).is_none() {
            return true;
        }
    }
    false
}

fn is_required(preset: Preset) -> bool
    ensures { result ≡ is_required preset }
{
    match preset {
        Preset::Required => true,
        _ => false,
    }
}

/// The value of the last argument of that name.
#[tactic(auto, using(crate::proofs::Givens::last_next))]
fn last_given<'a>(name: &str, given: &'a [Argument]) -> Option<&'a Given>
    ensures { option_map (λ value. value.now) result ≡ last_given name.now given.now }
{
    let mut last = None;
    for argument in given {
        if argument.name.as_str() == name {
            last = Some(&argument.value);
        }
    }
    last
}

/// The arguments, in the order of the parameters.
fn arguments_of(alloc: Global, params: &[Param], given: &[Argument]) -> Result<Items, OutOfMemory>
    ensures { IfOk result (λ args. args ≡ arguments_of (map taking params.now) given.now) }
{
    let mut args = Items::new(alloc);
    for param in params {
        args.push(argument_of(alloc, param, given)?)?;
    }
    Ok(args)
}

/// The argument for a parameter.
fn argument_of(alloc: Global, param: &Param, given: &[Argument]) -> Result<Token, OutOfMemory>
    ensures { IfOk result (λ token. token ≡ argument_of given.now (taking param.now)) }
{
    match last_given(param.name, given) {
        Some(value) => token_given(alloc, param.sort, value),
        None => Ok(preset_token(alloc, param.preset)),
    }
}

/// The argument that a value makes for a parameter of that sort, or null where it makes none.
fn token_given(alloc: Global, sort: Sort, value: &Given) -> Result<Token, OutOfMemory>
    ensures { IfOk result (λ given. given ≡ unwrap_or (token_given sort value.now) token.Null) }
{
    if sort == Sort::Duration {
        return Ok(duration_token(value));
    }
    match value {
        Given::Token(token) if fits(token) && is_of(sort, token) => token.copy(alloc),
        _ => Ok(Token::Null),
    }
}

/// The number of milliseconds that a value stands for, or null where it is no duration.
fn duration_token(value: &Given) -> Token
    ensures { result ≡ unwrap_or (token_given Sort.Duration value.now) token.Null }
{
    match milliseconds_of(value) {
        Some(time) => Token::Int(i64::from(time)),
        None => Token::Null,
    }
}

/// What stands where an argument is not given.
fn preset_token(alloc: Global, preset: Preset) -> Token
    ensures { result ≡ preset_token preset }
{
    match preset {
        Preset::Required | Preset::Null => Token::Null,
        Preset::False => Token::Bool(false),
        Preset::Int(number) => Token::Int(number),
        Preset::EmptyText => Token::Text(Text::from_string(String::new(alloc))),
    }
}
