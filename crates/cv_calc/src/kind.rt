//! The kinds of calculation, and the row of each.

ghost use Rattle.std.specs.Prelude.{◌≡◌, IfOk, length};
ghost use Rattle.cv_behave.specs.Values.{item_of};
ghost use Rattle.cv_calc.specs.Rows.{given_of, one_of_each};

use crate::json::{get, parse, text_token};
use crate::math::{compare, difference, product, quotient, remainder, sum};
use crate::texts::{character_length, join, negate};
use cv_behave::building::{giving, item};
use cv_behave::shape::{only, only_count};
use cv_behave::{Behave, Effect};
use cv_token::{Items, OutOfMemory, Token};
use std::alloc::Global;

/// A kind of calculation: one action, which needs one token of each inport and gives one. It refuses nothing: what is
/// undefined, past 64 signed bits or past the bounds of a token is null.
#[derive(Debug, Clone, Copy, PartialEq, Eq)]
pub enum CalcKind {
    /// `math.Add()`: the sum of two Ints.
    Add,
    /// `math.Subtract()`: their difference.
    Subtract,
    /// `math.Multiply()`: their product.
    Multiply,
    /// `math.Divide()`: their quotient, cut towards zero.
    Divide,
    /// `math.Modulo()`: what is left by that quotient.
    Modulo,
    /// `math.Compare(op)`: whether `a op b` holds.
    Compare,
    /// `text.Concat()`: two Texts joined.
    Concat,
    /// `text.Length()`: the number of characters of a Text.
    Length,
    /// `text.Prefix(prefix)`: the prefix and a Text joined.
    Prefix,
    /// `json.Text()`: the compact text of a token.
    JsonText,
    /// `json.Parse()`: the token of a Text.
    JsonParse,
    /// `json.Get(key)`: the value of a key in a Dict, or the element at a place of a List.
    JsonGet,
    /// `logic.Not()`: the other Bool.
    Not,
}

impl CalcKind {
    /// How many inports the kind has.
    fn port_count(self) -> u8
        ensures { result ≡ length (one_of_each self) }
    {
        match self {
            CalcKind::Add
            | CalcKind::Subtract
            | CalcKind::Multiply
            | CalcKind::Divide
            | CalcKind::Modulo
            | CalcKind::Compare
            | CalcKind::Concat => 2,
            _ => 1,
        }
    }

    /// What the outport is given, on the first argument and the tokens of the inports.
    fn value(self, alloc: Global, arg: &Token, a: &Token, b: &Token) -> Result<Token, OutOfMemory>
        ensures { IfOk result (λ t. t ≡ given_of self arg.now a.now b.now) }
    {
        match self {
            CalcKind::Add => Ok(sum(a, b)),
            CalcKind::Subtract => Ok(difference(a, b)),
            CalcKind::Multiply => Ok(product(a, b)),
            CalcKind::Divide => Ok(quotient(a, b)),
            CalcKind::Modulo => Ok(remainder(a, b)),
            CalcKind::Compare => Ok(compare(arg, a, b)),
            CalcKind::Concat => join(alloc, a, b),
            CalcKind::Length => Ok(character_length(a)),
            CalcKind::Prefix => join(alloc, arg, a),
            CalcKind::JsonText => text_token(alloc, a),
            CalcKind::JsonParse => parse(alloc, a),
            CalcKind::JsonGet => get(alloc, arg, a),
            CalcKind::Not => Ok(negate(a)),
        }
    }
}

impl Behave for CalcKind {
    ghost use Rattle.cv_calc.specs.Rows.{row_of};

    ghost row = { λ k. row_of k };

    fn actions(&self) -> u8 {
        1
    }

    fn inports(&self) -> u8 {
        self.port_count()
    }

    fn outports(&self) -> u8 {
        1
    }

    fn needs(&self, _args: &Items, action: u8, port: u8) -> u16 {
        match self.port_count() {
            2 => only_count(action, &[1, 1], port),
            _ => only_count(action, &[1], port),
        }
    }

    fn gives(&self, action: u8, port: u8) -> u16 {
        only_count(action, &[1], port)
    }

    fn guard_port(&self) -> Option<u8> {
        None
    }

    fn guard(&self, _args: &Items, _state: &Items, action: u8, _head: Option<&Token>) -> bool {
        only(action, true)
    }

    fn effect(
        &self,
        alloc: Global,
        args: &Items,
        _state: &Items,
        _action: u8,
        heads: &Items,
    ) -> Result<Effect, OutOfMemory> {
        let null = Token::Null;
        let arg = item(args, 0, &null);
        let a = item(heads, 0, &null);
        let b = item(heads, 1, &null);
        let token = self.value(alloc, arg, a, b)?;
        giving(alloc, Items::new(alloc), Some(token))
    }

    fn start(&self, alloc: Global, _args: &Items) -> Result<Items, OutOfMemory> {
        Ok(Items::new(alloc))
    }

    fn timed(&self, _action: u8) -> bool {
        false
    }

    fn pause(&self, _args: &Items) -> u64 {
        0
    }
}
