//! The kinds of flow, and the row of each.

ghost use Rattle.std.specs.Prelude.{◌≡◌};

use crate::asking::{
    duration, goes_on, has_element, is_above_zero, is_given_out, is_too_early, is_true_head,
    is_turn, repeats, size,
};
use crate::counting::{counting, enumerating, repeating, summing, tallying, ticking};
use crate::listing::{batching, unbatching, unzipping, zipping};
use crate::passing::{beginning, changing, delaying, pass, skipping, spacing, taking};
use crate::routing::{alternating, dealing, gating, going_round, joining, selecting, switching};
use cv_behave::building::{copy_at, one_slot, silent, two_slots};
use cv_behave::shape::{any, any_count, either, either_count, only, only_count};
use cv_behave::values::{is_at, is_set, is_whole};
use cv_behave::{Behave, Effect};
use cv_token::{Items, OutOfMemory, Token};
use std::alloc::Global;

/// A kind of flow: a source, a sink, or what stands between them. Durations (`sleep`, `tick`, `delay`) are milliseconds.
/// An actor of a kind refuses nothing: what is undefined, past 64 signed bits or past the bounds of a token is null.
#[derive(Debug, Clone, Copy, PartialEq, Eq)]
pub enum FlowKind {
    /// `std.Constant(data, n)`: writes data, n times, or for ever where n is -1.
    Constant,
    /// `std.Counter(start)`: counts up.
    Counter,
    /// `std.CountTimer(sleep, start, steps)`: counts up each `sleep` milliseconds, as many steps, or for ever where steps is
    /// -1.
    CountTimer,
    /// `std.Identity(dump)`: passes each token.
    Identity,
    /// `std.Sequence(data)`: writes the elements of data.
    Sequence,
    /// `std.Trigger(tick, data)`: writes data each `tick` milliseconds.
    Trigger,
    /// `std.Delay(delay)`: keeps each token for `delay` milliseconds.
    Delay,
    /// `std.Sum()`: the sum of what came so far.
    Sum,
    /// `std.Tally()`: the number of tokens that came.
    Tally,
    /// `io.Print()`: takes each token, which is printed at the end of the run.
    Print,
    /// `flow.Terminator()`: takes each token.
    Terminator,
    /// `flow.Init(data)`: writes data, then passes each token.
    Init,
    /// `flow.Join()`: passes the tokens of both inports, as they come.
    Join,
    /// `flow.Alternate2()`: passes the tokens of two inports in turn.
    Alternate2,
    /// `flow.Alternate3()`: the same of three.
    Alternate3,
    /// `flow.Dealternate2()`: gives the tokens to two outports in turn.
    Dealternate2,
    /// `flow.Select()`: gives a token of data to the outport that the token of select names.
    Select,
    /// `flow.Switch()`: passes a token of the inport that the token of switch names.
    Switch,
    /// `flow.Batch(n)`: makes lists of n tokens, n from 1 to 64.
    Batch,
    /// `flow.Unbatch()`: gives the elements of lists.
    Unbatch,
    /// `flow.Take(n)`: passes the first n tokens.
    Take,
    /// `flow.Skip(n)`: drops the first n tokens.
    Skip,
    /// `flow.Every(n)`: passes each n-th token.
    Every,
    /// `flow.Valve()`: passes tokens while the last of open was true.
    Valve,
    /// `flow.Zip()`: makes pairs.
    Zip,
    /// `flow.Unzip()`: takes pairs apart.
    Unzip,
    /// `flow.Change()`: passes a token where it differs from the one before.
    Change,
}

impl Behave for FlowKind {
    ghost use Rattle.cv_flow.specs.Rows.{row_of};

    ghost row = { λ k. row_of k };

    fn actions(&self) -> u8 {
        match self {
            FlowKind::Alternate3 | FlowKind::Valve => 3,
            FlowKind::Delay
            | FlowKind::Init
            | FlowKind::Join
            | FlowKind::Alternate2
            | FlowKind::Dealternate2
            | FlowKind::Select
            | FlowKind::Switch
            | FlowKind::Unbatch
            | FlowKind::Take
            | FlowKind::Skip
            | FlowKind::Every
            | FlowKind::Change => 2,
            _ => 1,
        }
    }

    fn inports(&self) -> u8 {
        match self {
            FlowKind::Constant
            | FlowKind::Counter
            | FlowKind::CountTimer
            | FlowKind::Sequence
            | FlowKind::Trigger => 0,
            FlowKind::Join
            | FlowKind::Alternate2
            | FlowKind::Select
            | FlowKind::Valve
            | FlowKind::Zip => 2,
            FlowKind::Alternate3 | FlowKind::Switch => 3,
            _ => 1,
        }
    }

    fn outports(&self) -> u8 {
        match self {
            FlowKind::Print | FlowKind::Terminator => 0,
            FlowKind::Dealternate2 | FlowKind::Select | FlowKind::Unzip => 2,
            _ => 1,
        }
    }

    fn needs(&self, args: &Items, action: u8, port: u8) -> u16 {
        match self {
            FlowKind::Constant
            | FlowKind::Counter
            | FlowKind::CountTimer
            | FlowKind::Sequence
            | FlowKind::Trigger => only_count(action, &[], port),
            FlowKind::Delay | FlowKind::Init | FlowKind::Unbatch => either_count(
                action,
                &[0],
                &[1],
                port,
            ),
            FlowKind::Join | FlowKind::Alternate2 => either_count(action, &[1, 0], &[0, 1], port),
            FlowKind::Alternate3 => any_count(action, &[1, 0, 0], &[0, 1, 0], &[0, 0, 1], port),
            FlowKind::Select => either_count(action, &[1, 1], &[1, 1], port),
            FlowKind::Switch => either_count(action, &[1, 1, 0], &[1, 0, 1], port),
            FlowKind::Batch => only_count(action, &[size(args)], port),
            FlowKind::Dealternate2
            | FlowKind::Take
            | FlowKind::Skip
            | FlowKind::Every
            | FlowKind::Change => either_count(action, &[1], &[1], port),
            FlowKind::Valve => any_count(action, &[1, 0], &[0, 1], &[0, 1], port),
            FlowKind::Zip => only_count(action, &[1, 1], port),
            _ => only_count(action, &[1], port),
        }
    }

    fn gives(&self, action: u8, port: u8) -> u16 {
        match self {
            FlowKind::Print | FlowKind::Terminator => only_count(action, &[], port),
            FlowKind::Init | FlowKind::Join | FlowKind::Alternate2 | FlowKind::Switch =>
                either_count(action, &[1], &[1], port),
            FlowKind::Delay
            | FlowKind::Unbatch
            | FlowKind::Take
            | FlowKind::Every
            | FlowKind::Change => either_count(action, &[1], &[0], port),
            FlowKind::Skip => either_count(action, &[0], &[1], port),
            FlowKind::Alternate3 => any_count(action, &[1], &[1], &[1], port),
            FlowKind::Dealternate2 | FlowKind::Select => either_count(
                action,
                &[1, 0],
                &[0, 1],
                port,
            ),
            FlowKind::Valve => any_count(action, &[0], &[1], &[0], port),
            FlowKind::Unzip => only_count(action, &[1, 1], port),
            _ => only_count(action, &[1], port),
        }
    }

    fn guard_port(&self) -> Option<u8> {
        match self {
            FlowKind::Select | FlowKind::Switch | FlowKind::Change => Some(0),
            _ => None,
        }
    }

    fn guard(&self, args: &Items, state: &Items, action: u8, head: Option<&Token>) -> bool {
        match self {
            FlowKind::Constant => only(action, !is_at(state, 0, 0)),
            FlowKind::Counter => only(action, is_whole(state, 0)),
            FlowKind::CountTimer => only(action, goes_on(state)),
            FlowKind::Sequence => only(action, has_element(args, state)),
            FlowKind::Delay => either(action, is_set(state, 0), !is_set(state, 0)),
            FlowKind::Init => either(action, !is_set(state, 0), is_set(state, 0)),
            FlowKind::Join => either(action, true, true),
            FlowKind::Alternate2 | FlowKind::Dealternate2 => either(
                action,
                is_at(state, 0, 0),
                is_at(state, 0, 1),
            ),
            FlowKind::Alternate3 => any(
                action,
                is_at(state, 0, 0),
                is_at(state, 0, 1),
                is_at(state, 0, 2),
            ),
            FlowKind::Select | FlowKind::Switch => either(
                action,
                is_true_head(head),
                !is_true_head(head),
            ),
            FlowKind::Unbatch => either(action, !is_given_out(state), is_given_out(state)),
            FlowKind::Take | FlowKind::Skip => either(
                action,
                is_above_zero(state),
                is_at(state, 0, 0),
            ),
            FlowKind::Every => either(action, is_turn(args, state), is_too_early(args, state)),
            FlowKind::Valve => any(action, true, is_set(state, 0), !is_set(state, 0)),
            FlowKind::Change => either(action, !repeats(state, head), repeats(state, head)),
            _ => only(action, true),
        }
    }

    fn effect(
        &self,
        alloc: Global,
        args: &Items,
        state: &Items,
        action: u8,
        heads: &Items,
    ) -> Result<Effect, OutOfMemory> {
        match self {
            FlowKind::Constant => repeating(alloc, args, state, heads),
            FlowKind::Counter => counting(alloc, args, state, heads),
            FlowKind::CountTimer => ticking(alloc, args, state, heads),
            FlowKind::Identity => pass(alloc, Items::new(alloc), heads, 0),
            FlowKind::Sequence => enumerating(alloc, args, state, heads),
            FlowKind::Trigger => pass(alloc, Items::new(alloc), args, 1),
            FlowKind::Delay => delaying(alloc, args, state, action, heads),
            FlowKind::Sum => summing(alloc, args, state, heads),
            FlowKind::Tally => tallying(alloc, args, state, heads),
            FlowKind::Print | FlowKind::Terminator => Ok(silent(alloc, Items::new(alloc))),
            FlowKind::Init => beginning(alloc, args, state, action, heads),
            FlowKind::Join => joining(alloc, args, state, action, heads),
            FlowKind::Alternate2 => alternating(alloc, args, state, action, heads),
            FlowKind::Alternate3 => going_round(alloc, args, state, action, heads),
            FlowKind::Dealternate2 => dealing(alloc, args, state, action, heads),
            FlowKind::Select => selecting(alloc, args, state, action, heads),
            FlowKind::Switch => switching(alloc, args, state, action, heads),
            FlowKind::Batch => batching(alloc, args, state, heads),
            FlowKind::Unbatch => unbatching(alloc, args, state, action, heads),
            FlowKind::Take => taking(alloc, args, state, action, heads),
            FlowKind::Skip => skipping(alloc, args, state, action, heads),
            FlowKind::Every => spacing(alloc, args, state, action, heads),
            FlowKind::Valve => gating(alloc, args, state, action, heads),
            FlowKind::Zip => zipping(alloc, args, state, heads),
            FlowKind::Unzip => unzipping(alloc, args, state, heads),
            FlowKind::Change => changing(alloc, args, state, action, heads),
        }
    }

    fn start(&self, alloc: Global, args: &Items) -> Result<Items, OutOfMemory> {
        match self {
            FlowKind::Constant => one_slot(alloc, copy_at(alloc, args, 1)?),
            FlowKind::Counter | FlowKind::Take | FlowKind::Skip => one_slot(
                alloc,
                copy_at(alloc, args, 0)?,
            ),
            FlowKind::CountTimer => {
                let next = copy_at(alloc, args, 1)?;
                two_slots(alloc, next, copy_at(alloc, args, 2)?)
            }
            FlowKind::Sequence
            | FlowKind::Sum
            | FlowKind::Tally
            | FlowKind::Alternate2
            | FlowKind::Alternate3
            | FlowKind::Dealternate2
            | FlowKind::Every => one_slot(alloc, Token::Int(0)),
            FlowKind::Delay | FlowKind::Change => two_slots(alloc, Token::Bool(false), Token::Null),
            FlowKind::Init | FlowKind::Valve => one_slot(alloc, Token::Bool(false)),
            FlowKind::Unbatch => one_slot(alloc, Token::List(Items::new(alloc))),
            _ => Ok(Items::new(alloc)),
        }
    }

    fn timed(&self, action: u8) -> bool {
        match self {
            FlowKind::CountTimer | FlowKind::Trigger | FlowKind::Delay => action == 0,
            _ => false,
        }
    }

    fn pause(&self, args: &Items) -> u64 {
        match self {
            FlowKind::CountTimer | FlowKind::Trigger | FlowKind::Delay => duration(args),
            _ => 0,
        }
    }
}
