//! `Behave`: the row of a kind, as calls.

ghost use Rattle.std.specs.Prelude.{◌≡◌, IfOk, length};
ghost use Rattle.std.specs.Option.{option_copied};
ghost use Rattle.cv_behave.specs.KindRow.{Row, needed, given, guard_holds, effect_of, is_timed};

use cv_token::{Items, OutOfMemory, Token};
use std::alloc::Global;

/// The tokens that a firing gives, one place per outport.
pub type Outs = sqlite_items::Items<Option<Token>>;

/// What a firing does: the state afterwards, and the tokens given.
#[derive(Drop)]
pub struct Effect {
    /// The slots afterwards, in the order of the row's start.
    pub state: Items,
    /// What each outport is given, in the order of the outports.
    pub out: Outs,
}

/// What the actors of a kind do. Each call computes its part of the kind's row. Actions and ports count from 0, actions
/// in order of priority; `args` are the arguments in the row's order. Durations are milliseconds. The only error is want
/// of memory.
pub trait Behave {
    ghost row: { Self → Row };

    /// How many actions the row has.
    fn actions(&self) -> u8
        ensures { result ≡ length (row self.now).actions };

    /// How many inports the row has.
    fn inports(&self) -> u8
        ensures { result ≡ (row self.now).inports };

    /// How many outports the row has.
    fn outports(&self) -> u8
        ensures { result ≡ (row self.now).outports };

    /// How many tokens of the inport the action needs; 0 where there is no such action or inport.
    fn needs(&self, args: &Items, action: u8, port: u8) -> u16
        ensures { result ≡ needed (row self.now) args.now action port };

    /// How many tokens the action gives to the outport: none or one.
    fn gives(&self, action: u8, port: u8) -> u16
        ensures { result ≡ given (row self.now) action port };

    /// The inport at whose first token a guard of the row looks.
    fn guard_port(&self) -> Option<u8>
        ensures { result ≡ (row self.now).guard_port };

    /// Whether there is such an action and its guard holds on the state and the first token of the guard port.
    fn guard(&self, args: &Items, state: &Items, action: u8, head: Option<&Token>) -> bool
        ensures { result
            ≡ guard_holds (row self.now) args.now state.now action (option_copied head.entry) };

    /// What the action does on the tokens that it needs, port by port. Where its guard does not hold, the answer is
    /// still the row's effect, with null for what is undefined; past the last action it is what the last one does. The
    /// only error is want of memory.
    fn effect(
        &self,
        alloc: Global,
        args: &Items,
        state: &Items,
        action: u8,
        heads: &Items,
    ) -> Result<Effect, OutOfMemory>
        ensures { IfOk result (λ e. e
            ≡ effect_of (row self.now) args.now state.now action heads.now) };

    /// The state at the start. The only error is want of memory.
    fn start(&self, alloc: Global, args: &Items) -> Result<Items, OutOfMemory>
        ensures { IfOk result (λ state. state ≡ (row self.now).start args.now) };

    /// Whether the action is timed.
    fn timed(&self, action: u8) -> bool
        ensures { result ≡ is_timed (row self.now) action };

    /// Milliseconds between two firings of the timed action; 0 where the row has none.
    fn pause(&self, args: &Items) -> u64
        ensures { result ≡ (row self.now).pause args.now };
}
