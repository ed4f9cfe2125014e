//! The held tokens of a port: a `Vec` whose room was reserved when the port was made.

ghost use Rattle.std.specs.Prelude.{◌≡◌, ◌≤◌, drop, length, IfOk};
ghost use Rattle.std.specs.Vec.{vec_len, vec_capacity};

use cv_token::{Items, OutOfMemory, Token};
use std::alloc::Global;

/// The tokens of the list in a `Vec` with room for `cap` of them.
pub(crate) fn with_room(alloc: Global, cap: u16, mut list: Items) -> Result<Vec<Token>, OutOfMemory>
    ensures items { IfOk result (λ slots. slots.items ≡ list) }
    ensures room { IfOk result (λ slots. cap ≤ vec_capacity slots) }
{
    let mut slots = Vec::with_capacity(alloc, usize::from(cap))?;
    while let Some(token) = list.pop() {
        slots.push(token)?;
    }
    slots.reverse();
    Ok(slots)
}

/// Copies of the tokens in a `Vec` with room for `cap` of them.
pub(crate) fn copy_with_room(
    alloc: Global,
    cap: u16,
    tokens: &[Token],
) -> Result<Vec<Token>, OutOfMemory>
    ensures items { IfOk result (λ slots. slots.items ≡ tokens.now) }
    ensures room { IfOk result (λ slots. cap ≤ vec_capacity slots) }
{
    let mut slots = Vec::with_capacity(alloc, usize::from(cap))?;
    for token in tokens {
        slots.push(token.copy(alloc)?)?;
    }
    Ok(slots)
}

/// Lets the first `n` tokens go.
pub(crate) fn drop_front(slots: &mut Vec<Token>, n: usize)
    requires { n ≤ vec_len slots.old }
    ensures items { slots.new.items ≡ drop n slots.old.items }
    ensures room { vec_capacity slots.new ≡ vec_capacity slots.old }
{
    slots.rotate_left(n);
    let kept = slots.len() - n;
    slots.truncate(kept);
}
