//! `InPort`: the tokens that came to an actor and were not taken yet.

ghost use Rattle.std.specs.Prelude.{◌≡◌, ℕ, ◌+◌, ◌-◌, ◌^◌, ◌<◌, ◌≤◌, length, slice_get, IfOk, SomeIff};
ghost use Rattle.std.specs.Option.{option_copied};
ghost use Rattle.cv_queue.specs.Ports.{IsInPort, received, new_in, in_at, answer_to, after_offer, after_peek, after_commit, after_cancel};

use crate::slots::{copy_with_room, drop_front, with_room};
use cv_token::{Items, OutOfMemory, Token};
use std::alloc::Global;
use std::marker::Model;

/// The most tokens that a port counts.
const MOST: u64 = 1 << 62;

/// How an inport answers an offered token.
#[derive(Debug, Clone, Copy, PartialEq, Eq)]
pub enum Offered {
    /// The port has received a token of this number before.
    Old,
    /// A token before this one has not come yet.
    Gap,
    /// It is the next token, and there is no room for it.
    Full,
    /// It is the next token, and is now the port's last one.
    Taken,
}

/// An inport: the tokens that came to it and were not taken yet, in order. Contracts see it as an
/// `InView`, whose positions are in order.
#[derive(Drop)]
pub struct InPort {
    held: Vec<Token>,
    taken: u64,
    tentative: u16,
    cap: u16,
}

impl Model for InPort {
    ghost use Rattle.std.specs.Prelude.{◌≤◌};
    ghost use Rattle.std.specs.Vec.{vec_capacity};
    ghost use Rattle.cv_queue.specs.Ports.{InView, in_code, IsInPort};

    ghost Value = { InView };

    ghost coded = { in_code };

    ghost view = { λ p. record { held = p.held.items; taken = p.taken; tentative = p.tentative; cap = p.cap } };

    ghost invariant = { λ p. IsInPort (record { held = p.held.items; taken = p.taken; tentative = p.tentative; cap = p.cap }) × (p.cap ≤ vec_capacity p.held) };
}

impl InPort {
    /// An empty port of `cap` places, which are reserved.
    pub fn new(alloc: Global, cap: u16) -> Result<InPort, OutOfMemory>
        requires { 1 ≤ cap }
        ensures { IfOk result (λ port. port ≡ new_in cap) }
    {
        Ok(InPort {
            held: Vec::with_capacity(alloc, usize::from(cap))?,
            taken: 0,
            tentative: 0,
            cap,
        })
    }

    /// The port that took `taken` tokens and holds these next ones, none of them read; its places are
    /// reserved. None comes exactly where no port stands so.
    pub fn of(
        alloc: Global,
        cap: u16,
        taken: u64,
        held: Items,
    ) -> Result<Option<InPort>, OutOfMemory>
        ensures { IfOk result (λ port. SomeIff port (IsInPort (in_at cap taken held)) (in_at cap taken held)) }
    {
        if cap == 0 || held.len() > usize::from(cap) || taken > MOST - held.len() as u64 {
            return Ok(None);
        }
        Ok(Some(InPort {
            held: with_room(alloc, cap, held)?,
            taken,
            tentative: 0,
            cap,
        }))
    }

    /// An equal port of its own, whose places are reserved too.
    pub fn copy(&self, alloc: Global) -> Result<InPort, OutOfMemory>
        ensures { IfOk result (λ port. port ≡ self.now) }
    {
        Ok(InPort {
            held: copy_with_room(alloc, self.cap, &self.held)?,
            taken: self.taken,
            tentative: self.tentative,
            cap: self.cap,
        })
    }

    /// How many tokens were taken.
    pub fn taken(&self) -> u64
        ensures { result ≡ self.now.taken }
    {
        self.taken
    }

    /// How many tokens came: those taken and those held.
    pub fn received(&self) -> u64
        ensures value { result ≡ received self.now }
        ensures positions { IsInPort self.now }
    {
        self.taken + self.held.len() as u64
    }

    /// How many tokens are held.
    pub fn len(&self) -> u16
        ensures { result ≡ length self.now.held }
    {
        prove!(self.held.len() <= usize::from(self.cap));
        self.held.len() as u16
    }

    /// How many of the held tokens are read tentatively, from the first one on.
    pub fn tentative(&self) -> u16
        ensures { result ≡ self.now.tentative }
    {
        self.tentative
    }

    /// How many tokens the port can hold.
    pub fn cap(&self) -> u16
        ensures { result ≡ self.now.cap }
    {
        self.cap
    }

    /// Takes the token into the port where `n` is the number of the next one and there is room.
    pub fn offer(&mut self, n: u64, token: Token) -> Offered
        requires { received self.old < 2 ^ 62 }
        ensures answer { result ≡ answer_to self.old n }
        ensures after { self.new ≡ after_offer self.old n token }
    {
        let next = self.taken + self.held.len() as u64;
        if n < next {
            return Offered::Old;
        }
        if n > next {
            return Offered::Gap;
        }
        if self.held.len() == usize::from(self.cap) {
            return Offered::Full;
        }
        let Ok(()) = self.held.push(token) else {
            unreachable!()
        };
        Offered::Taken
    }

    /// Reads the first `n` tokens tentatively, beside those that are read already.
    pub fn peek(&mut self, n: u16)
        requires { n ≤ length self.old.held }
        ensures { self.new ≡ after_peek self.old n }
    {
        self.tentative = self.tentative.max(n);
    }

    /// Takes the first `n` tokens, which are read tentatively, and gives the other reads up.
    pub fn commit(&mut self, n: u16)
        requires { n ≤ self.old.tentative }
        ensures { self.new ≡ after_commit self.old n }
    {
        drop_front(&mut self.held, usize::from(n));
        self.taken += u64::from(n);
        self.tentative = 0;
    }

    /// Gives the tentative reads up.
    pub fn cancel(&mut self)
        ensures { self.new ≡ after_cancel self.old }
    {
        // Nothing is taken.
        self.tentative = 0;
    }

    /// The `i`-th held token, where there is one.
    pub fn head(&self, i: u16) -> Option<&Token>
        ensures { option_copied result ≡ slice_get self.now.held i }
    {
        self.held.get(usize::from(i))
    }
}
