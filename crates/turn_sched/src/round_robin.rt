//! A chooser that goes round.
ghost use Rattle.std.specs.Prelude.{◌≡◌, ◌<◌, ◌+◌, ℕ, Option, Some, None, [], All, IfOk, false, length, position, slice_get, unwrap_or, vec_capacity, ◌≤◌, nat_eq};
ghost use Rattle.std.specs.List.{list_any};
ghost use Rattle.std.specs.List.Sorted.{IsStrictlyIncreasing};
ghost use Rattle.turn_sched.specs.Asks.{KeepsAsk};
ghost use Rattle.turn_sched.specs.Turns.{RoundState, TakeTurns, is_above, last_taken};

use crate::chooser::{Ask, Chooser};
use code_units::{Memory, WIDGETS};
use std::alloc::Global;
use std::marker::Model;

/// Takes the first number above the one that it took last, or the first of all where there is none.
#[derive(Drop)]
pub struct RoundRobin {
    last: Option<u32>,
    asks: Vec<Ask>,
    room: usize,
}

impl Model for RoundRobin {
    ghost use Rattle.std.specs.Prelude.{◌≡◌, ◌<◌, ◌≤◌, ◌+◌, None, length, vec_capacity};
    ghost use Rattle.turn_sched.specs.Turns.{RoundState, TakeTurns, last_taken};

    ghost Value = { RoundState };

    ghost view = { λ s. record { last = s.last; asks = s.asks.items; room = s.room } };

    // `next` grows nothing.
    ghost invariant = { λ s. TakeTurns None s.asks.items × (0 < s.room → s.last ≡ last_taken None s.asks.items) × (length s.asks.items + s.room ≤ vec_capacity s.asks) };
}

impl RoundRobin {
    /// One that keeps the first `room` asks. Their room is reserved here.
    pub fn new(alloc: Global, room: usize) -> Result<RoundRobin, Memory>
        ensures { IfOk result (λ s. s ≡ record { last = None; asks = []; room = room }) }
    {
        Ok(RoundRobin {
            last: None,
            asks: Vec::with_capacity(alloc, room)?,
            room,
        })
    }

    /// The asks that it kept. Each takes the number that is next after the one before it, and while
    /// there is room for more, the number taken last is that of the last one.
    pub fn asks(&self) -> &[Ask]
        ensures value { result.now ≡ self.now.asks }
        ensures turns { TakeTurns None result.now }
        ensures last { 0 < self.now.room → self.now.last ≡ last_taken None result.now }
    {
        self.asks.as_slice()
    }
}

// The widgets whose numbers stand in the list.
fn flags_of(ready: &[u32]) -> [bool; WIDGETS]
    requires { All (λ w. w < WIDGETS) ready.now }
    ensures { (w : ℕ) → w < WIDGETS → unwrap_or (slice_get result w) false ≡ list_any (nat_eq w) ready.now }
{
    let mut flags = [false; WIDGETS];
    'ready: for w in ready {
        flags[*w as usize] = true;
    }
    flags
}

// The first number above the one taken last.
#[tactic(auto, using(crate::proofs::Chosen::nowhere))]
fn first_above(last: Option<u32>, ready: &[u32]) -> Option<usize>
    ensures { result ≡ position (is_above last) ready.now }
{
    match last {
        None => None,
        Some(last) => ready.iter().position(|w| last < *w),
    }
}

// The place of the number that is next.
fn next_after(last: Option<u32>, ready: &[u32]) -> usize
    requires { 0 < length ready.now }
    ensures value { result ≡ unwrap_or (position (is_above last) ready.now) 0 }
    ensures within { result < length ready.now }
{
    first_above(last, ready).unwrap_or(0)
}

impl Chooser for RoundRobin {
    ghost asks = { λ s. s.asks };

    ghost room = { λ s. s.room };

    fn next(&mut self, ready: &[u32]) -> usize
        requires rising { IsStrictlyIncreasing ready.now }
        requires below { All (λ w. w < WIDGETS) ready.now }
        requires some { 0 < length ready.now }
        ensures within { result < length ready.now }
        ensures answer { result ≡ unwrap_or (position (is_above self.old.last) ready.now) 0 }
        ensures last { self.new.last ≡ slice_get ready.now result }
        ensures last_kept { 0 < self.old.room → self.new.last ≡ last_taken None self.new.asks }
        ensures kept { 0 < self.old.room → KeepsAsk ready.now result self.old.asks self.new.asks }
        ensures room { 0 < self.old.room → self.new.room + 1 ≡ self.old.room }
        ensures full { self.old.room ≡ 0 → self.new.asks ≡ self.old.asks }
        ensures stays_full { self.old.room ≡ 0 → self.new.room ≡ 0 }
    {
        let at = next_after(self.last, ready);
        let taken = ready[at];
        self.last = Some(taken);
        if self.room > 0 {
            let ask = Ask {
                ready: flags_of(ready),
                taken,
            };
            if self.asks.push(ask).is_ok() {
                self.room -= 1;
            }
        }
        at
    }
}
