//! A sink in memory.
ghost use Rattle.std.specs.Prelude.{◌≡◌, ◌≤◌, ◌-◌, ◌+◌, ◌<◌, ◌&&◌, Some, Ok, Err, take, if◌then◌else◌, ◌++◌, [], length, IfOk, IsOkAnd, OnErr};
ghost use Rattle.host_io.specs.Files.{Rose};
ghost use Rattle.host_io.specs.Memory.{SinkState, count_after, fails_next, taken_of, takes_of};

use crate::calls::{count_call, one_more};
use crate::{Sink, WriteFail};
use code_units::Memory;
use std::alloc::Global;
use std::marker::Model;

/// A sink in memory. A write appends as many bytes as the piece has, as `per_call` allows and as
/// there is room for; `fail` lists the calls, counted from 1, that fail. Past the last value of
/// `calls` a call has no number.
#[derive(Drop)]
pub struct MemSink {
    held: Vec<u8>,
    room: usize,
    per_call: usize,
    fail: Vec<u32>,
    calls: u32,
    faults: u64,
}

impl Model for MemSink {
    ghost use Rattle.std.specs.Prelude.{◌≤◌, vec_capacity};
    ghost use Rattle.host_io.specs.Memory.{SinkState};

    ghost Value = { SinkState };

    ghost view = { λ s. record { held = s.held.items; room = s.room; per_call = s.per_call; fail = s.fail.items; calls = s.calls; faults = s.faults } };

    // `write` grows nothing.
    ghost invariant = { λ s. s.room ≤ vec_capacity s.held };
}

impl MemSink {
    /// An empty sink. Its room is reserved here, so `write` takes no memory.
    pub fn new(
        alloc: Global,
        room: usize,
        per_call: usize,
        fail: Vec<u32>,
    ) -> Result<MemSink, Memory>
        ensures { IfOk result (λ s. s
            ≡ record { held = []; room = room; per_call = per_call; fail = fail.items; calls = 0; faults = 0 }) }
    {
        Ok(MemSink {
            held: Vec::with_capacity(alloc, room)?,
            room,
            per_call,
            fail,
            calls: 0,
            faults: 0,
        })
    }

    /// The bytes that it holds.
    pub fn held(&self) -> &[u8]
        ensures { result.now ≡ self.now.held }
    {
        self.held.as_slice()
    }
}

impl Sink for MemSink {
    ghost held = { λ s. Some s.held };

    ghost takes = { takes_of };

    ghost faults = { λ s. s.faults };

    #[tactic(auto, using(crate::proofs::Listed::fails_past, crate::proofs::Listed::past_from, crate::proofs::Listed::takes_past, crate::proofs::Listed::takes_less))]
    fn write(&mut self, bytes: &[u8]) -> Result<usize, WriteFail>
        ensures answer { result ≡
            (if fails_next self.old.fail self.old.calls then Err WriteFail.Failed else Ok
            (taken_of self.old (length bytes.now))) }
        ensures after { self.new ≡ record
            self.old { held = self.new.held; calls = count_after self.old.calls; faults = self.new.faults } }
        ensures appended { IfOk result (λ n. self.new.held ≡ self.old.held ++ take n bytes.now) }
        ensures kept { OnErr result (self.new.held ≡ self.old.held) }
        ensures count { self.old.faults ≤ self.new.faults }
        ensures nothing { IfOk result (λ n. n ≡ 0 → 0 < length bytes.now → Rose self.old.faults self.new.faults) }
        ensures cause { OnErr result (Rose self.old.faults self.new.faults) }
        ensures blameless { IfOk result (λ n. 0 < n → self.new.faults ≡ self.old.faults) }
        ensures room { 0 < length bytes.now → length bytes.now ≤ takes_of self.old
            → IsOkAnd result (λ n. (0 < n) × (takes_of self.new + n ≡ takes_of self.old)) }
    {
        if count_call(&mut self.calls, &self.fail) {
            self.faults = one_more(self.faults);
            return Err(WriteFail::Failed);
        }
        let left = self.room.saturating_sub(self.held.len());
        let count = bytes.len().min(self.per_call).min(left);
        if count == 0 && !bytes.is_empty() {
            self.faults = one_more(self.faults);
            return Ok(0);
        }
        if self.held.extend_from_slice(&bytes[..count]).is_err() {
            self.faults = one_more(self.faults);
            return Err(WriteFail::Failed);
        }
        Ok(count)
    }
}
