//! What a life did.
ghost use Rattle.std.specs.Prelude.{◌≡◌, ◌<◌, ℕ, IfOk, IsErr, Some, true, option_map, slice_get, slice_index_or, length, false};
ghost use Rattle.life_laws.specs.Life.{Seen, image};
ghost use Rattle.life_laws.specs.Chains.{listed};
ghost use Rattle.slot_picks.specs.Lives.{FineLives, seens_of};
ghost use Rattle.slot_picks.specs.Places.{is_accepted};
ghost use Rattle.slot_picks.specs.QueueLives as life;
ghost use Rattle.slot_picks.specs.QueueLives.{life_seen};
ghost use Rattle.native_image.specs.declared.handed.Shared.{Shared as SharedOf};
ghost use Rattle.widget_host.specs.Housed.{IsHoused, IsLineOf, accepts, chains, ends, marked, meant_stop, present, seens, swaps};

use crate::host::Host;
use code_units::{Memory, Text};
use js_image::StopCause;
use slot_picks::{Life, Lives, Stop, present, spent_at};
use std::alloc::Global;

/// Why a life has stopped: a turn had no fuel left, or a limit would have been passed.
#[derive(Clone, Copy, Drop)]
pub enum LifeStop {
    Fuel,
    Limit(StopCause),
}

/// What a life did: its turns and the fuel that they spent, the events that led to no node and those that
/// came after its stop, what it logged, and the throws that nothing caught.
#[derive(Drop)]
pub struct RunLine {
    pub stop: Option<LifeStop>,
    pub turns: u32,
    pub spent: u64,
    pub missed: u32,
    pub gone: u32,
    pub log: Vec<Text>,
    pub uncaught: Vec<Text>,
}

// Why a life has stopped, if it has.
fn stop_of(stop: Option<Stop>) -> Option<LifeStop>
    ensures { option_map life.meant_stop stop ≡ option_map meant_stop result }
{
    match stop {
        None => None,
        Some(Stop::Fuel) => Some(LifeStop::Fuel),
        Some(Stop::Due(cause)) => Some(LifeStop::Limit(cause)),
    }
}

// The same texts for a second holder.
fn share_all(alloc: Global, texts: &[Text]) -> Result<Vec<Text>, Memory>
    ensures { IfOk result (λ all. all.items ≡ texts.now) }
{
    let mut all = Vec::new(alloc);
    'texts: for text in texts {
        all.push(text.share()?)?;
    }
    Ok(all)
}

// What a life did that has spent so much.
fn line_of(alloc: Global, life: &Life, spent: u64) -> Result<RunLine, Memory>
    ensures { IfOk result (λ l. (h : SharedOf) (w : ℕ) → spent ≡ (image (life_seen h w life.now)).spent
        → IsLineOf l (image (life_seen h w life.now))) }
{
    let records = &life.records;
    Ok(RunLine {
        stop: stop_of(records.stop),
        turns: records.turns,
        spent,
        missed: records.missed,
        gone: records.gone,
        log: share_all(alloc, &life.widget.log)?,
        uncaught: share_all(alloc, &records.uncaught)?,
    })
}

// What the life with a number did.
fn line_at(alloc: Global, lives: &Lives, v: u32) -> Result<RunLine, Memory>
    requires there { v < length lives.now.places.items }
    requires accepted { is_accepted lives.now.places.items v ≡ true }
    requires fine { FineLives lives.now }
    ensures { IfOk result (λ l. (s : Seen) → slice_get (seens_of lives.now) v ≡ Some s → IsLineOf l (image s)) }
{
    let spent = spent_at(lives, v);
    line_of(alloc, &lives.places[v as usize].life, spent)
}

impl Host {
    /// What the present life of a slot did. Where the host is marked it is answered with `Memory`.
    pub fn line(&self, alloc: Global, w: u32) -> Result<RunLine, Memory>
        requires housed { IsHoused self.now }
        requires there { w < length (chains self.now) }
        requires accepted { accepts self.now (present w (chains self.now)) ≡ true }
        ensures line { IfOk result (λ l. (s : Seen)
            → slice_get (seens self.now) (present w (chains self.now)) ≡ Some s → IsLineOf l (image s)) }
        ensures marked { marked self.now ≡ true → IsErr result }
    {
        if self.marked {
            return Err(Memory);
        }
        let v = present(&self.slots[w as usize].lives);
        line_at(alloc, &self.lives, v)
    }

    /// What the life did that the swap with a number, counted from 0, has ended: one that was taken, of a life whose
    /// file was accepted. Where the host is marked it is answered with `Memory`.
    pub fn retired(&self, alloc: Global, i: u32) -> Result<RunLine, Memory>
        requires housed { IsHoused self.now }
        requires given { i < swaps self.now }
        requires taken { listed (slice_index_or (ends self.now) i 0) (chains self.now) ≡ false }
        requires accepted { accepts self.now (slice_index_or (ends self.now) i 0) ≡ true }
        ensures line { IfOk result (λ l. (s : Seen)
            → slice_get (seens self.now) (slice_index_or (ends self.now) i 0) ≡ Some s → IsLineOf l (image s)) }
        ensures marked { marked self.now ≡ true → IsErr result }
    {
        if self.marked {
            return Err(Memory);
        }
        line_at(alloc, &self.lives, self.ends[i as usize])
    }
}
