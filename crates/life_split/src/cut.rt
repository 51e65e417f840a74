//! The cut at the swaps.
ghost use Rattle.std.specs.Prelude.{◌≡◌, ◌<◌, ◌+◌, ◌^◌, ℕ, [], true, IfOk, OnOk, map, length, replicate, slice_index_or};
ghost use Rattle.std.specs.List.{All, range_with_len};
ghost use Rattle.life_split.specs.Cut.{is_below, lives_of};
ghost use Rattle.life_split.specs.Steps.{cut_on, next_from, with_last, with_life};

use crate::items::{Life, LifeItem};
use code_units::Memory;
use std::alloc::Global;

/// The lives of each of so many slots, in order: the items, cut at the swaps of that slot. Slots are
/// named by their numbers, from 0.
pub fn lives(alloc: Global, slots: u32, items: &[LifeItem]) -> Result<Vec<Vec<Life>>, Memory>
    requires few { length items.now < 2 ^ 32 }
    requires below { All (λ i. is_below slots i ≡ true) items.now }
    ensures { IfOk result (λ lives. map (λ v. v.items) lives.items
        ≡ map (lives_of items.now) (range_with_len 0 slots)) }
{
    let mut lives = no_lives(alloc, slots)?;
    'items: for (at, item) in items.iter().enumerate() {
        cut_at(&mut lives, at as u32, item)?;
    }
    end_lives(&mut lives, items.len() as u32)?;
    Ok(lives)
}

// No life in any of so many slots.
fn no_lives(alloc: Global, slots: u32) -> Result<Vec<Vec<Life>>, Memory>
    ensures { IfOk result (λ lives. map (λ v. v.items) lives.items ≡ replicate slots []) }
{
    let mut lives = Vec::with_capacity(alloc, slots as usize)?;
    'slots: for _ in 0..slots {
        lives.push(Vec::new(alloc))?;
    }
    Ok(lives)
}

// A swap ends a life of its slot.
fn cut_at(lives: &mut Vec<Vec<Life>>, at: u32, item: &LifeItem) -> Result<(), Memory>
    requires fits { at + 1 < 2 ^ 32 }
    requires below { is_below (length lives.old.items) item.now ≡ true }
    ensures slots { length lives.new.items ≡ length lives.old.items }
    ensures lives { OnOk result ((w : ℕ) → w < length lives.old.items →
        slice_index_or (map (λ v. v.items) lives.new.items) w []
        ≡ cut_on w at item.now (slice_index_or (map (λ v. v.items) lives.old.items) w [])) }
{
    match item {
        LifeItem::To(_) => Ok(()),
        LifeItem::All => Ok(()),
        LifeItem::Swap(slot) => add_life(&mut lives[*slot as usize], at, Some(at + 1)),
    }
}

// The last life of each slot ends with all items.
fn end_lives(lives: &mut [Vec<Life>], end: u32) -> Result<(), Memory>
    ensures { OnOk result (map (λ v. v.items) lives.new ≡ map (with_last end) (map (λ v. v.items) lives.old)) }
{
    'slots: for list in lives.iter_mut() {
        add_life(list, end, None)?;
    }
    Ok(())
}

// One life more, from where the one before ended.
fn add_life(lives: &mut Vec<Life>, to: u32, until: Option<u32>) -> Result<(), Memory>
    ensures { OnOk result (lives.new.items ≡ with_life to until lives.old.items) }
{
    let from = next_begin(lives);
    Ok(lives.push(Life { from, to, until })?)
}

// Where the life after these begins.
fn next_begin(lives: &[Life]) -> u32
    ensures { result ≡ next_from lives.now }
{
    match lives.last() {
        Some(life) => life.until.unwrap_or(0),
        None => 0,
    }
}
