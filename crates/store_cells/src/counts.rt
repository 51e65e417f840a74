//! What widgets have paid, and why a call of the store is refused.
ghost use Rattle.std.specs.Prelude.{◌≡◌, ◌+◌, ◌≤◌, None, Some, IfOk, IfErr, OnErr, OnOk, replicate};
ghost use Rattle.store_cells.specs.Cells.{kept_cells, number_in};
ghost use Rattle.store_cells.specs.Costs.{cost_refusal, kept_slots, kept_units, paid, slots_refusal, units_refusal, whole_refusal};
ghost use Rattle.store_cells.specs.Host.{nothing_paid};
ghost use Rattle.store_cells.specs.Lists.{changed};
ghost use Rattle.store_cells.specs.Shape.{AreWithin};
ghost use Rattle.store_cells.specs.declared.counts.StoreFault.TheVariants.{Memory as out_of_memory};

use code_units::{Memory, Owner};
use std::alloc::{AllocError, Global};

/// How many visible cells a widget may have over its life.
pub const CELL_LIMIT: u32 = 524_288;

/// How many slots a widget may have over its life.
pub const SLOT_LIMIT: u32 = 1_048_576;

/// How many text units a widget may have over its life.
pub const UNIT_LIMIT: u32 = 2_097_152;

/// How many nodes a page may have over its life.
pub const NODE_LIMIT: u32 = 2_097_152;

/// What a widget has paid.
#[derive(Clone, Copy, PartialEq, Eq, Drop)]
pub struct Counts {
    pub cells: u32,
    pub slots: u32,
    pub units: u32,
}

/// Why a call was refused; `kept` is what the widget has paid so far.
#[derive(Clone, Copy, PartialEq, Eq, Drop)]
pub enum StoreFault {
    /// The cost passes the limit of visible cells.
    Cells { kept: u32 },
    /// The cost passes the limit of slots.
    Slots { kept: u32 },
    /// The cost passes the limit of text units.
    Units { kept: u32 },
    /// No widget may write to the cell: it is a Bunch or the host's.
    Closed,
    /// The `length` of an Array was given something else than a whole number from 0 to 4294967295.
    BadLength,
    /// There was no memory.
    Memory,
}

/// What a widget has paid at first.
pub const NOTHING_PAID: Counts = Counts {
    cells: 0,
    slots: 0,
    units: 0,
};

/// The counts of 32 widgets that have paid nothing.
pub fn first_counts(alloc: Global) -> Result<Vec<Counts>, AllocError>
    ensures { IfOk result (λ kept. kept.items ≡ replicate 32 nothing_paid) }
{
    vec![in alloc; NOTHING_PAID; 32]
}

impl From<Memory> for StoreFault {
    ghost from_gives = { λ _ e. e ≡ out_of_memory };

    fn from(_: Memory) -> StoreFault {
        StoreFault::Memory
    }
}

/// The number of a widget.
pub fn widget(owner: Owner) -> u32
    ensures { result ≡ number_in owner }
{
    match owner {
        Owner::Host => 0,
        Owner::Widget(w) => w,
    }
}

/// What a widget has paid.
#[inline(always)]
pub fn counts_of(kept: &Vec<Counts>, w: u32) -> Counts
    ensures cells { result.cells ≡ kept_cells kept.now.items w }
    ensures slots { result.slots ≡ kept_slots kept.now.items w }
    ensures units { result.units ≡ kept_units kept.now.items w }
{
    match kept.get(w as usize) {
        None => NOTHING_PAID,
        Some(counts) => *counts,
    }
}

/// Whether a widget can pay for cells and for so many slots; then how many slots these are.
#[inline(always)]
pub fn afford(kept: &Vec<Counts>, w: u32, cells: u32, slots: usize) -> Result<u32, StoreFault>
    ensures ok { OnOk result (cost_refusal kept.now.items w cells slots ≡ None) }
    ensures err { IfErr result (λ e. cost_refusal kept.now.items w cells slots ≡ Some e) }
    ensures count { IfOk result (λ n. n ≡ slots) }
    ensures cells { OnOk result (kept_cells kept.now.items w + cells ≤ CELL_LIMIT) }
    ensures slots { OnOk result (kept_slots kept.now.items w + slots ≤ SLOT_LIMIT) }
{
    let paid = counts_of(kept, w);
    if u64::from(paid.cells) + u64::from(cells) > u64::from(CELL_LIMIT) {
        return Err(StoreFault::Cells { kept: paid.cells });
    }
    if paid.slots > SLOT_LIMIT || slots > (SLOT_LIMIT - paid.slots) as usize {
        return Err(StoreFault::Slots { kept: paid.slots });
    }
    Ok(slots as u32)
}

/// Whether a widget can pay a whole cost: the first of units, cells and slots that passes its limit.
pub fn afford_all(kept: &Vec<Counts>, w: u32, cost: Counts) -> Result<(), StoreFault>
    ensures ok { OnOk result (whole_refusal kept.now.items w cost ≡ None) }
    ensures err { IfErr result (λ e. whole_refusal kept.now.items w cost ≡ Some e) }
{
    let paid = counts_of(kept, w);
    if u64::from(paid.units) + u64::from(cost.units) > u64::from(UNIT_LIMIT) {
        return Err(StoreFault::Units { kept: paid.units });
    }
    if u64::from(paid.cells) + u64::from(cost.cells) > u64::from(CELL_LIMIT) {
        return Err(StoreFault::Cells { kept: paid.cells });
    }
    if u64::from(paid.slots) + u64::from(cost.slots) > u64::from(SLOT_LIMIT) {
        return Err(StoreFault::Slots { kept: paid.slots });
    }
    Ok(())
}

/// Counts what a widget pays.
#[inline(always)]
pub fn pay(kept: &mut Vec<Counts>, w: u32, cells: u32, slots: u32)
    requires cells { kept_cells kept.old.items w + cells ≤ CELL_LIMIT }
    requires slots { kept_slots kept.old.items w + slots ≤ SLOT_LIMIT }
    requires within { AreWithin kept.old.items }
    ensures done { kept.new.items ≡ changed kept.old.items w (paid cells slots 0) }
    ensures within { AreWithin kept.new.items }
{
    if let Some(counts) = kept.get_mut(w as usize) {
        counts.cells += cells;
        counts.slots += slots;
    }
}

/// Counts text units, where they fit.
pub fn charge_units(kept: &mut Vec<Counts>, w: u32, n: u32) -> Result<(), StoreFault>
    requires within { AreWithin kept.old.items }
    ensures ok { OnOk result (units_refusal kept.old.items w n ≡ None) }
    ensures done { OnOk result (kept.new.items ≡ changed kept.old.items w (paid 0 0 n)) }
    ensures err { IfErr result (λ e. units_refusal kept.old.items w n ≡ Some e) }
    ensures same { OnErr result (kept.new.items ≡ kept.old.items) }
    ensures within { AreWithin kept.new.items }
{
    let units = counts_of(kept, w).units;
    if u64::from(units) + u64::from(n) > u64::from(UNIT_LIMIT) {
        return Err(StoreFault::Units { kept: units });
    }
    pay_units(kept, w, n);
    Ok(())
}

fn pay_units(kept: &mut Vec<Counts>, w: u32, n: u32)
    requires units { kept_units kept.old.items w + n ≤ UNIT_LIMIT }
    requires within { AreWithin kept.old.items }
    ensures done { kept.new.items ≡ changed kept.old.items w (paid 0 0 n) }
    ensures within { AreWithin kept.new.items }
{
    if let Some(counts) = kept.get_mut(w as usize) {
        counts.units += n;
    }
}

/// Counts slots, where they fit.
pub fn charge_slots(kept: &mut Vec<Counts>, w: u32, n: u32) -> Result<(), StoreFault>
    requires within { AreWithin kept.old.items }
    ensures ok { OnOk result (slots_refusal kept.old.items w n ≡ None) }
    ensures done { OnOk result (kept.new.items ≡ changed kept.old.items w (paid 0 n 0)) }
    ensures err { IfErr result (λ e. slots_refusal kept.old.items w n ≡ Some e) }
    ensures same { OnErr result (kept.new.items ≡ kept.old.items) }
    ensures within { AreWithin kept.new.items }
{
    let slots = counts_of(kept, w).slots;
    if u64::from(slots) + u64::from(n) > u64::from(SLOT_LIMIT) {
        return Err(StoreFault::Slots { kept: slots });
    }
    pay(kept, w, 0, n);
    Ok(())
}
