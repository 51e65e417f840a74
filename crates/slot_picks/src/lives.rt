//! The lives of all places: one is picked, and its pick is kept.
ghost use Rattle.std.specs.Prelude.{◌≡◌, ◌≢◌, ℕ, ◌<◌, ◌≤◌, ◌++◌, [], ◌∷◌, IfOk, None, OnErr, OnOk, Some, true, length, slice_get};
ghost use Rattle.life_laws.specs.Life.{Seen, image};
ghost use Rattle.life_laws.specs.Journal.{Kept, PickedAt, journal_room, kept};
ghost use Rattle.native_image.specs.declared.handed.Shared.{Shared as SharedOf};
ghost use Rattle.life_queue.specs.Fine.{FineLife, KeepsLife};
ghost use Rattle.life_queue.specs.Lives.{life_seen};
ghost use Rattle.life_picks.specs.Picking.{PicksLife};
ghost use Rattle.slot_picks.specs.declared.lives.Place.{Place as PlaceOf};
ghost use Rattle.slot_picks.specs.Lives.{FewLives, FineLives, KeepsLivesAndPage, seens_of};
ghost use Rattle.slot_picks.specs.Places.{lent};

use code_units::Memory;
use js_names::Code;
use life_laws::{PickEntry, Picked};
use life_picks::pick_life;
use life_queue::Life;
use native_image::Shared;
use page_tree::NodeId;
use std::alloc::Global;
use std::collections::VecDeque;
use std::mem::swap;

/// A life in its place, with the trees of its own scripts: those of the libraries that its file names, in
/// their order, and then that of its last script.
#[derive(Drop)]
pub struct Place {
    pub life: Life,
    pub codes: Vec<Code>,
    /// The node that stands for it in its slot: its root, or where its file was refused an empty `div` of the
    /// host. `body` where no life was born.
    pub root: NodeId,
    /// How many of its posts rounds have taken.
    pub told: u32,
}

/// The lives of all places with all that they share, and the picks that are kept of them. The place of a
/// life is its number as an owner. While a life is picked, the trees of its own scripts, and no others, are
/// lent to what is shared.
#[derive(Drop)]
pub struct Lives {
    pub shared: Shared,
    pub places: Vec<Place>,
    /// The last picks that were not idle.
    pub journal: VecDeque<PickEntry>,
}

// How many picks are kept.
const KEPT: usize = 65_536;

// What a life has spent.
fn spent_of(life: &Life) -> u64
    requires fine { (h : SharedOf) × (w : ℕ) × FineLife h w life.now }
    ensures { (h : SharedOf) (w : ℕ) → result ≡ (image (life_seen h w life.now)).spent }
{
    match &life.turn {
        None => life.records.spent,
        Some(turn) => life.records.spent + u64::from(life.grant - turn.left),
    }
}

/// What the life in this place has spent.
pub fn spent_at(lives: &Lives, v: u32) -> u64
    requires there { v < length lives.now.places.items }
    requires accepted { (p : PlaceOf) → slice_get lives.now.places.items v ≡ Some p → p.life.accepted ≡ true }
    requires fine { FineLives lives.now }
    ensures { (s : Seen) → slice_get (seens_of lives.now) v ≡ Some s → result ≡ (image s).spent }
{
    spent_of(&lives.places[v as usize].life)
}

// One entry more; of a full journal the oldest is dropped, and no memory is wanted.
fn keep(journal: &mut VecDeque<PickEntry>, entry: PickEntry) -> Result<(), Memory>
    requires { length journal.old.items ≤ journal_room }
    ensures entry { OnOk result (journal.new.items ≡ kept (journal.old.items ++ entry ∷ [])) }
    ensures short { length journal.new.items ≤ journal_room }
    ensures still { OnErr result (journal.new.items ≡ journal.old.items) }
{
    if journal.len() < KEPT {
        journal.push_back(entry)?;
        return Ok(());
    }
    let _oldest = journal.pop_front();
    Ok(journal.push_back(entry)?)
}

// A life is picked over the trees of its own scripts.
fn pick_lent(
    alloc: Global,
    shared: &mut Shared,
    place: &mut Place,
    k: u32,
) -> Result<Picked, Memory>
    requires slice { 0 < k }
    requires fine { FineLife (lent shared.old place.old) place.old.life.widget.id.index place.old.life }
    ensures picked { IfOk result
        (λ r. PicksLife (lent shared.old place.old)
        (lent shared.new place.new) place.old.life.widget.id.index k r place.old.life place.new.life) }
    ensures kept { KeepsLife place.old.life.widget.id.index (lent shared.old place.old)
        (lent shared.new place.new) place.old.life place.new.life }
    ensures none { OnErr result (place.new.life.turn ≡ None) }
    ensures rest { shared.new.codes ≡ shared.old.codes }
    ensures root { place.new.root ≡ place.old.root }
    ensures told { place.new.told ≡ place.old.told }
{
    swap(&mut shared.codes, &mut place.codes);
    let picked = pick_life(alloc, shared, &mut place.life, k);
    swap(&mut shared.codes, &mut place.codes);
    picked
}

// The life in a place is picked.
fn pick_one(alloc: Global, lives: &mut Lives, v: u32, k: u32) -> Result<Picked, Memory>
    requires there { v < length lives.old.places.items }
    requires slice { 0 < k }
    requires accepted { (p : PlaceOf) → slice_get lives.old.places.items v ≡ Some p → p.life.accepted ≡ true }
    requires fine { FineLives lives.old }
    ensures picked { IfOk result (λ r. PickedAt v k r (seens_of lives.old) (seens_of lives.new)) }
    ensures fine { OnOk result (FineLives lives.new) }
    ensures few { OnOk result ((n : ℕ) → FewLives n lives.old → FewLives n lives.new) }
    ensures accepted { (p : PlaceOf) → slice_get lives.new.places.items v ≡ Some p → p.life.accepted ≡ true }
    ensures length { length lives.new.places.items ≡ length lives.old.places.items }
    ensures journal { lives.new.journal.items ≡ lives.old.journal.items }
    ensures others { (u : ℕ) → u ≢ v → slice_get (seens_of lives.new) u ≡ slice_get (seens_of lives.old) u }
    ensures stays { KeepsLivesAndPage lives.old lives.new }
{
    pick_lent(alloc, &mut lives.shared, &mut lives.places[v as usize], k)
}

/// One place is picked, and its pick is kept. Where no file was accepted there is nothing to do. `Memory` keeps no
/// pick.
pub(crate) fn pick_kept(alloc: Global, lives: &mut Lives, v: u32, k: u32) -> Result<Picked, Memory>
    requires there { v < length lives.old.places.items }
    requires slice { 0 < k }
    requires fine { FineLives lives.old }
    ensures kept { IfOk result
        (λ r. Kept v k r (seens_of lives.old) (seens_of lives.new) lives.old.journal.items lives.new.journal.items) }
    ensures fine { OnOk result (FineLives lives.new) }
    ensures few { OnOk result ((n : ℕ) → FewLives n lives.old → FewLives n lives.new) }
    ensures others { (u : ℕ) → u ≢ v → slice_get (seens_of lives.new) u ≡ slice_get (seens_of lives.old) u }
    ensures still { OnErr result (lives.new.journal.items ≡ lives.old.journal.items) }
    ensures stays { KeepsLivesAndPage lives.old lives.new }
{
    if !lives.places[v as usize].life.accepted {
        return Ok(Picked::Idle);
    }
    let before = spent_at(lives, v);
    let picked = pick_one(alloc, lives, v, k)?;
    if let Picked::Idle = picked {
        return Ok(picked);
    }
    let after = spent_at(lives, v);
    keep(
        &mut lives.journal,
        PickEntry {
            widget: v,
            before,
            after,
            slice: k,
        },
    )?;
    Ok(picked)
}
