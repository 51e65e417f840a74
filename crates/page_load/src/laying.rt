//! The pieces of a page, one after another.
ghost use Rattle.std.specs.Prelude.{◌≡◌, ◌<◌, ◌≤◌, ◌++◌, ℕ, [], ◌∷◌, List, IfOk, OnOk, length, map, true};
ghost use Rattle.plain_tree.specs.Plains.{unplaced_all};
ghost use Rattle.plain_tree.specs.Trees.{PlainTrees};
ghost use Rattle.js_tree.specs.Forest.{Forest};
ghost use Rattle.js_image.specs.Held.{IsConfined};
ghost use Rattle.object_store.specs.Owned.{owned};
ghost use Rattle.page_build.specs.Homes.{HaveRaws, IsAway, IsHome};
ghost use Rattle.page_build.specs.Layout.{IsLaidOut, IsLot, Lot, each_tree};
ghost use Rattle.page_build.specs.Standing.{IsStanding};
ghost use Rattle.page_plan.specs.Pages.{PagePiece, Place, piece_of};
ghost use Rattle.page_load.specs.Laying.{AreLaid, LaysOut};

use code_units::Memory;
use keyed_names::Keys;
use object_store::Store;
use page_build::{add_markup, add_slot, new_page};
use page_plan::{Piece, SlotSpec};
use page_tree::{NodeId, Page};
use plain_tree::Plain;
use std::alloc::Global;

/// The store and the page, and the node that stands in each slot.
#[derive(Drop)]
pub(crate) struct Base {
    pub(crate) store: Store,
    pub(crate) page: Page,
    pub(crate) roots: Vec<NodeId>,
}

// A store and a page without widgets.
fn new_base(alloc: Global, keys: Keys, slots: &[SlotSpec]) -> Result<Base, Memory>
    ensures none { IfOk result (λ base. base.roots.items ≡ []) }
    ensures laid { IfOk result (λ base. AreLaid slots.now base.roots.items base.store base.page) }
    ensures lays { IfOk result (λ base. LaysOut base.page base.roots.items []) }
{
    let store = Store::new(alloc, keys)?;
    let page = new_page(alloc, keys)?;
    let roots = Vec::new(alloc);
    Ok(Base { store, page, roots })
}

// Trees of the host come behind the last child of `body`, and each of their nodes gets its cell.
fn lay_markup(
    alloc: Global,
    store: &mut Store,
    page: &mut Page,
    content: &[Plain],
) -> Result<(), Memory>
    ensures away { OnOk result ((v : ℕ) → v < 32 → IsAway page.old v → IsAway page.new v) }
    ensures home { OnOk result ((v : ℕ) (tree : PlainTrees) → v < 32 → IsHome page.old v tree
        → IsHome page.new v tree) }
    ensures raws { OnOk result (HaveRaws store.old page.old → HaveRaws store.new page.new) }
    ensures lots { OnOk result ((lots : List Lot) → IsLaidOut page.old lots
        → IsLaidOut page.new (lots ++ each_tree (unplaced_all content.now))) }
    ensures kept { OnOk result ((lot : Lot) (n : ℕ) → IsLot page.old lot n → IsLot page.new lot n) }
    ensures standing { OnOk result ((n : ℕ) → IsStanding page.old n → IsStanding page.new n) }
    ensures same { OnOk result ((v : ℕ) → owned v store.new ≡ owned v store.old) }
    ensures confined { OnOk result ((fs : List Forest) (v : ℕ) → IsConfined fs v store.old
        → IsConfined fs v store.new) }
{
    'trees: for tree in content {
        add_markup(alloc, store, page, tree)?;
    }
    Ok(())
}

// Whether a slot is the next.
fn is_next(number: u32, next: usize, slots: &[SlotSpec]) -> bool
    ensures next { result ≡ true → number ≡ next }
    ensures there { result ≡ true → next < length slots.now }
{
    number as usize == next && next < slots.len()
}

// The next slot comes.
fn lay_slot(alloc: Global, base: &mut Base, slots: &[SlotSpec]) -> Result<(), Memory>
    requires few { length slots.now ≤ 16 }
    requires there { length base.old.roots.items < length slots.now }
    requires laid { AreLaid slots.now base.old.roots.items base.old.store base.old.page }
    ensures laid { OnOk result (AreLaid slots.now base.new.roots.items base.new.store base.new.page) }
    ensures lays { OnOk result ((pieces : List PagePiece) → LaysOut base.old.page base.old.roots.items pieces
        → LaysOut base.new.page base.new.roots.items (pieces ++ Place (length base.old.roots.items) ∷ [])) }
{
    let at = base.roots.len();
    let node = add_slot(
        alloc,
        &mut base.store,
        &mut base.page,
        at as u32,
        &slots[at],
    )?;
    base.roots.push(node)?;
    Ok(())
}

// The next piece comes.
fn lay_piece(
    alloc: Global,
    base: &mut Base,
    slots: &[SlotSpec],
    piece: &Piece,
) -> Result<(), Memory>
    requires few { length slots.now ≤ 16 }
    requires laid { AreLaid slots.now base.old.roots.items base.old.store base.old.page }
    ensures laid { OnOk result (AreLaid slots.now base.new.roots.items base.new.store base.new.page) }
    ensures lays { OnOk result ((pieces : List PagePiece) → LaysOut base.old.page base.old.roots.items pieces
        → LaysOut base.new.page base.new.roots.items (pieces ++ piece_of piece.now ∷ [])) }
{
    match piece {
        Piece::Html(content) => lay_markup(alloc, &mut base.store, &mut base.page, content),
        Piece::Slot(number) => {
            if !is_next(*number, base.roots.len(), slots) {
                return Err(Memory);
            }
            lay_slot(alloc, base, slots)
        }
    }
}

/// The page of these pieces, in order, with the store. Each slot stands once among them, in order.
pub(crate) fn lay_pieces(
    alloc: Global,
    keys: Keys,
    pieces: &[Piece],
    slots: &[SlotSpec],
) -> Result<Base, Memory>
    requires few { length slots.now ≤ 16 }
    ensures all { IfOk result (λ base. length base.roots.items ≡ length slots.now) }
    ensures laid { IfOk result (λ base. AreLaid slots.now base.roots.items base.store base.page) }
    ensures lays { IfOk result (λ base. LaysOut base.page base.roots.items (map piece_of pieces.now)) }
{
    let mut base = new_base(alloc, keys, slots)?;
    'pieces: for piece in pieces {
        lay_piece(alloc, &mut base, slots, piece)?;
    }
    if base.roots.len() != slots.len() {
        return Err(Memory);
    }
    Ok(base)
}
