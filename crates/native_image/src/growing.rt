//! New nodes of a widget, each with its cell.
ghost use Rattle.std.specs.Prelude.{◌≡◌, ◌<◌, ◌≤◌, ◌+◌, ℕ, List, true, length, IfOk, OnErr, OnOk};
ghost use Rattle.plain_tree.specs.Plains.{unplaced};
ghost use Rattle.plain_tree.specs.Trees.{size};
ghost use Rattle.js_tree.specs.Forest.{Forest};
ghost use Rattle.object_store.specs.Owned.{owned};
ghost use Rattle.tree_ops.specs.Trees.{numbered};
ghost use Rattle.event_loop.specs.declared.around.Loop.{Loop};
ghost use Rattle.js_image.specs.Held.{Kept};
ghost use Rattle.page_image.specs.Image.{own, owns};
ghost use Rattle.page_image.specs.Stays.{HostStays, KeepsNodes, OthersStay};
ghost use Rattle.native_image.specs.Grown.{IsCopied, IsGrown};
ghost use Rattle.native_image.specs.Sound.{HasRaw, HoldsOwn, IsSound, KeepsAll};

use code_units::{Memory, Owner};
use native_common::WidgetId;
use object_store::{NODE_LIMIT, Store};
use page_image::made;
use page_tree::{NodeId, Page};
use plain_tree::Plain;
use std::alloc::Global;

// A page node gets its cell, if it has none.
fn add_cell(alloc: Global, store: &mut Store, node: NodeId) -> Result<(), Memory>
    ensures there { OnOk result (HasRaw store.new.cells node) }
    ensures same { (v : ℕ) → owned v store.new ≡ owned v store.old }
    ensures kept { (fs : List Forest) (w : ℕ) → Kept fs w store.old store.new }
{
    if node >= NODE_LIMIT {
        return Err(Memory);
    }
    match store.add_raw(alloc, node) {
        Ok(_) => Ok(()),
        Err(_) => Err(Memory),
    }
}

// So many page nodes from one on get their cells.
fn add_cells(alloc: Global, store: &mut Store, first: NodeId, many: u32) -> Result<(), Memory>
    ensures there { OnOk result ((n : ℕ) → first ≤ n → n < first + many → HasRaw store.new.cells n) }
    ensures same { (v : ℕ) → owned v store.new ≡ owned v store.old }
    ensures kept { (fs : List Forest) (w : ℕ) → Kept fs w store.old store.new }
{
    let Some(past) = first.checked_add(many) else {
        return Err(Memory);
    };
    'each: for node in first..past {
        add_cell(alloc, store, node)?;
    }
    Ok(())
}

// Adds a plain tree of a widget behind all its other trees.
fn add_plain(alloc: Global, page: &mut Page, w: WidgetId, plain: &Plain) -> Result<NodeId, Memory>
    ensures grown { IfOk result (λ id. IsGrown w.index page.old page.new id (size (unplaced plain.now))
        (numbered (length (own page.old w.index)) (unplaced plain.now))) }
    ensures kept { OnErr result (KeepsNodes page.old page.new) }
    ensures others { OnErr result (OthersStay page.old page.new w.index) }
    ensures host { OnErr result (HostStays page.old page.new) }
{
    match page.add(alloc, Owner::Widget(w.index), plain) {
        Ok(id) => Ok(id),
        Err(_) => Err(Memory),
    }
}

// Adds a copy of a widget's node, with all below it, behind all its other trees.
fn copy_plain(alloc: Global, page: &mut Page, w: WidgetId, node: NodeId) -> Result<NodeId, Memory>
    requires { owns page.old w.index node ≡ true }
    ensures grown { IfOk result (λ id. IsCopied w.index page.old page.new id node) }
    ensures kept { OnErr result (KeepsNodes page.old page.new) }
    ensures others { OnErr result (OthersStay page.old page.new w.index) }
    ensures host { OnErr result (HostStays page.old page.new) }
{
    match page.copy(alloc, node) {
        Ok(id) => Ok(id),
        Err(_) => Err(Memory),
    }
}

/// Adds a plain tree of a widget behind all its other trees, and gives each of its nodes its cell.
/// Where the page does not take it, it is answered like want of memory.
pub fn add_tree(
    alloc: Global,
    store: &mut Store,
    page: &mut Page,
    w: WidgetId,
    plain: &Plain,
) -> Result<NodeId, Memory>
    ensures grown { IfOk result (λ id. IsGrown w.index page.old page.new id (size (unplaced plain.now))
        (numbered (length (own page.old w.index)) (unplaced plain.now))) }
    ensures sound { OnOk result ((l : Loop) → IsSound w.index store.old page.old l
        → IsSound w.index store.new page.new l) }
    ensures same { (v : ℕ) → owned v store.new ≡ owned v store.old }
    ensures store { (fs : List Forest) → Kept fs w.index store.old store.new }
    ensures kept { (l : Loop) → HoldsOwn w.index store.old page.old l
        → KeepsAll w.index store.old store.new page.old page.new l }
{
    let before = made(page, w.index);
    let id = add_plain(alloc, page, w, plain)?;
    let many = made(page, w.index) - before;
    add_cells(alloc, store, id, many)?;
    Ok(id)
}

/// Adds a copy of a widget's node, with all below it and without ids, as `add_tree` does.
pub fn copy_tree(
    alloc: Global,
    store: &mut Store,
    page: &mut Page,
    w: WidgetId,
    node: NodeId,
) -> Result<NodeId, Memory>
    requires { owns page.old w.index node ≡ true }
    ensures grown { IfOk result (λ id. IsCopied w.index page.old page.new id node) }
    ensures sound { OnOk result ((l : Loop) → IsSound w.index store.old page.old l
        → IsSound w.index store.new page.new l) }
    ensures same { (v : ℕ) → owned v store.new ≡ owned v store.old }
    ensures store { (fs : List Forest) → Kept fs w.index store.old store.new }
    ensures kept { (l : Loop) → HoldsOwn w.index store.old page.old l
        → KeepsAll w.index store.old store.new page.old page.new l }
{
    let before = made(page, w.index);
    let id = copy_plain(alloc, page, w, node)?;
    let many = made(page, w.index) - before;
    add_cells(alloc, store, id, many)?;
    Ok(id)
}
