//! New nodes of a page, each with its cell.
ghost use Rattle.std.specs.Prelude.{◌≡◌, ◌+◌, ◌<◌, ◌≤◌, ℕ, List, true, IfOk, OnErr, OnOk};
ghost use Rattle.plain_tree.specs.Plains.{unplaced};
ghost use Rattle.js_tree.specs.Forest.{Forest};
ghost use Rattle.js_image.specs.Held.{Kept};
ghost use Rattle.object_store.specs.Owned.{owned};
ghost use Rattle.page_nodes.specs.Adds.{IsAdded};
ghost use Rattle.page_nodes.specs.Owners.{is_owner};
ghost use Rattle.page_tree.specs.Pages.{HasHostRoom, SameRoots, nodes};
ghost use Rattle.native_image.specs.Sound.{HasRaw};
ghost use Rattle.page_build.specs.Homes.{HaveRaws};

use code_units::{Memory, Owner};
use object_store::{NODE_LIMIT, Store};
use page_tree::{NodeId, Page};
use plain_tree::Plain;
use std::alloc::Global;

// A node has its cell.
fn add_cell(alloc: Global, store: &mut Store, node: NodeId) -> Result<(), Memory>
    ensures there { OnOk result (HasRaw store.new.cells node) }
    ensures same { (v : ℕ) → owned v store.new ≡ owned v store.old }
    ensures kept { (fs : List Forest) (w : ℕ) → Kept fs w store.old store.new }
{
    if node >= NODE_LIMIT {
        return Err(Memory);
    }
    match store.add_raw(alloc, node) {
        Ok(_) => Ok(()),
        Err(_) => Err(Memory),
    }
}

/// So many nodes from one on have their cells.
pub(crate) fn add_cells(
    alloc: Global,
    store: &mut Store,
    first: NodeId,
    many: u32,
) -> Result<(), Memory>
    ensures there { OnOk result ((n : ℕ) → first ≤ n → n < first + many → HasRaw store.new.cells n) }
    ensures same { (v : ℕ) → owned v store.new ≡ owned v store.old }
    ensures kept { (fs : List Forest) (w : ℕ) → Kept fs w store.old store.new }
{
    let Some(past) = first.checked_add(many) else {
        return Err(Memory);
    };
    'each: for node in first..past {
        add_cell(alloc, store, node)?;
    }
    Ok(())
}

/// A tree of an owner comes, without a parent. Where memory is wanted no node comes.
pub(crate) fn add_plain(
    alloc: Global,
    page: &mut Page,
    owner: Owner,
    plain: &Plain,
) -> Result<NodeId, Memory>
    requires owner { is_owner owner ≡ true }
    requires room { HasHostRoom (nodes page.old) owner (unplaced plain.now) }
    ensures added { IfOk result (λ id. IsAdded (nodes page.old) (nodes page.new) id owner (unplaced plain.now)) }
    ensures unchanged { OnErr result (nodes page.new ≡ nodes page.old) }
    ensures roots { SameRoots page.old page.new }
{
    match page.add(alloc, owner, plain) {
        Ok(id) => Ok(id),
        Err(_) => Err(Memory),
    }
}

/// A tree of an owner comes, without a parent, and each of its nodes gets its cell.
pub(crate) fn add_nodes(
    alloc: Global,
    store: &mut Store,
    page: &mut Page,
    owner: Owner,
    plain: &Plain,
) -> Result<NodeId, Memory>
    requires owner { is_owner owner ≡ true }
    requires room { HasHostRoom (nodes page.old) owner (unplaced plain.now) }
    ensures added { IfOk result (λ id. IsAdded (nodes page.old) (nodes page.new) id owner (unplaced plain.now)) }
    ensures roots { SameRoots page.old page.new }
    ensures raws { OnOk result (HaveRaws store.old page.old → HaveRaws store.new page.new) }
    ensures same { (v : ℕ) → owned v store.new ≡ owned v store.old }
    ensures kept { (fs : List Forest) (w : ℕ) → Kept fs w store.old store.new }
{
    let before = page.made(owner);
    let id = add_plain(alloc, page, owner, plain)?;
    let many = page.made(owner) - before;
    add_cells(alloc, store, id, many)?;
    Ok(id)
}
