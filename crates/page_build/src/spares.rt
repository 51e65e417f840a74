//! Trees that stand under nothing yet.
ghost use Rattle.std.specs.Prelude.{◌≡◌, ◌+◌, ◌<◌, ◌≤◌, ℕ, List, None, Some, true, IfOk, OnErr, OnOk, length};
ghost use Rattle.code_units.specs.declared.owner.Owner.TheVariants.{Host};
ghost use Rattle.plain_tree.specs.Plains.{unplaced};
ghost use Rattle.plain_tree.specs.Trees.{size};
ghost use Rattle.js_tree.specs.Forest.{Forest};
ghost use Rattle.js_image.specs.Held.{Kept};
ghost use Rattle.object_store.specs.Owned.{owned};
ghost use Rattle.page_nodes.specs.Adds.{IsAdded};
ghost use Rattle.page_nodes.specs.Owners.{is_owner, same_owner};
ghost use Rattle.page_tree.specs.Counts.{count_of};
ghost use Rattle.page_tree.specs.Pages.{SameRoots, nodes};
ghost use Rattle.page_image.specs.Image.{root_of};
ghost use Rattle.native_image.specs.Sound.{HasRaw};
ghost use Rattle.page_build.specs.Homes.{HaveRaws, IsAway, IsHome};
ghost use Rattle.page_build.specs.Layout.{IsLot, lot_of};
ghost use Rattle.page_build.specs.Standing.{HostJoins, IsSamePage, IsSpare, Joins};

use crate::growing::{add_cells, add_plain};
use crate::hosting::MOST_OF_HOST;
use crate::rooting::one_tree;
use crate::slots::empty_div;
use code_units::{Memory, Owner, Text};
use object_store::Store;
use page_nodes::room_after;
use page_tree::{NodeId, Page};
use plain_tree::Plain;
use std::alloc::Global;

/// How many nodes a widget may have.
const MOST_OF_WIDGET: u32 = 16_384;

// How many nodes the page has.
fn count(page: &Page) -> u32
    ensures { result ≡ length (nodes page.now) }
{
    let mut many = page.made(Owner::Host);
    'widgets: for w in 0..32 {
        many += page.made(Owner::Widget(w));
    }
    many
}

// The nodes that a tree will have get their cells before it comes, if it fits into this room.
fn add_cells_before(
    alloc: Global,
    store: &mut Store,
    page: &Page,
    plain: &Plain,
    room: u32,
) -> Result<(), Memory>
    ensures fits { OnOk result (size (unplaced plain.now) ≤ room) }
    ensures there { OnOk result ((n : ℕ) → length (nodes page.now) ≤ n
        → n < length (nodes page.now) + size (unplaced plain.now) → HasRaw store.new.cells n) }
    ensures same { (v : ℕ) → owned v store.new ≡ owned v store.old }
    ensures kept { (fs : List Forest) (w : ℕ) → Kept fs w store.old store.new }
{
    let Some(left) = room_after(plain, room) else {
        return Err(Memory);
    };
    add_cells(alloc, store, count(page), room - left)
}

// A tree of an owner comes, without a parent, if it fits into this room, and each of its nodes has its cell. Where
// memory is wanted no node comes.
fn add_loose(
    alloc: Global,
    store: &mut Store,
    page: &mut Page,
    owner: Owner,
    plain: &Plain,
    room: u32,
) -> Result<NodeId, Memory>
    requires owner { is_owner owner ≡ true }
    requires room { same_owner owner Host ≡ true → count_of Host (nodes page.old) + room ≤ 300000 }
    ensures added { IfOk result (λ id. IsAdded (nodes page.old) (nodes page.new) id owner (unplaced plain.now)) }
    ensures unchanged { OnErr result (nodes page.new ≡ nodes page.old) }
    ensures roots { SameRoots page.old page.new }
    ensures raws { HaveRaws store.old page.old → HaveRaws store.new page.new }
    ensures same { (v : ℕ) → owned v store.new ≡ owned v store.old }
    ensures kept { (fs : List Forest) (w : ℕ) → Kept fs w store.old store.new }
{
    add_cells_before(alloc, store, page, plain, room)?;
    add_plain(alloc, page, owner, plain)
}

/// A widget that has nothing of the page gets its root, which stands under nothing, and each of its nodes its cell.
/// All others keep what they have. Where memory is wanted nothing comes.
pub fn add_spare_root(
    alloc: Global,
    store: &mut Store,
    page: &mut Page,
    w: u32,
    body: &Plain,
) -> Result<NodeId, Memory>
    requires widget { w < 32 }
    requires away { IsAway page.old w }
    ensures home { OnOk result (IsHome page.new w (unplaced body.now)) }
    ensures root { IfOk result (λ n. root_of page.new w ≡ Some n) }
    ensures spare { IfOk result (IsSpare page.new) }
    ensures fresh { IfOk result (λ n. length (nodes page.old) ≤ n) }
    ensures page { Joins w page.old page.new }
    ensures unchanged { OnErr result (IsSamePage page.old page.new) }
    ensures raws { HaveRaws store.old page.old → HaveRaws store.new page.new }
    ensures same { (v : ℕ) → owned v store.new ≡ owned v store.old }
    ensures kept { (fs : List Forest) (v : ℕ) → Kept fs v store.old store.new }
{
    one_tree(body);
    let id = add_loose(alloc, store, page, Owner::Widget(w), body, MOST_OF_WIDGET)?;
    page.make_root(id);
    Ok(id)
}

/// An empty `div` of the host with this `id`, which stands under nothing, and its cell. All widgets keep what they
/// have. Where memory is wanted nothing comes.
pub fn add_spare_div(
    alloc: Global,
    store: &mut Store,
    page: &mut Page,
    name: &Text,
) -> Result<NodeId, Memory>
    ensures lot { IfOk result (IsLot page.new (lot_of name.now None)) }
    ensures spare { IfOk result (IsSpare page.new) }
    ensures fresh { IfOk result (λ n. length (nodes page.old) ≤ n) }
    ensures page { HostJoins page.old page.new }
    ensures unchanged { OnErr result (IsSamePage page.old page.new) }
    ensures raws { HaveRaws store.old page.old → HaveRaws store.new page.new }
    ensures same { (v : ℕ) → owned v store.new ≡ owned v store.old }
    ensures kept { (fs : List Forest) (v : ℕ) → Kept fs v store.old store.new }
{
    let plain = empty_div(alloc, name)?;
    let room = MOST_OF_HOST - page.made(Owner::Host);
    add_loose(alloc, store, page, Owner::Host, &plain, room)
}
