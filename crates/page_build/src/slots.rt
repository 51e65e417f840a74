//! What the slots of a page show.
ghost use Rattle.std.specs.Prelude.{◌≡◌, ◌≢◌, ◌++◌, ◌∷◌, [], ◌<◌, ℕ, List, None, IfOk, OnOk};
ghost use Rattle.js_tree.specs.Forest.{Forest};
ghost use Rattle.plain_tree.specs.Plains.{unplaced};
ghost use Rattle.plain_tree.specs.Trees.{PlainTrees};
ghost use Rattle.js_image.specs.Held.{IsConfined};
ghost use Rattle.object_store.specs.Owned.{owned};
ghost use Rattle.page_plan.specs.Pages.{root_of};
ghost use Rattle.page_build.specs.Homes.{HaveRaws, IsAway, IsHome, IsPlaced};
ghost use Rattle.page_build.specs.Layout.{IsLaidOut, IsLot, Lot, Spot, home_of, lot_of};
ghost use Rattle.page_build.specs.Standing.{IsStanding};

use crate::hosting::add_markup;
use crate::rooting::add_root;
use code_units::{Memory, Text};
use js_image::word;
use object_store::Store;
use page_plan::{SlotContent, SlotSpec};
use page_tree::{NodeId, Page};
use plain_tree::{Attr, Plain};
use std::alloc::Global;

/// An empty `div` with this `id`.
pub(crate) fn empty_div(alloc: Global, name: &Text) -> Result<Plain, Memory>
    ensures { IfOk result (λ plain. unplaced plain ≡ root_of name.now None) }
{
    let mut attrs = Vec::new(alloc);
    let id = word(alloc, b"id")?;
    let value = name.share()?;
    attrs.push(Attr {
        name: id,
        value,
        at: 0,
        value_at: 0,
    })?;
    let tag = word(alloc, b"div")?;
    Ok(Plain::Element {
        tag,
        attrs,
        children: Vec::new(alloc),
        at: 0,
    })
}

/// What stands in the slot of a widget comes behind the last child of `body`: its root, or where it
/// was refused an empty `div` of the host with the name of the slot as `id`. It gives this node.
pub fn add_slot(
    alloc: Global,
    store: &mut Store,
    page: &mut Page,
    w: u32,
    slot: &SlotSpec,
) -> Result<NodeId, Memory>
    requires widget { w < 32 }
    requires away { IsAway page.old w }
    ensures placed { OnOk result (IsPlaced page.new w slot.now.content) }
    ensures raws { OnOk result (HaveRaws store.old page.old → HaveRaws store.new page.new) }
    ensures laid { IfOk result (λ n. (lots : List Lot) → IsLaidOut page.old lots
        → IsLaidOut page.new (lots ++ Spot n ∷ [])) }
    ensures lot { IfOk result (IsLot page.new (lot_of slot.now.name (home_of w slot.now.content))) }
    ensures stands { IfOk result (IsStanding page.new) }
    ensures lots { OnOk result ((lot : Lot) (n : ℕ) → IsLot page.old lot n → IsLot page.new lot n) }
    ensures standing { OnOk result ((n : ℕ) → IsStanding page.old n → IsStanding page.new n) }
    ensures others { OnOk result ((v : ℕ) (tree : PlainTrees) → v < 32 → v ≢ w → IsHome page.old v tree
        → IsHome page.new v tree) }
    ensures away { OnOk result ((v : ℕ) → v < 32 → v ≢ w → IsAway page.old v → IsAway page.new v) }
    ensures same { (v : ℕ) → owned v store.new ≡ owned v store.old }
    ensures confined { (fs : List Forest) (v : ℕ) → IsConfined fs v store.old → IsConfined fs v store.new }
{
    match &slot.content {
        SlotContent::Runs { body, .. } => add_root(alloc, store, page, w, body),
        SlotContent::Refused => {
            let plain = empty_div(alloc, &slot.name)?;
            add_markup(alloc, store, page, &plain)
        }
    }
}
