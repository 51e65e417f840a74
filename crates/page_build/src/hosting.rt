//! The host's own markup on the page.
ghost use Rattle.std.specs.Prelude.{◌≡◌, ◌<◌, ◌++◌, ◌∷◌, [], ℕ, List, IfOk, OnOk};
ghost use Rattle.js_tree.specs.Forest.{Forest};
ghost use Rattle.js_image.specs.Held.{IsConfined};
ghost use Rattle.plain_tree.specs.Plains.{unplaced};
ghost use Rattle.plain_tree.specs.Trees.{PlainTrees};
ghost use Rattle.object_store.specs.Owned.{owned};
ghost use Rattle.page_build.specs.Homes.{HaveRaws, IsAway, IsHome};
ghost use Rattle.page_build.specs.Layout.{IsLaidOut, IsLot, Lot, Own, Spot, each_tree};
ghost use Rattle.page_build.specs.Standing.{IsStanding};

use crate::growing::add_nodes;
use crate::rooting::one_tree;
use code_units::{Memory, Owner};
use object_store::Store;
use page_nodes::room_after;
use page_tree::{NodeId, Page};
use plain_tree::Plain;
use std::alloc::Global;

/// How many nodes of the host a page may have.
pub(crate) const MOST_OF_HOST: u32 = 300_000;

/// A tree of the host comes behind the last child of `body`, and each of its nodes gets its cell. All widgets keep
/// what they have, and all that stood under `body` stands there.
pub fn add_markup(
    alloc: Global,
    store: &mut Store,
    page: &mut Page,
    plain: &Plain,
) -> Result<NodeId, Memory>
    ensures away { OnOk result ((v : ℕ) → v < 32 → IsAway page.old v → IsAway page.new v) }
    ensures home { OnOk result ((v : ℕ) (tree : PlainTrees) → v < 32 → IsHome page.old v tree
        → IsHome page.new v tree) }
    ensures raws { OnOk result (HaveRaws store.old page.old → HaveRaws store.new page.new) }
    ensures laid { OnOk result ((lots : List Lot) → IsLaidOut page.old lots
        → IsLaidOut page.new (lots ++ each_tree (unplaced plain.now))) }
    ensures spot { IfOk result (λ n. (lots : List Lot) → IsLaidOut page.old lots
        → IsLaidOut page.new (lots ++ Spot n ∷ [])) }
    ensures lot { IfOk result (IsLot page.new (Own (unplaced plain.now))) }
    ensures stands { IfOk result (IsStanding page.new) }
    ensures lots { OnOk result ((lot : Lot) (n : ℕ) → IsLot page.old lot n → IsLot page.new lot n) }
    ensures standing { OnOk result ((n : ℕ) → IsStanding page.old n → IsStanding page.new n) }
    ensures same { (v : ℕ) → owned v store.new ≡ owned v store.old }
    ensures confined { (fs : List Forest) (v : ℕ) → IsConfined fs v store.old → IsConfined fs v store.new }
{
    one_tree(plain);
    if room_after(plain, MOST_OF_HOST - page.made(Owner::Host)).is_none() {
        return Err(Memory);
    }
    let id = add_nodes(alloc, store, page, Owner::Host, plain)?;
    page.adopt(id)?;
    Ok(id)
}
