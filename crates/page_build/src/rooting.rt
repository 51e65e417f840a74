//! Roots come under `body`.
ghost use Rattle.std.specs.Prelude.{◌≡◌, ◌≢◌, ◌++◌, ◌∷◌, [], ◌<◌, ℕ, List, None, Some, true, IfOk, OnOk, length};
ghost use Rattle.plain_tree.specs.Plains.{unplaced};
ghost use Rattle.plain_tree.specs.Trees.{PlainTrees, beside};
ghost use Rattle.query_grammar.specs.Finds.{has_number};
ghost use Rattle.tree_ops.specs.Trees.{subtree, tops, without};
ghost use Rattle.js_tree.specs.Forest.{Forest};
ghost use Rattle.js_image.specs.Held.{IsConfined};
ghost use Rattle.page_nodes.specs.Entries.{body};
ghost use Rattle.page_nodes.specs.Moves.{IsLinked};
ghost use Rattle.page_tree.specs.Pages.{nodes};
ghost use Rattle.page_image.specs.Image.{forest, number, owns, root_of};
ghost use Rattle.page_image.specs.Stays.{GetsRoot, OthersStay};
ghost use Rattle.native_image.specs.Sound.{HasRaw};
ghost use Rattle.object_store.specs.Owned.{owned};
ghost use Rattle.store_cells.specs.Cells.{Cells};
ghost use Rattle.page_build.specs.Homes.{HaveRaws, IsAway, IsHome, IsOneTree};
ghost use Rattle.page_build.specs.Layout.{IsLaidOut, IsLot, Lot, Spot};
ghost use Rattle.page_build.specs.Standing.{IsStanding};

use crate::growing::add_nodes;
use code_units::{Memory, Owner};
use keyed_names::Keys;
use object_store::Store;
use page_tree::{NodeId, Page};
use plain_tree::Plain;
use std::alloc::Global;

/// A page without nodes of widgets, where `body` has no children. Its only node is `body`, of which every
/// store has the cell.
pub fn new_page(alloc: Global, keys: Keys) -> Result<Page, Memory>
    ensures away { IfOk result (λ page. (w : ℕ) → w < 32 → IsAway page w) }
    ensures raws { IfOk result (λ page. (store : Cells) → HasRaw store.cells body → HaveRaws store page) }
    ensures laid { IfOk result (λ page. IsLaidOut page []) }
{
    Page::new(alloc, keys)
}

// A law: a plain tree is one tree.
pub(crate) fn one_tree(plain: &Plain)
    ensures { IsOneTree (unplaced plain.now) }
{
    match plain {
        Plain::Text { .. } => {}
        Plain::Element { .. } => {}
    }
}

// A tree of a widget that has no root comes behind the last child of `body`, as its root.
fn adopt(page: &mut Page, w: u32, node: NodeId) -> Result<(), Memory>
    requires own { owns page.old w node ≡ true }
    requires top { has_number (tops (forest page.old w)) (number page.old w node) ≡ true }
    requires free { root_of page.old w ≡ None }
    ensures image { OnOk result (forest page.new w ≡ beside
        (subtree (number page.old w node) (forest page.old w))
        (without (number page.old w node) (forest page.old w))) }
    ensures becomes { OnOk result (GetsRoot page.old page.new w node) }
    ensures others { OnOk result (OthersStay page.old page.new w) }
    ensures many { OnOk result (length (nodes page.new) ≡ length (nodes page.old)) }
    ensures linked { OnOk result (IsLinked (nodes page.old) (nodes page.new) body None node) }
{
    page.adopt(node)
}

/// A widget that has nothing of the page gets its root, behind the last child of `body`, and each of
/// its nodes its cell. The other widgets keep what they have, and all that stood under `body` stands there.
pub fn add_root(
    alloc: Global,
    store: &mut Store,
    page: &mut Page,
    w: u32,
    body: &Plain,
) -> Result<NodeId, Memory>
    requires widget { w < 32 }
    requires away { IsAway page.old w }
    ensures home { OnOk result (IsHome page.new w (unplaced body.now)) }
    ensures raws { OnOk result (HaveRaws store.old page.old → HaveRaws store.new page.new) }
    ensures laid { IfOk result (λ n. (lots : List Lot) → IsLaidOut page.old lots
        → IsLaidOut page.new (lots ++ Spot n ∷ [])) }
    ensures root { IfOk result (λ n. root_of page.new w ≡ Some n) }
    ensures stands { IfOk result (IsStanding page.new) }
    ensures lots { OnOk result ((lot : Lot) (n : ℕ) → IsLot page.old lot n → IsLot page.new lot n) }
    ensures standing { OnOk result ((n : ℕ) → IsStanding page.old n → IsStanding page.new n) }
    ensures others { OnOk result ((v : ℕ) (tree : PlainTrees) → v < 32 → v ≢ w → IsHome page.old v tree
        → IsHome page.new v tree) }
    ensures away { OnOk result ((v : ℕ) → v < 32 → v ≢ w → IsAway page.old v → IsAway page.new v) }
    ensures same { (v : ℕ) → owned v store.new ≡ owned v store.old }
    ensures confined { (fs : List Forest) (v : ℕ) → IsConfined fs v store.old → IsConfined fs v store.new }
{
    one_tree(body);
    let id = add_nodes(alloc, store, page, Owner::Widget(w), body)?;
    adopt(page, w, id)?;
    Ok(id)
}
