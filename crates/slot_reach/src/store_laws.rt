//! What references show.
ghost use Rattle.std.specs.Prelude.{◌≡◌, ℕ, List, None, Option, Some, false, slice_index_or};
ghost use Rattle.event_loop.specs.declared.around.Loop.{Loop as LoopOf};
ghost use Rattle.js_image.specs.Held.{IsConfined};
ghost use Rattle.js_tree.specs.Forest.{Forest};
ghost use Rattle.native_image.specs.Sound.{HoldsOwn};
ghost use Rattle.page_tree.specs.declared.page.Page.{Page as PageOf};
ghost use Rattle.reach_cert.specs.Walks.{KeepsIn};
ghost use Rattle.reach_cert.specs.declared.cert.Ref.TheVariants as ref;
ghost use Rattle.store_cells.specs.Cells.{PlainCell, form_at};
ghost use Rattle.store_cells.specs.Host.{is_permitted_cell};
ghost use Rattle.store_cells.specs.declared.kind.Form.TheVariants as form;
ghost use Rattle.slot_reach.specs.Telling.{TellsCell};
ghost use Rattle.slot_reach.specs.Reads.{read_slot, ref_at};

use object_store::Store;

/// A law: a reference that leads past the host and its permitted table shows. Where it reads `NAME:I`, it leads to the
/// cell with this number of a widget with this name; one to the RawNode of a page node reads `raw`, and one to
/// the Global cell `global`.
pub fn references_tell()
    ensures cell { (names : List (Option (List ℕ))) (cells : List PlainCell) (i number : ℕ) (name : List ℕ)
        → ref_at names cells i ≡ ref.Cell name number → TellsCell names cells i name number }
    ensures raw { (names : List (Option (List ℕ))) (cells : List PlainCell) (i n : ℕ)
        → is_permitted_cell i ≡ false → form_at cells i ≡ Some (form.RawNode n) → ref_at names cells i ≡ ref.Raw }
    ensures global { (names : List (Option (List ℕ))) (cells : List PlainCell) (i : ℕ)
        → is_permitted_cell i ≡ false → form_at cells i ≡ Some form.Global → ref_at names cells i ≡ ref.Global }
{}

/// A law: what is read of a widget that is confined to its own, and holds its own, stays with the widget.
pub fn own_stays(store: &Store)
    ensures { (names : List (Option (List ℕ))) (name : List ℕ) (w : ℕ) (fs : List Forest) (p : PageOf) (l : LoopOf)
        → slice_index_or names w None ≡ Some name → IsConfined fs w store.now → HoldsOwn w store.now p l
        → KeepsIn (read_slot names store.now.cells name w p l) }
{
    store.bunches_have_nodes();
}
