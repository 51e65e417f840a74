//! What is read of a widget that keeps to its own is the certificate of its own state.
ghost use Rattle.std.specs.Prelude.{◌≡◌, ◌<◌, ℕ, Bool, List, None, OnOk, Option, Some, slice_index_or};
ghost use Rattle.event_loop.specs.declared.around.Loop.{Loop as LoopOf};
ghost use Rattle.js_image.specs.Held.{IsConfined};
ghost use Rattle.js_tree.specs.Forest.{Forest};
ghost use Rattle.native_image.specs.Image.{Outside, beside, image};
ghost use Rattle.native_image.specs.Sound.{HoldsOwn};
ghost use Rattle.page_tree.specs.declared.page.Page.{Page as PageOf};
ghost use Rattle.slot_reach.specs.Differ.{AllDiffer};
ghost use Rattle.slot_reach.specs.States.{state_slot};
ghost use Rattle.slot_reach.specs.Reads.{read_slot};

use code_units::Memory;
use object_store::Store;

/// That the names of each cell differ, said of all cells at once.
pub fn names_all_differ(store: &Store) -> Result<(), Memory>
    ensures { OnOk result (AllDiffer store.now.cells) }
{
    let Ok(count) = u32::try_from(store.len()) else {
        return Err(Memory);
    };
    'cells: for cell in 0..count {
        store.names_differ(cell);
    }
    Ok(())
}

/// A law: what is read of a widget that is confined to its own, and holds its own, is the block of its own state.
pub fn states_are_read(store: &Store)
    ensures { (names : List (Option (List ℕ))) (name : List ℕ) (fs : List Forest) (x : Outside) (w : ℕ) (p : PageOf)
        (l : LoopOf) (b : Option Bool)
        → AllDiffer store.now.cells → slice_index_or names w None ≡ Some name → IsConfined fs w store.now
        → HoldsOwn w store.now p l
        → read_slot names store.now.cells name w p l ≡ state_slot name (image fs x w (beside store.now p l b)).own }
{
    store.permitted_leads_on();
    store.bunches_have_nodes();
    store.arrays_have_length();
}
