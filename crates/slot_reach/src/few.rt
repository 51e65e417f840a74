//! How many cells a widget has.
ghost use Rattle.std.specs.Prelude.{◌<◌, ◌≤◌, ℕ, filter, length};
ghost use Rattle.store_cells.specs.Cells.{is_visible};

use code_units::Owner;
use object_store::Store;

/// A law: a widget has at most 524,288 visible cells.
pub(crate) fn cells_are_few(store: &Store)
    ensures { (w : ℕ) → w < 32 → length (filter (is_visible w) store.now.cells) ≤ 524288 }
{
    'widgets: for w in 0..32 {
        let _paid = store.counts(Owner::Widget(w));
    }
}
