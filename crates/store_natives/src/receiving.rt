//! The receiver of a native.
ghost use Rattle.std.specs.Prelude.{◌≡◌, IfSome};
ghost use Rattle.std.specs.Option.{option_map};
ghost use Rattle.store_cells.specs.Host.{global};
ghost use Rattle.js_image.specs.Held.{IsFine};
ghost use Rattle.js_image.specs.Image.{seen};
ghost use Rattle.native_common.specs.Receivers.{IsReceiver, receiver};

use native_common::WidgetId;
use object_store::{CellId, Store, Value};

/// The place of the Global cell, which stands for no receiver.
pub const GLOBAL: CellId = 0;

/// The receiver of a native that widget `w` calls; of a plain call `plain`, a reference to the Global cell, which
/// stands for none.
pub fn receiver_of<'a>(
    store: &Store,
    w: WidgetId,
    this: &'a Option<Value>,
    plain: &'a Value,
) -> &'a Value
    requires plain { plain.now ≡ Value.Ref global }
    requires fine { IfSome this.now (IsFine w.index store.now.cells) }
    ensures receiver { IsReceiver w.index store.now.cells result.now }
    ensures same { receiver w.index store.now.cells result.now ≡ option_map (seen w.index store.now.cells) this.now }
{
    store.host_stays();
    match this {
        Some(this) => this,
        None => plain,
    }
}
