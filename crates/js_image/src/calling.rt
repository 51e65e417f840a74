//! What a value is when it is called.
ghost use Rattle.std.specs.Prelude.{◌≡◌, ℕ, ◌<◌, List, length};
ghost use Rattle.js_tree.specs.Forest.{Forest};
ghost use Rattle.store_cells.specs.Shape.{IsRefWithin};
ghost use Rattle.js_image.specs.Callees.{IsCallee, IsFineCallee, callee_at, callee_by, stored_callee};
ghost use Rattle.js_image.specs.Image.{Rest, image, seen};
ghost use Rattle.js_image.specs.Held.{IsConfined, IsFine};

use crate::laws::lawful;
use crate::outcome::Callee;
use object_store::{CellId, FunParts, NativeId, Store, Value};

/// What a value is when it is called: a function of the widget, whose tree and scope are then its
/// own, a native, or nothing that can be called.
pub fn callee(store: &Store, value: &Value) -> Callee
    requires { IsRefWithin (length store.now.cells) value.now }
    ensures called { (fs : List Forest) (r : Rest) (w : ℕ) → IsFine w store.now.cells value.now
        → IsCallee fs w store.now.cells result (image fs r w store.now) (seen w store.now.cells value.now) }
    ensures fine { (fs : List Forest) (w : ℕ) → IsConfined fs w store.now → IsFine w store.now.cells value.now
        → IsFineCallee fs w store.now.cells result }
{
    lawful(store);
    callee_of(store, value)
}

// The same by the cells of the store.
#[inline(always)]
fn callee_of(store: &Store, value: &Value) -> Callee
    requires { IsRefWithin (length store.now.cells) value.now }
    ensures { result ≡ stored_callee store.now.cells value.now }
{
    match value {
        Value::Ref(cell) => callee_at(store, *cell),
        _ => Callee::Nothing,
    }
}

// What a cell is.
#[inline(always)]
fn callee_at(store: &Store, cell: CellId) -> Callee
    requires { cell < length store.now.cells }
    ensures { result ≡ callee_at store.now.cells cell }
{
    let parts = store.function_of(cell);
    let native = store.native_of(cell);
    callee_by(parts, native)
}

#[inline(always)]
fn callee_by(parts: Option<FunParts>, native: Option<NativeId>) -> Callee
    ensures { result ≡ callee_by parts native }
{
    match parts {
        Some(function) => Callee::Function(function),
        None => match native {
            Some(which) => Callee::Native(which),
            None => Callee::Nothing,
        },
    }
}
