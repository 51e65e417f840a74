//! Functions among arguments.
ghost use Rattle.std.specs.Prelude.{◌≡◌, ℕ, List, IfSome, is_some, length};
ghost use Rattle.js_tree.specs.Forest.{Forest};
ghost use Rattle.store_cells.specs.Shape.{IsRefWithin};
ghost use Rattle.widget_meaning.specs.Properties as properties;
ghost use Rattle.js_image.specs.Held.{IsFine};
ghost use Rattle.js_image.specs.Image.{Rest, image, seen};
ghost use Rattle.bunch_attributes.specs.Callees.{is_function_callee};

use js_image::{Callee, callee};
use object_store::{CellId, Store, Value};

fn is_function(called: Callee) -> bool
    ensures { result ≡ is_function_callee called }
{
    match called {
        Callee::Function(_) => true,
        Callee::Native(_) => false,
        Callee::Nothing => false,
    }
}

/// The cell of a value that is a function of the widget, none exactly for all else.
pub fn function_of(store: &Store, v: &Value) -> Option<CellId>
    requires { IsRefWithin (length store.now.cells) v.now }
    ensures own { (fs : List Forest) (r : Rest) (w : ℕ) → IsFine w store.now.cells v.now
        → properties.is_own_function (image fs r w store.now) (seen w store.now.cells v.now) ≡ is_some result }
    ensures cell { IfSome result (λ i. v.now ≡ Value.Ref i) }
{
    if !is_function(callee(store, v)) {
        return None;
    }
    match v {
        Value::Ref(cell) => Some(*cell),
        _ => None,
    }
}
