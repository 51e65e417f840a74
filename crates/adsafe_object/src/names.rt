//! The names of properties, as these natives take them.
ghost use Rattle.std.specs.Prelude.{◌≡◌, ℕ, List, IfOk};
ghost use Rattle.code_units.specs.Permitted.{is_permitted};
ghost use Rattle.store_cells.specs.Cells.{PlainCell};
ghost use Rattle.widget_meaning.specs.OwnState.{State};
ghost use Rattle.widget_meaning.specs.Plan.{Plan};
ghost use Rattle.widget_meaning.specs.Values as meaning;
ghost use Rattle.widget_meaning.specs.Costs as costs;
ghost use Rattle.widget_meaning.specs.AdsafeNatives as means;
ghost use Rattle.js_image.specs.Image.{seen};
ghost use Rattle.adsafe_object.specs.Names.{named_plan};

use code_units::{Memory, Text, permitted, whole_text};
use js_image::Fault;
use native_common::is_object;
use object_store::{Number, Value};
use std::alloc::Global;

/// A name, or the fault where there is none.
#[derive(Drop)]
pub enum Named {
    Name(Text),
    Refused(Fault),
}

/// The name of a property of an object: a permitted text or a whole number.
pub(crate) fn name_of(alloc: Global, object: &Value, name: &Value) -> Result<Named, Memory>
    ensures { IfOk result (λ n. (w : ℕ) (cells : List PlainCell) (s : State) (k : List ℕ → Plan)
        → costs.want meaning.E4 (meaning.is_object (seen w cells object.now)) s
        (means.want_name (seen w cells name.now) s k) ≡ named_plan n s k) }
{
    if !is_object(object) {
        return Ok(Named::Refused(Fault::E4));
    }
    match name {
        Value::Text(t) => Ok(allowed(t.share()?)),
        Value::Num(Number::Whole(n)) => Ok(allowed(whole_text(alloc, *n)?)),
        _ => Ok(Named::Refused(Fault::E8)),
    }
}

// A name that is permitted.
fn allowed(name: Text) -> Named
    ensures { (s : State) (k : List ℕ → Plan)
        → costs.want meaning.E8 (is_permitted name) s (k name) ≡ named_plan result s k }
{
    if permitted(&name) {
        Named::Name(name)
    } else {
        Named::Refused(Fault::E8)
    }
}
