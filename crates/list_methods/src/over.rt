//! `forEach`, `map` and `filter`.
ghost use Rattle.std.specs.Prelude.{◌≡◌, [], ℕ, List, IfOk, IfSome, is_some, length};
ghost use Rattle.js_tree.specs.Forest.{Forest};
ghost use Rattle.store_cells.specs.Shape.{IsRefWithin};
ghost use Rattle.widget_meaning.specs.Values as meaning;
ghost use Rattle.widget_meaning.specs.NativeForms as forms;
ghost use Rattle.widget_meaning.specs.Properties as properties;
ghost use Rattle.widget_meaning.specs.ListNatives as means;
ghost use Rattle.js_image.specs.Image.{Rest, all_seen, image, seen};
ghost use Rattle.js_image.specs.Held.{AreFine, IsConfined, IsFine, IsHeld};
ghost use Rattle.js_values.specs.Answers.{gathered};
ghost use Rattle.native_common.specs.Refines.{Ends, Refines};
ghost use Rattle.list_methods.specs.Arrays.{IsArray, number};
ghost use Rattle.list_methods.specs.Parts.{is_function_callee};

use crate::array::{OwnArray, cell_of, counted_len, values_of};
use code_units::Memory;
use js_image::{Callee, callee};
use js_values::{Fault, Keep, Meter, NativeOut, Plan};
use native_common::{WidgetId, nth, take};
use object_store::{CellId, Store, Value};
use std::alloc::Global;

/// The calls over an Array, and what is kept of them.
#[derive(Clone, Copy, Drop)]
pub(crate) struct Calls {
    pub array: OwnArray,
    pub keep: Keep,
}

/// `forEach(f)`, `map(f)` or `filter(f)`: the calls of a function with each element and its index.
pub(crate) fn over(
    alloc: Global,
    calls: Calls,
    args: &[Value],
    store: &Store,
    meter: &mut Meter,
    w: WidgetId,
) -> Result<NativeOut, Memory>
    requires array { IsArray w.index store.now calls.array }
    requires confined { (fs : List Forest) × IsConfined fs w.index store.now }
    requires args { AreFine w.index store.now.cells args.now }
    ensures native { IfOk result (λ o. Refines w.index store.now store.now meter.old meter.new
        (λ d s. means.over (number w.index store.now calls.array) calls.array.len
        (meaning.nth 0 (all_seen w.index store.now.cells args.now)) d s
        (gathered calls.keep (forms.elements s (number w.index store.now calls.array) calls.array.len))) o) }
{
    let absent = Value::Undefined;
    let Some(func) = function_of(store, nth(args, 0, &absent)) else {
        return Ok(NativeOut::Throw(Fault::E4));
    };
    let asked = counted_len(calls.array.len);
    match take(meter, asked) {
        Ok(()) => gather(alloc, calls, func, store, w),
        Err(_) => Ok(NativeOut::OutOfFuel),
    }
}

// The calls of a function with the elements, which are listed now.
fn gather(
    alloc: Global,
    calls: Calls,
    func: CellId,
    store: &Store,
    w: WidgetId,
) -> Result<NativeOut, Memory>
    requires array { IsArray w.index store.now calls.array }
    requires confined { (fs : List Forest) × IsConfined fs w.index store.now }
    requires func { IsHeld w.index store.now.cells func }
    ensures native { IfOk result (λ o. Ends w.index store.now store.now
        (λ d s. means.call_each (seen w.index store.now.cells (Value.Ref func))
        (forms.elements s (number w.index store.now calls.array) calls.array.len) 0 [] d s
        (gathered calls.keep (forms.elements s (number w.index store.now calls.array) calls.array.len))) o) }
{
    let items = values_of(alloc, store, w, calls.array)?;
    Ok(NativeOut::Call(Plan::Gather {
        func,
        items,
        keep: calls.keep,
    }))
}

// A function of the widget.
fn function_of(store: &Store, v: &Value) -> Option<CellId>
    requires { IsRefWithin (length store.now.cells) v.now }
    ensures own { (fs : List Forest) (r : Rest) (w : ℕ) → IsFine w store.now.cells v.now
        → properties.is_own_function (image fs r w store.now) (seen w store.now.cells v.now) ≡ is_some result }
    ensures cell { IfSome result (λ i. v.now ≡ Value.Ref i) }
{
    if is_function(callee(store, v)) {
        cell_of(v)
    } else {
        None
    }
}

fn is_function(called: Callee) -> bool
    ensures { result ≡ is_function_callee called }
{
    match called {
        Callee::Function(_) => true,
        Callee::Native(_) => false,
        Callee::Nothing => false,
    }
}
