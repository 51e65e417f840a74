//! An Array gets more elements, or loses some.
ghost use Rattle.std.specs.Prelude.{◌≡◌, ◌+◌, ◌<◌, ◌≤◌, List, IfOk, OnOk, Some, length, slice_get};
ghost use Rattle.js_tree.specs.Forest.{Forest};
ghost use Rattle.widget_meaning.specs.OwnState as state;
ghost use Rattle.widget_meaning.specs.Properties as properties;
ghost use Rattle.widget_meaning.specs.ListChanges as changes;
ghost use Rattle.js_image.specs.Image.{Rest, all_seen, image};
ghost use Rattle.js_image.specs.Held.{AreFine, Kept};
ghost use Rattle.list_methods.specs.Arrays.{IsArray, number};

use crate::array::{OwnArray, number_value};
use code_units::Memory;
use js_image::{Written, push_paid, put, word};
use native_common::WidgetId;
use object_store::{Store, Value};
use std::alloc::Global;

/// The Array gets more elements, which are paid for.
pub(crate) fn push_all(
    alloc: Global,
    array: OwnArray,
    values: &[Value],
    store: &mut Store,
    w: WidgetId,
) -> Result<(), Memory>
    requires array { IsArray w.index store.old array }
    requires values { AreFine w.index store.old.cells values.now }
    requires few { array.len + length values.now ≤ 4294967295 }
    ensures done { OnOk result ((fs : List Forest) (r : Rest) → image fs r w.index store.new
        ≡ state.with_cell (image fs r w.index store.old) (number w.index store.old array)
        (changes.pushed (state.cell_at (image fs r w.index store.old) (number w.index store.old array)) array.len
        (all_seen w.index store.old.cells values.now))) }
    ensures kept { (fs : List Forest) → Kept fs w.index store.old store.new }
{
    for at in 0..values.len() {
        let value = value_at(values, at)?;
        push_paid(
            alloc,
            store,
            w.index,
            array.cell,
            array.len + at as u32,
            value,
        )?;
    }
    Ok(())
}

// The value at a place of a list, for a second holder.
fn value_at(values: &[Value], at: usize) -> Result<Value, Memory>
    requires { at < length values.now }
    ensures { IfOk result (λ v. slice_get values.now at ≡ Some v) }
{
    let value = &values[at];
    value.share()
}

/// The Array gets another length, and loses the elements past it.
pub(crate) fn shorten(
    alloc: Global,
    array: OwnArray,
    len: u32,
    store: &mut Store,
    w: WidgetId,
) -> Result<(), Memory>
    requires { IsArray w.index store.old array }
    ensures done { OnOk result ((fs : List Forest) (r : Rest) → image fs r w.index store.new
        ≡ state.with_cell (image fs r w.index store.old) (number w.index store.old array)
        (properties.cut_to (state.cell_at (image fs r w.index store.old) (number w.index store.old array)) len)) }
    ensures kept { (fs : List Forest) → Kept fs w.index store.old store.new }
{
    let base = Value::Ref(array.cell);
    let name = word(alloc, b"length")?;
    let value = number_value(len);
    let written = put(store, w.index, &base, &name, value)?;
    match written {
        Written::Done => Ok(()),
        Written::Throw(_) => Err(Memory),
        Written::Stop(_) => Err(Memory),
    }
}
