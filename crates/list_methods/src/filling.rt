//! An Array gets other elements.
ghost use Rattle.std.specs.Prelude.{◌≡◌, ◌≤◌, List, IfOk, OnErr, OnOk, length};
ghost use Rattle.js_tree.specs.Forest.{Forest};
ghost use Rattle.widget_meaning.specs.OwnState as state;
ghost use Rattle.widget_meaning.specs.ListChanges as changes;
ghost use Rattle.js_image.specs.Image.{Rest, all_seen, image, seen};
ghost use Rattle.js_image.specs.Held.{AreFine, IsFine, Kept};
ghost use Rattle.native_common.specs.Refines.{Ends};
ghost use Rattle.list_methods.specs.Arrays.{IsArray, number};

use crate::array::OwnArray;
use crate::changing::{push_all, shorten};
use code_units::Memory;
use js_image::{Paid, new_indexes, pay_slots};
use js_values::NativeOut;
use native_common::WidgetId;
use object_store::{Store, Value};
use std::alloc::Global;

/// The Array gets these elements, paid for at once, and a value is given.
pub(crate) fn change(
    alloc: Global,
    array: OwnArray,
    values: &[Value],
    given: Value,
    store: &mut Store,
    w: WidgetId,
) -> Result<NativeOut, Memory>
    requires array { IsArray w.index store.old array }
    requires values { AreFine w.index store.old.cells values.now }
    requires given { IsFine w.index store.old.cells given }
    ensures native { IfOk result (λ o. Ends w.index store.old store.new
        (λ d s. changes.change (number w.index store.old array) (all_seen w.index store.old.cells values.now)
        (seen w.index store.old.cells given) s) o) }
    ensures memory { OnErr result ((fs : List Forest) → Kept fs w.index store.old store.new) }
{
    let Ok(len) = u32::try_from(values.len()) else {
        return Err(Memory);
    };
    let base = Value::Ref(array.cell);
    let fresh = new_indexes(store, &base, len);
    match pay_slots(store, w.index, fresh) {
        Paid::Stop(cause) => Ok(NativeOut::Stop(cause)),
        Paid::Done => {
            fill(alloc, array, values, store, w)?;
            Ok(NativeOut::Value(given))
        }
    }
}

/// The Array gets these elements, which are paid for.
pub(crate) fn fill(
    alloc: Global,
    array: OwnArray,
    values: &[Value],
    store: &mut Store,
    w: WidgetId,
) -> Result<(), Memory>
    requires array { IsArray w.index store.old array }
    requires values { AreFine w.index store.old.cells values.now }
    requires few { length values.now ≤ 4294967295 }
    ensures done { OnOk result ((fs : List Forest) (r : Rest) → image fs r w.index store.new
        ≡ state.with_cell (image fs r w.index store.old) (number w.index store.old array)
        (changes.with_elements (state.cell_at (image fs r w.index store.old) (number w.index store.old array))
        (all_seen w.index store.old.cells values.now))) }
    ensures kept { (fs : List Forest) → Kept fs w.index store.old store.new }
{
    shorten(alloc, array, 0, store, w)?;
    let emptied = OwnArray {
        cell: array.cell,
        len: 0,
    };
    push_all(alloc, emptied, values, store, w)
}
