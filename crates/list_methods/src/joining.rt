//! `join`, and the `toString` of arrays.
ghost use Rattle.std.specs.Prelude.{◌≡◌, ◌+◌, ◌++◌, ◌<◌, ℕ, List, IfOk, OnErr, OnOk, MatchOption, length};
ghost use Rattle.std.specs.List.{join_by};
ghost use Rattle.js_tree.specs.Forest.{Forest};
ghost use Rattle.store_cells.specs.Cells.{PlainCell};
ghost use Rattle.widget_meaning.specs.Values as meaning;
ghost use Rattle.widget_meaning.specs.OwnState.{State};
ghost use Rattle.widget_meaning.specs.NativeForms as forms;
ghost use Rattle.widget_meaning.specs.ListChanges as changes;
ghost use Rattle.widget_meaning.specs.ListNatives as means;
ghost use Rattle.widget_meaning.specs.PrototypeNatives as prototypes;
ghost use Rattle.js_image.specs.Image.{Rest, all_seen, image, seen};
ghost use Rattle.js_image.specs.Held.{AreFine, IsConfined, Kept};
ghost use Rattle.native_common.specs.Refines.{Refines};
ghost use Rattle.native_common.specs.Numbers.{counted};
ghost use Rattle.list_methods.specs.Arrays.{IsArray, number};
ghost use Rattle.list_methods.specs.Parts.{joined_next};

use crate::array::{OwnArray, extra, holds_objects, values_of};
use code_units::{Memory, Text};
use js_image::word;
use js_values::{Fault, Meter, NativeOut};
use native_common::{WidgetId, give_text, is_object, nth, read_text};
use object_store::{Store, Value};
use std::alloc::Global;

/// `join(s)`.
pub(crate) fn join(
    alloc: Global,
    array: OwnArray,
    args: &[Value],
    store: &mut Store,
    meter: &mut Meter,
    w: WidgetId,
) -> Result<NativeOut, Memory>
    requires array { IsArray w.index store.old array }
    requires confined { (fs : List Forest) × IsConfined fs w.index store.old }
    requires args { AreFine w.index store.old.cells args.now }
    ensures native { IfOk result (λ o. Refines w.index store.old store.new meter.old meter.new
        (λ d s. means.join (number w.index store.old array) array.len
        (meaning.nth 0 (all_seen w.index store.old.cells args.now))
        (changes.list_extra array.len (all_seen w.index store.old.cells args.now) s) s) o) }
    ensures memory { OnErr result ((fs : List Forest) → Kept fs w.index store.old store.new) }
{
    let absent = Value::Undefined;
    let between = nth(args, 0, &absent);
    if is_object(between) {
        return Ok(NativeOut::Throw(Fault::E4));
    }
    if holds_objects(store, w, array) {
        return Ok(NativeOut::Throw(Fault::E4));
    }
    let asked = extra(store, w, array.len, args);
    let separator = separator(alloc, between)?;
    give_joined(alloc, array, Joining { separator, asked }, store, meter, w)
}

/// The `toString` of an Array, which is `join(",")`.
pub(crate) fn to_string(
    alloc: Global,
    array: OwnArray,
    store: &mut Store,
    meter: &mut Meter,
    w: WidgetId,
) -> Result<NativeOut, Memory>
    requires array { IsArray w.index store.old array }
    requires confined { (fs : List Forest) × IsConfined fs w.index store.old }
    ensures native { IfOk result (λ o. Refines w.index store.old store.new meter.old meter.new
        (λ d s. prototypes.array_to_string (number w.index store.old array) array.len s) o) }
    ensures memory { OnErr result ((fs : List Forest) → Kept fs w.index store.old store.new) }
{
    if holds_objects(store, w, array) {
        return Ok(NativeOut::Throw(Fault::E4));
    }
    let joining = Joining {
        separator: word(alloc, b",")?,
        asked: length_and_one(array.len),
    };
    give_joined(alloc, array, joining, store, meter, w)
}

// A length and one argument, as a charge counts them.
fn length_and_one(len: u32) -> usize
    ensures { result ≡ counted (len + 1) }
{
    len as usize + 1
}

/// What stands between elements, and the charge without the units made.
#[derive(Drop)]
struct Joining {
    separator: Text,
    asked: usize,
}

// The text between, a comma where absent.
fn separator(alloc: Global, between: &Value) -> Result<Text, Memory>
    ensures { IfOk result (λ t. (w : ℕ) (cells : List PlainCell) → t ≡ means.separator (seen w cells between.now)) }
{
    match between {
        Value::Undefined => word(alloc, b","),
        _ => read_text(alloc, between),
    }
}

// The elements as one text, which is charged, made and given. No more is built than there is fuel for.
fn give_joined(
    alloc: Global,
    array: OwnArray,
    joining: Joining,
    store: &mut Store,
    meter: &mut Meter,
    w: WidgetId,
) -> Result<NativeOut, Memory>
    requires array { IsArray w.index store.old array }
    requires confined { (fs : List Forest) × IsConfined fs w.index store.old }
    ensures native { IfOk result (λ o. (n : State → ℕ)
        → ((fs : List Forest) (r : Rest) → joining.asked ≡ counted (n (image fs r w.index store.old)))
        → Refines w.index store.old store.new meter.old meter.new
        (λ d s. forms.give_text (n s)
        (join_by means.joined_text joining.separator
        (forms.elements s (number w.index store.old array) array.len)) s) o) }
    ensures memory { OnErr result ((fs : List Forest) → Kept fs w.index store.old store.new) }
{
    let most = meter.left() as usize;
    if joining.asked > most {
        return Ok(NativeOut::OutOfFuel);
    }
    let values = values_of(alloc, store, w, array)?;
    match joined(alloc, &values, &joining.separator, most)? {
        None => Ok(NativeOut::OutOfFuel),
        Some(units) => {
            let text = Text::from_units(alloc, units)?;
            Ok(give_text(store, meter, w, joining.asked, text))
        }
    }
}

// The texts of values with a text between, none only where these are more units than so many.
fn joined(
    alloc: Global,
    values: &[Value],
    separator: &Text,
    most: usize,
) -> Result<Option<Vec<u16>>, Memory>
    ensures { IfOk result (λ o. (w : ℕ) (cells : List PlainCell)
        → MatchOption o (most < length (join_by means.joined_text separator.now (all_seen w cells values.now)))
        (λ t. t.items ≡ join_by means.joined_text separator.now (all_seen w cells values.now))) }
{
    let mut units = Vec::new(alloc);
    for at in 0..values.len() {
        if units.len() > most {
            return Ok(None);
        }
        push_joined(alloc, &mut units, separator, at, &values[at])?;
    }
    Ok(Some(units))
}

// One more value, behind the text between where it is not the first.
fn push_joined(
    alloc: Global,
    units: &mut Vec<u16>,
    separator: &Text,
    at: usize,
    v: &Value,
) -> Result<(), Memory>
    ensures { OnOk result ((w : ℕ) (cells : List PlainCell)
        → units.new.items ≡ units.old.items ++ joined_next separator.now at (seen w cells v.now)) }
{
    if at == 0 {
        return push_text(alloc, units, v);
    }
    units.extend_from_slice(separator.units())?;
    push_text(alloc, units, v)
}

// The text of an element; undefined and null are empty.
fn push_text(alloc: Global, units: &mut Vec<u16>, v: &Value) -> Result<(), Memory>
    ensures { OnOk result ((w : ℕ) (cells : List PlainCell)
        → units.new.items ≡ units.old.items ++ means.joined_text (seen w cells v.now)) }
{
    match v {
        Value::Undefined => Ok(()),
        Value::Null => Ok(()),
        _ => {
            let text = read_text(alloc, v)?;
            Ok(units.extend_from_slice(text.units())?)
        }
    }
}
