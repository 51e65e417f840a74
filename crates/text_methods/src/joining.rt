//! `concat` of texts (ECMA-262 3rd edition, 15.5.4.6).
ghost use Rattle.std.specs.Prelude.{◌≡◌, ◌++◌, ℕ, List, IfOk, OnErr, OnOk, length};
ghost use Rattle.std.specs.List.{flat_map};
ghost use Rattle.js_tree.specs.Forest.{Forest};
ghost use Rattle.store_cells.specs.Cells.{PlainCell};
ghost use Rattle.widget_meaning.specs.Values.{to_text};
ghost use Rattle.widget_meaning.specs.TextNatives as means;
ghost use Rattle.js_image.specs.Image.{all_seen, seen};
ghost use Rattle.js_image.specs.Held.{Kept};
ghost use Rattle.native_common.specs.Refines.{Refines};
ghost use Rattle.native_common.specs.Numbers.{counted};

use code_units::{Memory, Text};
use js_values::{Fault, Meter, NativeOut};
use native_common::{WidgetId, any_object, make_text, read_text, take, text_len};
use object_store::{Store, Value};
use std::alloc::Global;

/// `concat(a, ...)`: the text and those of the arguments, joined. They are joined once they are paid
/// in fuel.
pub(crate) fn concat(
    alloc: Global,
    t: &Text,
    args: &[Value],
    store: &mut Store,
    meter: &mut Meter,
    w: WidgetId,
) -> Result<NativeOut, Memory>
    ensures native { IfOk result (λ o. Refines w.index store.old store.new meter.old meter.new
        (λ d s. means.text_concat t.now (all_seen w.index store.old.cells args.now) s) o) }
    ensures memory { OnErr result ((fs : List Forest) → Kept fs w.index store.old store.new) }
{
    if any_object(args) {
        return Ok(NativeOut::Throw(Fault::E4));
    }
    let made = text_len(t).saturating_add(texts_len(alloc, args)?);
    match take(meter, made.saturating_add(made)) {
        Ok(()) => {
            let text = joined(alloc, t, args)?;
            Ok(make_text(store, w, text))
        }
        Err(_) => Ok(NativeOut::OutOfFuel),
    }
}

// How many units the texts of the arguments have.
fn texts_len(alloc: Global, args: &[Value]) -> Result<usize, Memory>
    ensures { IfOk result (λ n. (w : ℕ) (cells : List PlainCell)
        → n ≡ counted (length (flat_map to_text (all_seen w cells args.now)))) }
{
    let mut n: usize = 0;
    for v in args {
        n = n.saturating_add(text_len(&read_text(alloc, v)?));
    }
    Ok(n)
}

// The text and those of the arguments.
fn joined(alloc: Global, t: &Text, args: &[Value]) -> Result<Text, Memory>
    ensures { IfOk result (λ u. (w : ℕ) (cells : List PlainCell)
        → u ≡ t.now ++ flat_map to_text (all_seen w cells args.now)) }
{
    let mut units = Vec::from_slice(alloc, t.units())?;
    for v in args {
        push_text(alloc, &mut units, v)?;
    }
    Text::from_units(alloc, units)
}

// Appends the text of an argument.
fn push_text(alloc: Global, units: &mut Vec<u16>, v: &Value) -> Result<(), Memory>
    ensures { OnOk result ((w : ℕ) (cells : List PlainCell)
        → units.new.items ≡ units.old.items ++ to_text (seen w cells v.now)) }
{
    let text = read_text(alloc, v)?;
    Ok(units.extend_from_slice(text.units())?)
}
