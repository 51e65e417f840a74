//! `String.fromCharCode` (ECMA-262 3rd edition, 15.5.3.2).
ghost use Rattle.std.specs.Prelude.{◌≡◌, ℕ, List, IfOk, OnErr, map};
ghost use Rattle.std.specs.List.{list_any};
ghost use Rattle.js_tree.specs.Forest.{Forest};
ghost use Rattle.store_cells.specs.Cells.{PlainCell};
ghost use Rattle.widget_meaning.specs.Values.{to_number};
ghost use Rattle.widget_meaning.specs.GlobalNatives as means;
ghost use Rattle.js_image.specs.Image.{all_seen};
ghost use Rattle.js_image.specs.Held.{Kept};
ghost use Rattle.native_common.specs.Refines.{Refines};

use code_units::{Memory, Text, WholeRead};
use js_values::{Fault, Meter, NativeOut, StopCause};
use native_common::{WidgetId, all_units_read, any_object, charged, give_text, read_number};
use object_store::{Store, Value};
use std::alloc::Global;

/// `String.fromCharCode(u, ...)`: the text of these units, each modulo 65536.
pub fn from_char_code(
    alloc: Global,
    args: &[Value],
    store: &mut Store,
    meter: &mut Meter,
    w: WidgetId,
) -> Result<NativeOut, Memory>
    ensures native { IfOk result (λ o. Refines w.index store.old store.new meter.old meter.new
        (λ d s. means.from_char_code (all_seen w.index store.old.cells args.now) s) o) }
    ensures memory { OnErr result ((fs : List Forest) → Kept fs w.index store.old store.new) }
{
    if any_object(args) {
        return Ok(NativeOut::Throw(Fault::E4));
    }
    let extra = all_units_read(args);
    if any_left(args) {
        return Ok(charged(meter, extra, NativeOut::Stop(StopCause::Number)));
    }
    let text = text_of_codes(alloc, args)?;
    Ok(give_text(store, meter, w, extra, text))
}

// Whether one of these leaves the numbers.
fn any_left(args: &[Value]) -> bool
    ensures { (w : ℕ) (cells : List PlainCell)
        → result ≡ list_any means.has_left (map to_number (all_seen w cells args.now)) }
{
    for v in args {
        if has_left(read_number(v)) {
            return true;
        }
    }
    false
}

fn has_left(r: WholeRead) -> bool
    ensures { result ≡ means.has_left r }
{
    match r {
        WholeRead::Left => true,
        _ => false,
    }
}

// The text of these units.
fn text_of_codes(alloc: Global, args: &[Value]) -> Result<Text, Memory>
    ensures { IfOk result (λ t. (w : ℕ) (cells : List PlainCell)
        → t ≡ map means.code_of (map to_number (all_seen w cells args.now))) }
{
    let mut units = Vec::with_capacity(alloc, args.len())?;
    for v in args {
        units.push(code_of(read_number(v)))?;
    }
    Text::from_units(alloc, units)
}

// A number modulo 65536, NaN as 0.
fn code_of(r: WholeRead) -> u16
    ensures { result ≡ means.code_of r }
{
    match r {
        WholeRead::Whole(z) => z.rem_euclid(65536) as u16,
        _ => 0,
    }
}
