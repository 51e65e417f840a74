//! Handlers, marks and protection.
ghost use Rattle.std.specs.Prelude.{◌≡◌, [], ◌∷◌};
ghost use Rattle.permitted_table.specs.declared.native.WriteNative.TheVariants as names;
ghost use Rattle.js_image.specs.Held.{IsFine};
ghost use Rattle.bunch_attributes.specs.Values.{is_undefined};
ghost use Rattle.native_image.specs.Handed.{IsBunchOf, IsSoundIn, Runs};

use crate::functions::function_of;
use crate::keeping::{Change, keep};
use code_units::Memory;
use js_image::Fault;
use js_values::{Meter, NativeOut};
use native_common::{is_object, read_text};
use native_image::{Cost, Receiver, Shared, Widget};
use object_store::Value;
use plain_tree::is_event_type;

/// `on(t, f)`.
pub fn listen(
    bunch: &Receiver,
    kind: &Value,
    func: &Value,
    shared: &mut Shared,
    meter: &mut Meter,
    widget: &mut Widget,
) -> Result<NativeOut, Memory>
    requires bunch { IsBunchOf shared.old widget.old bunch.now.cell bunch.now.nodes.now }
    requires func { IsFine widget.old.id.index shared.old.store.cells func.now }
    requires sound { IsSoundIn shared.old widget.old }
    ensures { Runs shared.old shared.new widget.old widget.new meter.old meter.new names.On
        bunch.now.cell bunch.now.nodes.now (kind.now ∷ func.now ∷ []) result }
{
    if is_object(kind) {
        return Ok(NativeOut::Throw(Fault::E4));
    }
    let kind = read_text(shared.alloc, kind)?;
    if !is_event_type(&kind) {
        return Ok(NativeOut::Throw(Fault::E4));
    }
    match function_of(&shared.store, func) {
        Some(func) => {
            let change = Change::Listen { kind, func };
            let cost = Cost::Slots(bunch.nodes.len() as u32);
            keep(bunch, &change, cost, shared, meter, widget)
        }
        None => Ok(NativeOut::Throw(Fault::E4)),
    }
}

/// Whether a value is `undefined`.
pub fn is_undefined(v: &Value) -> bool
    ensures { result ≡ is_undefined v.now }
{
    matches!(v, Value::Undefined)
}

/// `off(t)`, or `off()` of all types.
pub fn hush(
    bunch: &Receiver,
    kind: &Value,
    shared: &mut Shared,
    meter: &mut Meter,
    widget: &mut Widget,
) -> Result<NativeOut, Memory>
    requires bunch { IsBunchOf shared.old widget.old bunch.now.cell bunch.now.nodes.now }
    requires sound { IsSoundIn shared.old widget.old }
    ensures { Runs shared.old shared.new widget.old widget.new meter.old meter.new names.Off
        bunch.now.cell bunch.now.nodes.now (kind.now ∷ []) result }
{
    if is_undefined(kind) {
        let change = Change::Hush { kind: None };
        return keep(bunch, &change, Cost::Nothing, shared, meter, widget);
    }
    if is_object(kind) {
        return Ok(NativeOut::Throw(Fault::E4));
    }
    let kind = read_text(shared.alloc, kind)?;
    if !is_event_type(&kind) {
        return Ok(NativeOut::Throw(Fault::E4));
    }
    let change = Change::Hush { kind: Some(kind) };
    keep(bunch, &change, Cost::Nothing, shared, meter, widget)
}

/// `mark(v)`.
pub fn set_mark(
    bunch: &Receiver,
    value: &Value,
    shared: &mut Shared,
    meter: &mut Meter,
    widget: &mut Widget,
) -> Result<NativeOut, Memory>
    requires bunch { IsBunchOf shared.old widget.old bunch.now.cell bunch.now.nodes.now }
    requires sound { IsSoundIn shared.old widget.old }
    ensures { Runs shared.old shared.new widget.old widget.new meter.old meter.new names.SetMark
        bunch.now.cell bunch.now.nodes.now (value.now ∷ []) result }
{
    if is_object(value) {
        return Ok(NativeOut::Throw(Fault::E4));
    }
    let text = read_text(shared.alloc, value)?;
    let change = Change::Mark { text };
    keep(bunch, &change, Cost::Nothing, shared, meter, widget)
}

/// `protect()`.
pub fn protect(
    bunch: &Receiver,
    shared: &mut Shared,
    meter: &mut Meter,
    widget: &mut Widget,
) -> Result<NativeOut, Memory>
    requires bunch { IsBunchOf shared.old widget.old bunch.now.cell bunch.now.nodes.now }
    requires sound { IsSoundIn shared.old widget.old }
    ensures { Runs shared.old shared.new widget.old widget.new meter.old meter.new names.Protect
        bunch.now.cell bunch.now.nodes.now [] result }
{
    keep(
        bunch,
        &Change::Protect,
        Cost::Nothing,
        shared,
        meter,
        widget,
    )
}
