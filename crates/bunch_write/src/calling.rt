//! The one call of this crate.
ghost use Rattle.std.specs.Prelude.{◌≡◌, [], ◌∷◌, true};
ghost use Rattle.widget_meaning.specs.Natives.{run_native};
ghost use Rattle.js_image.specs.Held.{AreFine, IsFine};
ghost use Rattle.js_image.specs.Image.{all_seen};
ghost use Rattle.js_image.specs.Reads.{cell_in};
ghost use Rattle.native_common.specs.Receivers.{IsReceiver, receiver};
ghost use Rattle.bunch_write.specs.Part.{is_part};
ghost use Rattle.native_image.specs.Handed.{IsBunchOf, IsSoundIn, Runs, Writes};

use crate::each::{bubble, each};
use crate::making::{dom_tag, dom_text};
use crate::moving::{empty, remove, replace};
use bunch_attributes::{
    blur, fire, focus, hush, listen, protect, set_check, set_class, set_enabled, set_mark,
    set_style, set_title,
};
use bunch_trees::{append, dom_append, explode, set_value};
use code_units::Memory;
use js_image::Fault;
use js_values::{Meter, NativeOut};
use native_common::nth;
use native_image::{Receiver, Shared, Widget, receiver_of};
use object_store::{CellId, DomNative, NativeId, Value, WriteNative};

/// A native of this crate, called by a widget: what the meaning gives at its image, for every
/// receiver and all arguments. The Global cell as receiver stands for none. The native's unit was
/// taken before; the call takes the extra. Where fuel is wanting nothing changes, and all nodes are
/// judged before any change. After `Memory` too, all that the widget holds is its own, and others have
/// what they had.
pub fn call(
    which: NativeId,
    this: &Value,
    args: &[Value],
    shared: &mut Shared,
    meter: &mut Meter,
    widget: &mut Widget,
) -> Result<NativeOut, Memory>
    requires part { is_part which ≡ true }
    requires sound { IsSoundIn shared.old widget.old }
    requires receiver { IsReceiver widget.old.id.index shared.old.store.cells this.now }
    requires args { AreFine widget.old.id.index shared.old.store.cells args.now }
    ensures { Writes shared.old shared.new widget.old widget.new meter.old meter.new
        (run_native which (receiver widget.old.id.index shared.old.store.cells this.now)
        (all_seen widget.old.id.index shared.old.store.cells args.now)) result }
{
    let absent = Value::Undefined;
    let first = nth(args, 0, &absent);
    let second = nth(args, 1, &absent);
    match which {
        NativeId::Bubble => Ok(bubble(&mut widget.bubbled)),
        NativeId::Dom(native) => match native {
            DomNative::DomTag => dom_tag(
                shared.alloc,
                first,
                second,
                &mut shared.store,
                widget.id,
                &mut shared.page,
            ),
            DomNative::DomText => dom_text(
                shared.alloc,
                first,
                &mut shared.store,
                widget.id,
                &mut shared.page,
            ),
            DomNative::DomAppend => dom_append(
                shared.alloc,
                first,
                &mut shared.store,
                meter,
                widget.id,
                &mut shared.page,
            ),
            DomNative::DomQuery => unreachable!(),
        },
        NativeId::Read(_) => explode(
            shared.alloc,
            this,
            &mut shared.store,
            meter,
            widget.id,
            &shared.page,
        ),
        NativeId::Write(method) => {
            let list = receiver_of(shared.alloc, &shared.store, widget.id, &shared.page, this)?;
            match list {
                Some(list) => match cell_of(this) {
                    Some(cell) => {
                        let bunch = Receiver { cell, nodes: &list };
                        change(method, &bunch, first, second, shared, meter, widget)
                    }
                    None => Ok(NativeOut::Throw(Fault::E3)),
                },
                None => Ok(NativeOut::Throw(Fault::E3)),
            }
        }
        _ => unreachable!(),
    }
}

// The cell to which a value refers.
fn cell_of(v: &Value) -> Option<CellId>
    ensures { result ≡ cell_in v.now }
{
    match v {
        Value::Ref(cell) => Some(*cell),
        _ => None,
    }
}

// A method on the nodes of its receiver, with its first two arguments.
fn change(
    method: WriteNative,
    bunch: &Receiver,
    first: &Value,
    second: &Value,
    shared: &mut Shared,
    meter: &mut Meter,
    widget: &mut Widget,
) -> Result<NativeOut, Memory>
    requires bunch { IsBunchOf shared.old widget.old bunch.now.cell bunch.now.nodes.now }
    requires first { IsFine widget.old.id.index shared.old.store.cells first.now }
    requires second { IsFine widget.old.id.index shared.old.store.cells second.now }
    requires sound { IsSoundIn shared.old widget.old }
    ensures { Runs shared.old shared.new widget.old widget.new meter.old meter.new method
        bunch.now.cell bunch.now.nodes.now (first.now ∷ second.now ∷ []) result }
{
    match method {
        WriteNative::Append => append(bunch, first, shared, meter, widget),
        WriteNative::Remove => remove(bunch, shared, meter, widget),
        WriteNative::Empty => Ok(empty(bunch, shared, meter, widget)),
        WriteNative::Replace => replace(bunch, first, shared, meter, widget),
        WriteNative::SetValue => set_value(bunch, first, shared, meter, widget),
        WriteNative::SetStyle => set_style(bunch, first, second, shared, meter, widget),
        WriteNative::SetClass => set_class(bunch, first, shared, meter, widget),
        WriteNative::SetTitle => set_title(bunch, first, shared, meter, widget),
        WriteNative::SetCheck => set_check(bunch, first, shared, meter, widget),
        WriteNative::SetEnabled => set_enabled(bunch, first, shared, meter, widget),
        WriteNative::Focus => Ok(focus(bunch, shared, meter, widget)),
        WriteNative::Blur => Ok(blur(bunch, shared, meter, widget)),
        WriteNative::On => listen(bunch, first, second, shared, meter, widget),
        WriteNative::Off => hush(bunch, first, shared, meter, widget),
        WriteNative::Fire => fire(bunch, first, shared, meter, widget),
        WriteNative::Each => each(bunch, first, shared, meter, widget),
        WriteNative::SetMark => set_mark(bunch, first, shared, meter, widget),
        WriteNative::Protect => protect(bunch, shared, meter, widget),
    }
}
