//! The one call of a native.
ghost use Rattle.std.specs.Prelude.{◌≡◌, List, true};
ghost use Rattle.js_tree.specs.Forest.{Forest};
ghost use Rattle.widget_meaning.specs.Natives.{run_native};
ghost use Rattle.js_flow.specs.Fine.{FineNative};
ghost use Rattle.js_image.specs.Held.{AreFine, IsConfined};
ghost use Rattle.js_image.specs.Image.{all_seen};
ghost use Rattle.native_common.specs.Receivers.{IsReceiver, receiver};
ghost use Rattle.native_image.specs.Handed.{IsSoundIn};
ghost use Rattle.adsafe_object.specs.Part as adsafe;
ghost use Rattle.natives.specs.Refines.{CarriesOut, plan_of};

use crate::rooms::{Room, room_of};
use crate::timers::start;
use code_units::Memory;
use js_flow::NativeCall;
use js_values::{Meter, NativeOut};
use native_image::{Shared, Widget};
use object_store::{NativeId, Value};
use store_natives::{GLOBAL, receiver_of};

/// Calls a native for a widget, as `js_steps` hands it out, with its unit taken: the answer is what the
/// meaning gives at the widget's whole state, read off the store, the page, the loop, the innermost open
/// dispatch, the log and the kept posts (receiver and text). A timer that is started waits in the loop.
/// The call takes the extra; where fuel is wanting nothing changes, and faults and stops are those of
/// docs/LANGUAGE.md. Handlers are not called here: `Fire` is handed out. After `Memory` too, all that the
/// widget holds is its own, and others have what they had.
pub fn call(
    native: &NativeCall,
    shared: &mut Shared,
    meter: &mut Meter,
    widget: &mut Widget,
) -> Result<NativeOut, Memory>
    requires confined { (fs : List Forest) × IsConfined fs widget.old.id.index shared.old.store }
    requires sound { IsSoundIn shared.old widget.old }
    requires fine { FineNative widget.old.id.index shared.old.store.cells native.now }
    ensures { CarriesOut shared.old shared.new widget.old widget.new meter.old meter.new
        (plan_of widget.old.id.index shared.old.store.cells native.now) result }
{
    let plain = Value::Ref(GLOBAL);
    let this = receiver_of(&shared.store, widget.id, &native.this, &plain);
    call_on(native, this, shared, meter, widget)
}

// The same with a receiver, where the Global cell stands for none.
fn call_on(
    native: &NativeCall,
    this: &Value,
    shared: &mut Shared,
    meter: &mut Meter,
    widget: &mut Widget,
) -> Result<NativeOut, Memory>
    requires confined { (fs : List Forest) × IsConfined fs widget.old.id.index shared.old.store }
    requires sound { IsSoundIn shared.old widget.old }
    requires receiver { IsReceiver widget.old.id.index shared.old.store.cells this.now }
    requires args { AreFine widget.old.id.index shared.old.store.cells native.now.args.items }
    ensures { CarriesOut shared.old shared.new widget.old widget.new meter.old meter.new (run_native native.now.which
        (receiver widget.old.id.index shared.old.store.cells this.now)
        (all_seen widget.old.id.index shared.old.store.cells native.now.args.items)) result }
{
    let which = native.which;
    let args = native.args.as_slice();
    match room_of(which) {
        Room::Texts => text_methods::call(
            shared.alloc,
            which,
            this,
            args,
            &mut shared.store,
            meter,
            widget.id,
        ),
        Room::Lists => list_methods::call(
            shared.alloc,
            which,
            this,
            args,
            &mut shared.store,
            meter,
            widget.id,
        ),
        Room::Adsafe => adsafe_native(which, this, args, shared, meter, widget),
        Room::Reads => bunch_read::call(which, this, args, shared, meter, widget),
        Room::Writes => bunch_write::call(which, this, args, shared, meter, widget),
    }
}

// A native of `ADSAFE`, or `hasOwnProperty`; then the timer that it asks for is started.
fn adsafe_native(
    which: NativeId,
    this: &Value,
    args: &[Value],
    shared: &mut Shared,
    meter: &mut Meter,
    widget: &mut Widget,
) -> Result<NativeOut, Memory>
    requires part { adsafe.is_part which ≡ true }
    requires confined { (fs : List Forest) × IsConfined fs widget.old.id.index shared.old.store }
    requires sound { IsSoundIn shared.old widget.old }
    requires receiver { IsReceiver widget.old.id.index shared.old.store.cells this.now }
    requires args { AreFine widget.old.id.index shared.old.store.cells args.now }
    ensures { CarriesOut shared.old shared.new widget.old widget.new meter.old meter.new (run_native which
        (receiver widget.old.id.index shared.old.store.cells this.now)
        (all_seen widget.old.id.index shared.old.store.cells args.now)) result }
{
    let waiting = widget.around.waiting();
    let mut asked = None;
    let out = adsafe_object::call(
        shared.alloc,
        which,
        this,
        args,
        &mut shared.store,
        meter,
        widget.id,
        &mut widget.log,
        waiting,
        &mut asked,
        &mut widget.posts,
    )?;
    start(&mut widget.around, asked)?;
    Ok(out)
}
