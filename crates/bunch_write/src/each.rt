//! `each`, and `bubble`.
ghost use Rattle.std.specs.Prelude.{ℕ, [], ◌∷◌, Bool, Option, IfOk, map};
ghost use Rattle.widget_meaning.specs.Dispatch as dispatch;
ghost use Rattle.permitted_table.specs.declared.native.WriteNative.TheVariants as names;
ghost use Rattle.event_loop.specs.declared.around.Loop.{Loop};
ghost use Rattle.js_image.specs.Held.{IsFine, IsHeld};
ghost use Rattle.js_image.specs.Image.{seen};
ghost use Rattle.js_values.specs.Fuel.{Fuel};
ghost use Rattle.page_image.specs.Image.{number};
ghost use Rattle.store_cells.specs.Cells.{Cells};
ghost use Rattle.native_image.specs.Handed.{IsBunchOf, IsSoundIn, Runs};
ghost use Rattle.native_image.specs.Image.{beside};
ghost use Rattle.native_image.specs.Refines.{EndsAt, RefinesAt};
ghost use Rattle.native_image.specs.Sound.{AreNodes, IsSound, KeepsAll};
ghost use Rattle.bunch_write.specs.Calls.{each_paid};

use bunch_attributes::function_of;
use code_units::Memory;
use event_loop::Loop;
use js_image::Fault;
use js_values::{Meter, NativeOut, Plan};
use native_common::{WidgetId, take};
use native_image::{Bill, Receiver, Shared, Widget, make_bunches, settle, weigh};
use object_store::{CellId, Store, Value};
use page_tree::{NodeId, Page};
use std::alloc::Global;

// The Bunches of nodes, whose cost is judged as one, and the calls with them.
fn calls(
    alloc: Global,
    list: &[NodeId],
    func: CellId,
    this: CellId,
    store: &mut Store,
    w: WidgetId,
    page: &Page,
    around: &Loop,
) -> Result<NativeOut, Memory>
    requires nodes { AreNodes page.now w.index list.now }
    requires held { IsHeld w.index store.old.cells this }
    requires func { IsHeld w.index store.old.cells func }
    requires sound { IsSound w.index store.old page.now around.now }
    ensures ends { (b : Option Bool) → IfOk result (λ o.
        EndsAt w.index (beside store.old page.now around.now b) (beside store.new page.now around.now b)
        (each_paid (map (number page.now w.index) list.now) (seen w.index store.old.cells (Value.Ref func))
        (seen w.index store.old.cells (Value.Ref this))) o) }
    ensures kept { KeepsAll w.index store.old store.new page.now page.now around.now }
{
    let many = list.len() as u32;
    let bill = Bill {
        units: 0,
        cells: many,
        slots: 2 * many,
        nodes: 0,
    };
    match weigh(store, page, w, bill) {
        Ok(due) => {
            let items = make_bunches(alloc, store, w, page, list)?;
            settle(store, page, w, due)?;
            Ok(NativeOut::Call(Plan::Each {
                func,
                items,
                last: Value::Ref(this),
            }))
        }
        Err(cause) => Ok(NativeOut::Stop(cause)),
    }
}

/// `each(f)`: a call with a Bunch of each node, all made before the first call; then the Bunch is
/// given back.
pub(crate) fn each(
    bunch: &Receiver,
    func: &Value,
    shared: &mut Shared,
    meter: &mut Meter,
    widget: &Widget,
) -> Result<NativeOut, Memory>
    requires bunch { IsBunchOf shared.old widget.now bunch.now.cell bunch.now.nodes.now }
    requires func { IsFine widget.now.id.index shared.old.store.cells func.now }
    requires sound { IsSoundIn shared.old widget.now }
    ensures { Runs shared.old shared.new widget.now widget.now meter.old meter.new names.Each
        bunch.now.cell bunch.now.nodes.now (func.now ∷ []) result }
{
    match function_of(&shared.store, func) {
        Some(func) => match take(meter, bunch.nodes.len()) {
            Ok(()) => calls(
                shared.alloc,
                bunch.nodes,
                func,
                bunch.cell,
                &mut shared.store,
                widget.id,
                &shared.page,
                &widget.around,
            ),
            Err(_) => Ok(NativeOut::OutOfFuel),
        },
        None => Ok(NativeOut::Throw(Fault::E4)),
    }
}

/// `bubble()` marks the innermost dispatch; without one it is a fault.
pub(crate) fn bubble(bubbled: &mut Option<bool>) -> NativeOut
    ensures { (w : ℕ) (s : Cells) (p : Page) (l : Loop) (f : Fuel) → IsSound w s p l
        → RefinesAt w (beside s p l bubbled.old) (beside s p l bubbled.new) f f
        (λ d t. dispatch.bubble t.dispatches t) result }
{
    match bubbled {
        None => NativeOut::Throw(Fault::E3),
        Some(_) => {
            *bubbled = Some(true);
            NativeOut::Value(Value::Undefined)
        }
    }
}
