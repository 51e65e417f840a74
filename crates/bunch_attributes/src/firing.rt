//! Dispatches to the nodes of a Bunch.
ghost use Rattle.std.specs.Prelude.{[], ◌∷◌};
ghost use Rattle.widget_meaning.specs.BunchWrites as means;
ghost use Rattle.permitted_table.specs.declared.native.WriteNative.TheVariants as names;
ghost use Rattle.native_image.specs.Handed.{IsBunchOf, IsSoundIn, Reads, numbers, sees};

use code_units::Memory;
use js_image::Fault;
use js_values::{Meter, NativeOut, Plan};
use native_common::{is_object, read_text, take};
use native_image::{Receiver, Shared, Widget};
use object_store::Value;
use plain_tree::is_event_type;

/// `fire(t)`: a dispatch to each node in order, and then the Bunch is given back.
pub fn fire(
    bunch: &Receiver,
    kind: &Value,
    shared: &Shared,
    meter: &mut Meter,
    widget: &Widget,
) -> Result<NativeOut, Memory>
    requires bunch { IsBunchOf shared.now widget.now bunch.now.cell bunch.now.nodes.now }
    requires sound { IsSoundIn shared.now widget.now }
    ensures { Reads shared.now shared.now widget.now meter.old meter.new (λ d s. means.write_method names.Fire
        (numbers shared.now widget.now bunch.now.nodes.now) (sees shared.now widget.now (Value.Ref bunch.now.cell))
        (sees shared.now widget.now kind.now ∷ []) d s) result }
{
    if is_object(kind) {
        return Ok(NativeOut::Throw(Fault::E4));
    }
    let kind = read_text(shared.alloc, kind)?;
    if !is_event_type(&kind) {
        return Ok(NativeOut::Throw(Fault::E4));
    }
    let nodes = Vec::from_slice(shared.alloc, bunch.nodes)?;
    match take(meter, bunch.nodes.len()) {
        Ok(()) => Ok(NativeOut::Call(Plan::Fire {
            kind,
            nodes,
            last: Value::Ref(bunch.cell),
        })),
        Err(_) => Ok(NativeOut::OutOfFuel),
    }
}
