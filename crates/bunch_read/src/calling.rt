//! The one call of this crate.
ghost use Rattle.std.specs.Prelude.{◌≡◌, [], ◌∷◌, true};
ghost use Rattle.widget_meaning.specs.BunchReads.{read_method};
ghost use Rattle.widget_meaning.specs.Natives.{run_native};
ghost use Rattle.js_image.specs.Image.{all_seen};
ghost use Rattle.native_common.specs.Receivers.{IsReceiver, receiver};
ghost use Rattle.native_image.specs.Handed.{AreIts, IsSoundIn, Reads, numbers, sees};
ghost use Rattle.bunch_read.specs.Part.{is_part, is_read};

use crate::finding::{get_parent, query};
use crate::first::{count, get_check};
use crate::shown::show;
use crate::styles::get_style;
use crate::texts::{get_value, get_values};
use code_units::{Memory, Owner};
use js_image::Fault;
use js_values::{Meter, NativeOut};
use native_common::nth;
use native_image::{Shared, Widget, receiver_of};
use object_store::{NativeId, ReadNative, Value};
use page_tree::NodeId;

/// A native of this crate, called by a widget: what the meaning gives at its image, for every
/// receiver and all arguments. The Global cell as receiver stands for none. The native's unit was
/// taken before; the call takes the extra. Where fuel is wanting nothing changes; page and loop are
/// only read. After `Memory` too, all that the widget holds is its own, and others have what they had.
pub fn call(
    which: NativeId,
    this: &Value,
    args: &[Value],
    shared: &mut Shared,
    meter: &mut Meter,
    widget: &Widget,
) -> Result<NativeOut, Memory>
    requires part { is_part which ≡ true }
    requires sound { IsSoundIn shared.old widget.now }
    requires receiver { IsReceiver widget.now.id.index shared.old.store.cells this.now }
    ensures { Reads shared.old shared.new widget.now meter.old meter.new (run_native which
        (receiver widget.now.id.index shared.old.store.cells this.now)
        (all_seen widget.now.id.index shared.old.store.cells args.now)) result }
{
    let absent = Value::Undefined;
    let first = nth(args, 0, &absent);
    match which {
        NativeId::Dom(_) => match shared.page.root_of(Owner::Widget(widget.id.index)) {
            Some(root) => query(&[root], first, shared, meter, widget),
            None => unreachable!(),
        },
        NativeId::Read(method) => {
            let list = receiver_of(shared.alloc, &shared.store, widget.id, &shared.page, this)?;
            match list {
                Some(list) => read(method, &list, first, shared, meter, widget),
                None => Ok(NativeOut::Throw(Fault::E3)),
            }
        }
        _ => unreachable!(),
    }
}

// A method on the nodes of its receiver, with its first argument.
fn read(
    method: ReadNative,
    list: &[NodeId],
    first: &Value,
    shared: &mut Shared,
    meter: &mut Meter,
    widget: &Widget,
) -> Result<NativeOut, Memory>
    requires method { is_read method ≡ true }
    requires nodes { AreIts shared.old widget.now list.now }
    requires sound { IsSoundIn shared.old widget.now }
    ensures { Reads shared.old shared.new widget.now meter.old meter.new (λ d s. read_method method
        (numbers shared.old widget.now list.now) (sees shared.old widget.now first.now ∷ []) s) result }
{
    match method {
        ReadNative::Explode => unreachable!(),
        ReadNative::Query => query(list, first, shared, meter, widget),
        ReadNative::GetValue => get_value(list, shared, meter, widget),
        ReadNative::GetValues => get_values(list, shared, meter, widget),
        ReadNative::GetStyle => get_style(list, first, shared, meter, widget),
        ReadNative::GetCheck => Ok(get_check(list, shared, meter, widget)),
        ReadNative::Count => Ok(count(list, shared, meter, widget)),
        ReadNative::GetParent => get_parent(list, shared, meter, widget),
        _ => show(method, list, shared, meter, widget),
    }
}
