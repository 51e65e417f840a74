//! What natives of the page give.
ghost use Rattle.std.specs.Prelude.{◌≡◌, ℕ};
ghost use Rattle.store_cells.specs.Cells.{Cells};
ghost use Rattle.widget_meaning.specs.BunchReads as means;
ghost use Rattle.widget_meaning.specs.Costs as costs;
ghost use Rattle.widget_meaning.specs.Costs.{give};
ghost use Rattle.widget_meaning.specs.Plan.{charge};
ghost use Rattle.widget_meaning.specs.Values.{Text as Meant};
ghost use Rattle.js_values.specs.Operands.{IsPrimitive, plain};
ghost use Rattle.native_common.specs.Refines.{Ends, Refines};
ghost use Rattle.native_common.specs.Numbers.{counted};
ghost use Rattle.native_image.specs.Image.{Parts};
ghost use Rattle.native_image.specs.Refines.{FiresAtOwn};

use code_units::Text;
use js_image::{Paid, pay_text};
use js_values::{Meter, NativeOut};
use native_common::{WidgetId, take};
use object_store::{Store, Value};

/// A text that is made and given, with this extra.
pub fn give_page_text(
    store: &mut Store,
    meter: &mut Meter,
    w: WidgetId,
    extra: usize,
    text: Text,
) -> NativeOut
    ensures native { (n : ℕ) → extra ≡ counted n
        → Refines w.index store.old store.new meter.old meter.new (λ d s. means.give_page_text n text s) result }
    ensures fires { (v : ℕ) (h : Parts) → FiresAtOwn v h result }
{
    match take(meter, extra) {
        Ok(()) => make_text(store, w, text),
        Err(_) => NativeOut::OutOfFuel,
    }
}

/// A text that is made costs its units, and is given.
pub fn make_text(store: &mut Store, w: WidgetId, text: Text) -> NativeOut
    ensures ends { Ends w.index store.old store.new (λ d s. costs.make_text text s (give (Meant text))) result }
    ensures fires { (v : ℕ) (h : Parts) → FiresAtOwn v h result }
{
    match pay_text(store, w.index, &text) {
        Paid::Done => NativeOut::Value(Value::Text(text)),
        Paid::Stop(cause) => NativeOut::Stop(cause),
    }
}

/// A primitive that is given, with this extra.
pub fn give_plain(meter: &mut Meter, extra: usize, value: Value) -> NativeOut
    requires primitive { IsPrimitive value }
    ensures native { (w : ℕ) (s : Cells) (n : ℕ) → extra ≡ counted n
        → Refines w s s meter.old meter.new (λ d t. charge n t (give (plain value) t)) result }
    ensures fires { (v : ℕ) (h : Parts) → FiresAtOwn v h result }
{
    match take(meter, extra) {
        Ok(()) => NativeOut::Value(value),
        Err(_) => NativeOut::OutOfFuel,
    }
}
