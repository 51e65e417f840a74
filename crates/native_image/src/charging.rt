//! What natives of the page take before they change anything: a charge, and a cost of one kind.
ghost use Rattle.std.specs.Prelude.{◌≡◌, ℕ, List, IfErr, OnOk};
ghost use Rattle.js_tree.specs.Forest.{Forest};
ghost use Rattle.widget_meaning.specs.OwnState.{State};
ghost use Rattle.widget_meaning.specs.Plan.{Plan, charge};
ghost use Rattle.js_image.specs.Held.{Kept};
ghost use Rattle.js_image.specs.Image.{Rest, image};
ghost use Rattle.js_image.specs.Plans.{paid_plan};
ghost use Rattle.native_common.specs.Refines.{Refines};
ghost use Rattle.native_common.specs.Numbers.{counted};
ghost use Rattle.native_image.specs.Charges.{Begins, IsPrice, OfUnits, Price, pay_for};
ghost use Rattle.native_image.specs.Image.{Parts};
ghost use Rattle.native_image.specs.Refines.{FiresAtOwn};

use js_image::{Paid, StopCause, pay_slots, pay_units};
use js_values::{Meter, NativeOut};
use native_common::{WidgetId, take};
use object_store::Store;

/// What a native pays beside its charge.
#[derive(Clone, Copy, Drop)]
pub enum Cost {
    Nothing,
    /// Units of text, counted.
    Units(usize),
    Slots(u32),
}

/// Takes a charge and pays a cost; where one of them is wanting, that is the native's answer.
pub fn begin(
    store: &mut Store,
    meter: &mut Meter,
    w: WidgetId,
    extra: usize,
    cost: Cost,
) -> Result<(), NativeOut>
    ensures begun { OnOk result ((n : ℕ) (c : Price) → extra ≡ counted n → IsPrice cost c
        → Begins w.index store.old store.new meter.old meter.new n c) }
    ensures refused { IfErr result (λ o. (n : ℕ) (c : Price) (k : ℕ → State → Plan) → extra ≡ counted n → IsPrice cost c
        → Refines w.index store.old store.new meter.old meter.new (λ d s. charge n s (pay_for c s (k d))) o) }
    ensures fires { IfErr result (λ o. (v : ℕ) (h : Parts) → FiresAtOwn v h o) }
    ensures kept { (fs : List Forest) → Kept fs w.index store.old store.new }
{
    match take(meter, extra) {
        Ok(()) => match pay(store, w, cost) {
            Paid::Done => Ok(()),
            Paid::Stop(cause) => Err(NativeOut::Stop(cause)),
        },
        Err(_) => Err(NativeOut::OutOfFuel),
    }
}

// Pays a cost.
fn pay(store: &mut Store, w: WidgetId, cost: Cost) -> Paid
    ensures plan { (c : Price) → IsPrice cost c → (fs : List Forest) (r : Rest) (k : State → Plan)
        → pay_for c (image fs r w.index store.old) k ≡ paid_plan result k (image fs r w.index store.new) }
    ensures kept { (fs : List Forest) → Kept fs w.index store.old store.new }
{
    match cost {
        Cost::Nothing => Paid::Done,
        Cost::Units(n) => pay_counted(store, w, n),
        Cost::Slots(n) => pay_slots(store, w.index, n),
    }
}

// Pays for units of text that were counted: 2^32 or more are over all that a widget may have.
fn pay_counted(store: &mut Store, w: WidgetId, units: usize) -> Paid
    ensures plan { (n : ℕ) → units ≡ counted n → (fs : List Forest) (r : Rest) (k : State → Plan)
        → pay_for (OfUnits n) (image fs r w.index store.old) k ≡ paid_plan result k (image fs r w.index store.new) }
    ensures kept { (fs : List Forest) → Kept fs w.index store.old store.new }
{
    match u32::try_from(units) {
        Ok(few) => pay_units(store, w.index, few),
        Err(_) => Paid::Stop(StopCause::Units),
    }
}
