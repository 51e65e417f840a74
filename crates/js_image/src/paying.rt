//! What is paid without a new cell.
ghost use Rattle.std.specs.Prelude.{◌≡◌, ◌<◌, List};
ghost use Rattle.js_tree.specs.Forest.{Forest};
ghost use Rattle.widget_meaning.specs.OwnState.{State};
ghost use Rattle.widget_meaning.specs.Plan.{Plan};
ghost use Rattle.widget_meaning.specs.Costs as costs;
ghost use Rattle.js_image.specs.Image.{Rest, image};
ghost use Rattle.js_image.specs.Held.{Kept};
ghost use Rattle.js_image.specs.Plans.{paid_plan};

use crate::outcome::{Paid, StopCause};
use code_units::{Owner, Text};
use object_store::Store;

/// Pays for units of text.
pub fn pay_units(store: &mut Store, w: u32, n: u32) -> Paid
    requires widget { w < 32 }
    ensures plan { (fs : List Forest) (r : Rest) (k : State → Plan)
        → costs.pay (costs.units_cost n) (image fs r w store.old) k ≡ paid_plan result k (image fs r w store.new) }
    ensures kept { (fs : List Forest) → Kept fs w store.old store.new }
{
    // What the widget has paid so far is within the limits.
    let _paid = store.counts(Owner::Widget(w));
    match store.charge_units(Owner::Widget(w), n) {
        Ok(()) => Paid::Done,
        Err(_) => Paid::Stop(StopCause::Units),
    }
}

/// Pays for slots.
pub fn pay_slots(store: &mut Store, w: u32, n: u32) -> Paid
    requires widget { w < 32 }
    ensures plan { (fs : List Forest) (r : Rest) (k : State → Plan)
        → costs.pay (costs.slots_cost n) (image fs r w store.old) k ≡ paid_plan result k (image fs r w store.new) }
    ensures kept { (fs : List Forest) → Kept fs w store.old store.new }
{
    let _paid = store.counts(Owner::Widget(w));
    match store.charge_slots(Owner::Widget(w), n) {
        Ok(()) => Paid::Done,
        Err(_) => Paid::Stop(StopCause::Slots),
    }
}

/// Pays for a text that is joined or made: it stops where it has over 65,536 units.
pub fn pay_text(store: &mut Store, w: u32, text: &Text) -> Paid
    requires widget { w < 32 }
    ensures plan { (fs : List Forest) (r : Rest) (k : State → Plan)
        → costs.make_text text.now (image fs r w store.old) k ≡ paid_plan result k (image fs r w store.new) }
    ensures kept { (fs : List Forest) → Kept fs w store.old store.new }
{
    let len = text.units().len();
    if len > LONGEST {
        return Paid::Stop(StopCause::LongText);
    }
    pay_units(store, w, len as u32)
}

const LONGEST: usize = 65536;
