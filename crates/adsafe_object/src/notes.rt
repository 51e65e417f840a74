//! Natives that change what is kept for a widget beside its store: the log, posts and timers.
ghost use Rattle.std.specs.Prelude.{◌≡◌, ◌+◌, ◌<◌, ℕ, List, [], ◌∷◌, None, IfOk, IfSome, OnErr, is_some, length, true};
ghost use Rattle.js_tree.specs.Forest.{Forest};
ghost use Rattle.store_cells.specs.Cells.{PlainCell, own_count};
ghost use Rattle.store_cells.specs.Shape.{IsRefWithin};
ghost use Rattle.object_store.specs.Owned.{visible_at};
ghost use Rattle.widget_meaning.specs.OwnState.{State};
ghost use Rattle.widget_meaning.specs.Plan.{Plan};
ghost use Rattle.widget_meaning.specs.Properties as properties;
ghost use Rattle.widget_meaning.specs.Values as meaning;
ghost use Rattle.widget_meaning.specs.Costs as costs;
ghost use Rattle.widget_meaning.specs.AdsafeNatives as means;
ghost use Rattle.widget_meaning.specs.NativeForms.{want_primitives};
ghost use Rattle.js_image.specs.Image.{Rest, image, seen};
ghost use Rattle.js_image.specs.Held.{IsFine, Kept};
ghost use Rattle.js_image.specs.Reads.{cell_in};
ghost use Rattle.js_image.specs.Plans.{paid_plan};
ghost use Rattle.adsafe_object.specs.Ends.{EndsNoted, RefinesNoted};
ghost use Rattle.adsafe_object.specs.Names.{text_plan};
ghost use Rattle.adsafe_object.specs.Timers.{AsksOwn, milliseconds};

use code_units::{Memory, Text};
use js_image::{Callee, Fault, Paid, StopCause, callee, pay_units};
use js_values::{Meter, NativeOut, to_text};
use native_common::{WidgetId, take, text_len};
use object_store::{CellId, Number, Store, UNIT_LIMIT, Value};
use std::alloc::Global;

/// The posts that may be kept.
const MOST_POSTS: usize = 256;

/// The units that a post may have.
const LONGEST_POST: usize = 1024;

/// The timers that may wait.
const MOST_TIMERS: u32 = 64;

/// `log(v)`: appends the text of a primitive. The extra is its units.
pub(crate) fn log(
    alloc: Global,
    store: &mut Store,
    meter: &mut Meter,
    w: WidgetId,
    v: &Value,
    log: &mut Vec<Text>,
) -> Result<NativeOut, Memory>
    ensures native { IfOk result (λ o. (waiting : ℕ) (posts : List (List ℕ × List ℕ)) →
        RefinesNoted w.index waiting store.old store.new meter.old meter.new
        (record { log = log.old.items; posts = posts; asked = None })
        (record { log = log.new.items; posts = posts; asked = None })
        (λ d s. means.log_native (seen w.index store.old.cells v.now) s) o) }
    ensures memory { OnErr result ((fs : List Forest) → Kept fs w.index store.old store.new) }
{
    let Some(text) = primitive_text(alloc, v)? else {
        return Ok(NativeOut::Throw(Fault::E4));
    };
    match take(meter, text_len(&text)) {
        Err(_) => Ok(NativeOut::OutOfFuel),
        Ok(()) => append(store, w, text, log),
    }
}

// The text of a primitive; an object has none.
pub(crate) fn primitive_text(alloc: Global, v: &Value) -> Result<Option<Text>, Memory>
    ensures { IfOk result (λ o. (w : ℕ) (cells : List PlainCell) (s : State) (k : List ℕ → Plan)
        → want_primitives (seen w cells v.now ∷ []) s (k (meaning.to_text (seen w cells v.now))) ≡ text_plan o s k) }
{
    if let Value::Ref(_) = v {
        return Ok(None);
    }
    Ok(Some(to_text(alloc, v)?))
}

// A text costs its units and one more, and goes last into the log.
fn append(
    store: &mut Store,
    w: WidgetId,
    text: Text,
    log: &mut Vec<Text>,
) -> Result<NativeOut, Memory>
    ensures ends { IfOk result (λ o. (waiting : ℕ) (posts : List (List ℕ × List ℕ)) →
        EndsNoted w.index waiting store.old store.new
        (record { log = log.old.items; posts = posts; asked = None })
        (record { log = log.new.items; posts = posts; asked = None })
        (λ d s. costs.pay (costs.units_cost (length text + 1)) s
        (λ u. costs.give meaning.Undefined (means.with_entry u text))) o) }
    ensures memory { OnErr result ((fs : List Forest) → Kept fs w.index store.old store.new) }
{
    match pay_entry(store, w, text.units().len()) {
        Paid::Stop(cause) => Ok(NativeOut::Stop(cause)),
        Paid::Done => {
            log.push(text)?;
            Ok(NativeOut::Value(Value::Undefined))
        }
    }
}

// So many units and one more are paid.
fn pay_entry(store: &mut Store, w: WidgetId, units: usize) -> Paid
    ensures plan { (fs : List Forest) (r : Rest) (k : State → Plan)
        → costs.pay (costs.units_cost (units + 1)) (image fs r w.index store.old) k
        ≡ paid_plan result k (image fs r w.index store.new) }
    ensures kept { (fs : List Forest) → Kept fs w.index store.old store.new }
{
    if units >= UNIT_LIMIT as usize {
        return Paid::Stop(StopCause::Units);
    }
    pay_units(store, w.index, units as u32 + 1)
}

/// `post(to, text)`: keeps a post, and gives whether there was room. The extra is the units of the text.
pub(crate) fn post(
    store: &mut Store,
    meter: &mut Meter,
    w: WidgetId,
    to: &Value,
    text: &Value,
    posts: &mut Vec<(Text, Text)>,
) -> Result<NativeOut, Memory>
    ensures native { IfOk result (λ o. (waiting : ℕ) (log : List (List ℕ)) →
        RefinesNoted w.index waiting store.old store.new meter.old meter.new
        (record { log = log; posts = posts.old.items; asked = None })
        (record { log = log; posts = posts.new.items; asked = None })
        (λ d s. means.post (seen w.index store.old.cells to.now) (seen w.index store.old.cells text.now) s) o) }
    ensures memory { OnErr result ((fs : List Forest) → Kept fs w.index store.old store.new) }
{
    let Value::Text(to) = to else {
        return Ok(NativeOut::Throw(Fault::E4));
    };
    let Value::Text(text) = text else {
        return Ok(NativeOut::Throw(Fault::E4));
    };
    let len = text_len(text);
    if len > LONGEST_POST {
        return Ok(NativeOut::Throw(Fault::E4));
    }
    match take(meter, len) {
        Err(_) => Ok(NativeOut::OutOfFuel),
        Ok(()) => keep_post(store, w, to, text, posts),
    }
}

// A post is kept where there is room, at the cost of its units and one more.
fn keep_post(
    store: &mut Store,
    w: WidgetId,
    to: &Text,
    text: &Text,
    posts: &mut Vec<(Text, Text)>,
) -> Result<NativeOut, Memory>
    ensures ends { IfOk result (λ o. (waiting : ℕ) (log : List (List ℕ)) →
        EndsNoted w.index waiting store.old store.new
        (record { log = log; posts = posts.old.items; asked = None })
        (record { log = log; posts = posts.new.items; asked = None })
        (λ d s. means.keep_post to.now text.now s) o) }
    ensures memory { OnErr result ((fs : List Forest) → Kept fs w.index store.old store.new) }
{
    if posts.len() >= MOST_POSTS {
        return Ok(NativeOut::Value(Value::Bool(false)));
    }
    match pay_entry(store, w, text.units().len()) {
        Paid::Stop(cause) => Ok(NativeOut::Stop(cause)),
        Paid::Done => {
            posts.push((to.share()?, text.share()?))?;
            Ok(NativeOut::Value(Value::Bool(true)))
        }
    }
}

/// `later(f, ms)`: asks for a timer of a function of the widget. `waiting` timers wait already.
pub(crate) fn later(
    store: &Store,
    w: WidgetId,
    func: &Value,
    ms: &Value,
    waiting: u32,
    asked: &mut Option<(CellId, i64)>,
) -> NativeOut
    requires func { IsFine w.index store.now.cells func.now }
    requires unasked { asked.old ≡ None }
    ensures own { AsksOwn w.index store.now.cells asked.new }
    ensures native { (log : List (List ℕ)) (posts : List (List ℕ × List ℕ)) →
        EndsNoted w.index waiting store.now store.now
        (record { log = log; posts = posts; asked = None }) (record { log = log; posts = posts; asked = asked.new })
        (λ d s. means.later (seen w.index store.now.cells func.now) (seen w.index store.now.cells ms.now) s) result }
{
    let Some(cell) = own_function(store, func) else {
        return NativeOut::Throw(Fault::E4);
    };
    let Some(ms) = milliseconds(ms) else {
        return NativeOut::Throw(Fault::E4);
    };
    if waiting >= MOST_TIMERS {
        return NativeOut::Throw(Fault::E11);
    }
    *asked = Some((cell, ms));
    NativeOut::Value(Value::Undefined)
}

// The cell of a function of the widget.
fn own_function(store: &Store, v: &Value) -> Option<CellId>
    requires { IsRefWithin (length store.now.cells) v.now }
    ensures function { (fs : List Forest) (r : Rest) (w : ℕ) → IsFine w store.now.cells v.now
        → properties.is_own_function (image fs r w store.now) (seen w store.now.cells v.now) ≡ is_some result }
    ensures cell { (w : ℕ) → IsFine w store.now.cells v.now
        → IfSome result (λ i. seen w store.now.cells v.now ≡ meaning.Own (own_count w store.now.cells i)) }
    ensures own { (w : ℕ) → IsFine w store.now.cells v.now
        → IfSome result (λ i. (i < length store.now.cells) × (visible_at w store.now.cells i ≡ true)) }
{
    match callee(store, v) {
        Callee::Function(_) => cell_of(v),
        _ => None,
    }
}

// The time of a timer, 0 where it is absent; what is no number is none.
fn milliseconds(ms: &Value) -> Option<i64>
    ensures { (w : ℕ) (cells : List PlainCell) → milliseconds (seen w cells ms.now) ≡ result }
{
    match ms {
        Value::Undefined => Some(0),
        Value::Num(Number::Whole(n)) => Some(*n),
        _ => None,
    }
}

// The cell to which a value refers.
fn cell_of(v: &Value) -> Option<CellId>
    ensures { result ≡ cell_in v.now }
{
    match v {
        Value::Ref(cell) => Some(*cell),
        _ => None,
    }
}
