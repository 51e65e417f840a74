//! The text of a value.
ghost use Rattle.std.specs.Prelude.{◌≡◌, ◌<◌, ℕ, List, [], IfOk, OnErr, true, length, Some, suc, codes, is_some};
ghost use Rattle.std.specs.List.{filter};
ghost use Rattle.js_tree.specs.Forest.{Forest};
ghost use Rattle.store_cells.specs.Cells.{PlainCell, widget_of};
ghost use Rattle.store_cells.specs.Shape.{IsRefWithin};
ghost use Rattle.code_units.specs.Permitted.{is_permitted};
ghost use Rattle.widget_meaning.specs.JsonTexts as means;
ghost use Rattle.widget_meaning.specs.JsonTexts.{Wrote, and_write, elements_text, members_text, value_text, write};
ghost use Rattle.widget_meaning.specs.OwnState.{State, array_length, cell_at, kind_of};
ghost use Rattle.widget_meaning.specs.Values.{is_object};
ghost use Rattle.js_image.specs.Elements.{own_place};
ghost use Rattle.js_image.specs.Image.{Rest, image, seen, seen_pairs};
ghost use Rattle.js_image.specs.Held.{ArePairs, IsConfined, IsFine, Kept};
ghost use Rattle.js_values.specs.Operands.{IsPrimitive};
ghost use Rattle.native_common.specs.Refines.{Refines};
ghost use Rattle.object_store.specs.Calls.{keys_at};
ghost use Rattle.json_text.specs.Confined.{RefinesConfined};
ghost use Rattle.json_text.specs.Objects.{IsObjectAt, is_object_kind, object_in, pairs_at};
ghost use Rattle.json_text.specs.Names.{comma};
ghost use Rattle.json_text.specs.Steps.{meant_step};

use crate::laws::lawful;
use crate::quoting::{push_name, push_quoted};
use crate::steps::{Step, push, push_word};
use code_units::{Memory, Owner, Text, whole_text};
use js_image::{Fault, StopCause, array_length, element};
use js_values::{Meter, NativeOut};
use native_common::{WidgetId, charged, make_text, take, text_len};
use object_store::{CellId, CellKind, Number, Store, Value};
use std::alloc::Global;

/// What is charged for a text that is too long: one more than the longest may have.
const PAST_LONGEST: usize = 65_537;

/// A comma.
const COMMA: u16 = 0x2C;

/// The arrays and objects that may stand one in the other.
const DEEPEST: u32 = 100;

/// `toJson(v)`: the text of a value, from left to right, where the first thing met decides.
pub fn to_json(
    alloc: Global,
    store: &mut Store,
    meter: &mut Meter,
    w: WidgetId,
    v: &Value,
) -> Result<NativeOut, Memory>
    requires { IsFine w.index store.old.cells v.now }
    ensures native { IfOk result (λ o. RefinesConfined w.index store.old store.new meter.old meter.new
        (λ d s. means.to_json (seen w.index store.old.cells v.now) s) o) }
    ensures memory { OnErr result ((fs : List Forest) → Kept fs w.index store.old store.new) }
{
    let mut out = Vec::new(alloc);
    match write_value(alloc, store, v, DEEPEST, &mut out)? {
        Step::NoJson => Ok(NativeOut::Throw(Fault::E4)),
        Step::TooLong => Ok(charged(meter, PAST_LONGEST, NativeOut::Stop(StopCause::LongText))),
        Step::Wrote => Ok(give_json(store, meter, w, Text::from_units(alloc, out)?)),
    }
}

// The extra is the units of the text, and so is the cost.
fn give_json(store: &mut Store, meter: &mut Meter, w: WidgetId, text: Text) -> NativeOut
    ensures { Refines w.index store.old store.new meter.old meter.new (λ d s. means.give_json (Wrote text) s) result }
{
    match take(meter, text_len(&text)) {
        Err(_) => NativeOut::OutOfFuel,
        Ok(()) => make_text(store, w, text),
    }
}

// A value inside which so many arrays and objects may stand one in the other.
#[cycle(writing)]
fn write_value(
    alloc: Global,
    store: &Store,
    v: &Value,
    m: u32,
    out: &mut Vec<u16>,
) -> Result<Step, Memory>
    ensures { IfOk result (λ p. (fs : List Forest) (r : Rest) (w : ℕ) → IsConfined fs w store.now
        → IsFine w store.now.cells v.now
        → meant_step p out.new.items
        ≡ value_text m (image fs r w store.now) (seen w store.now.cells v.now) out.old.items) }
{
    match v {
        Value::Ref(_) => {
            if m == 0 {
                return Ok(Step::NoJson);
            }
            if !is_within(store, v) {
                return Err(Memory);
            }
            write_object(alloc, store, v, m - 1, out)
        }
        _ => write_plain(alloc, v, out),
    }
}

// Whether what a value refers to is there; all that a store holds is.
fn is_within(store: &Store, v: &Value) -> bool
    ensures { result ≡ true → IsRefWithin (length store.now.cells) v.now }
{
    match v {
        Value::Ref(cell) => (*cell as usize) < store.len(),
        _ => true,
    }
}

// A primitive.
fn write_plain(alloc: Global, v: &Value, out: &mut Vec<u16>) -> Result<Step, Memory>
    requires { IsPrimitive v.now }
    ensures { IfOk result (λ p. (m : ℕ) (s : State) (w : ℕ) (cells : List PlainCell)
        → meant_step p out.new.items ≡ value_text m s (seen w cells v.now) out.old.items) }
{
    match v {
        Value::Null => push_word(out, b"null"),
        Value::Bool(true) => push_word(out, b"true"),
        Value::Bool(false) => push_word(out, b"false"),
        Value::Num(Number::Whole(n)) => push(out, whole_text(alloc, *n)?.units()),
        Value::Text(t) => push_quoted(out, t),
        _ => Ok(Step::NoJson),
    }
}

// An object or an array, inside which so many may still stand.
#[cycle(writing)]
fn write_object(
    alloc: Global,
    store: &Store,
    v: &Value,
    m: u32,
    out: &mut Vec<u16>,
) -> Result<Step, Memory>
    requires { IsRefWithin (length store.now.cells) v.now }
    ensures { IfOk result (λ p. (fs : List Forest) (r : Rest) (w : ℕ) → IsConfined fs w store.now
        → IsFine w store.now.cells v.now
        → is_object (seen w store.now.cells v.now) ≡ true
        → meant_step p out.new.items
        ≡ value_text (suc m) (image fs r w store.now) (seen w store.now.cells v.now) out.old.items) }
{
    lawful(store);
    if let Some(len) = array_length(store, v) {
        return write_array(alloc, store, v, len, m, out);
    }
    match object_in(store, v) {
        None => Ok(Step::NoJson),
        Some(cell) => match push_word(out, b"{")? {
            Step::Wrote => write_members(alloc, store, cell, m, out),
            Step::NoJson => Ok(Step::NoJson),
            Step::TooLong => Ok(Step::TooLong),
        },
    }
}

// The cell of an Object of a widget.
fn object_in(store: &Store, v: &Value) -> Option<CellId>
    requires { IsRefWithin (length store.now.cells) v.now }
    ensures { result ≡ object_in store.now.cells v.now }
{
    match v {
        Value::Ref(cell) => {
            if is_widget(store.owner(*cell)) && is_object_kind(store.kind(*cell)) {
                Some(*cell)
            } else {
                None
            }
        }
        _ => None,
    }
}

fn is_widget(owner: Owner) -> bool
    ensures { result ≡ is_some (widget_of owner) }
{
    match owner {
        Owner::Host => false,
        Owner::Widget(_) => true,
    }
}

fn is_object_kind(kind: CellKind) -> bool
    ensures { result ≡ is_object_kind kind }
{
    match kind {
        CellKind::Object => true,
        _ => false,
    }
}

// What stands before a value, and then the value.
#[cycle(writing)]
fn write_part(
    alloc: Global,
    store: &Store,
    before: &[u16],
    v: &Value,
    m: u32,
    out: &mut Vec<u16>,
) -> Result<Step, Memory>
    ensures { IfOk result (λ p. (fs : List Forest) (r : Rest) (w : ℕ) → IsConfined fs w store.now
        → IsFine w store.now.cells v.now
        → meant_step p out.new.items
        ≡ and_write (write out.old.items before.now)
        (value_text m (image fs r w store.now) (seen w store.now.cells v.now))) }
{
    match push(out, before)? {
        Step::Wrote => write_value(alloc, store, v, m, out),
        Step::NoJson => Ok(Step::NoJson),
        Step::TooLong => Ok(Step::TooLong),
    }
}

// The members of an Object, and the closing bracket.
#[cycle(writing)]
fn write_members(
    alloc: Global,
    store: &Store,
    cell: CellId,
    m: u32,
    out: &mut Vec<u16>,
) -> Result<Step, Memory>
    requires { cell < length store.now.cells }
    ensures { IfOk result (λ p. (fs : List Forest) (r : Rest) (w : ℕ) → IsConfined fs w store.now
        → ArePairs w store.now.cells (pairs_at store.now.cells cell) → IsObjectAt store.now.cells cell
        → meant_step p out.new.items ≡ members_text (value_text m (image fs r w store.now)) []
        (filter (λ q. is_permitted q.0) (seen_pairs w store.now.cells (pairs_at store.now.cells cell))) out.old.items) }
{
    let keys = store.keys(alloc, cell)?;
    write_named(alloc, store, cell, &keys, m, out)
}

// The same of the names that it lists. Each value is found by its name: to find one by its place takes a
// walk where names were deleted.
#[cycle(writing)]
fn write_named(
    alloc: Global,
    store: &Store,
    cell: CellId,
    keys: &[Text],
    m: u32,
    out: &mut Vec<u16>,
) -> Result<Step, Memory>
    requires { cell < length store.now.cells }
    ensures { IfOk result (λ p. (fs : List Forest) (r : Rest) (w : ℕ) → IsConfined fs w store.now
        → ArePairs w store.now.cells (pairs_at store.now.cells cell) → IsObjectAt store.now.cells cell
        → keys.now ≡ keys_at store.now.cells cell
        → meant_step p out.new.items ≡ members_text (value_text m (image fs r w store.now)) []
        (filter (λ q. is_permitted q.0) (seen_pairs w store.now.cells (pairs_at store.now.cells cell)))
        out.old.items) }
{
    // This law says that a name finds its own pair.
    store.names_differ(cell);
    let mut first = true;
    'names: for name in keys {
        let Some(value) = store.get(cell, name) else {
            return Err(Memory);
        };
        match push_name(out, first, name)? {
            Step::NoJson => return Ok(Step::NoJson),
            Step::TooLong => return Ok(Step::TooLong),
            Step::Wrote => {}
        }
        match write_value(alloc, store, value, m, out)? {
            Step::Wrote => first = false,
            Step::NoJson => return Ok(Step::NoJson),
            Step::TooLong => return Ok(Step::TooLong),
        }
    }
    push_word(out, b"}")
}

// The elements of an Array below its length, in brackets.
#[cycle(writing)]
fn write_array(
    alloc: Global,
    store: &Store,
    array: &Value,
    len: u32,
    m: u32,
    out: &mut Vec<u16>,
) -> Result<Step, Memory>
    requires { IsRefWithin (length store.now.cells) array.now }
    ensures { IfOk result (λ p. (fs : List Forest) (r : Rest) (w : ℕ) → IsConfined fs w store.now
        → IsFine w store.now.cells array.now
        → array_length (kind_of (image fs r w store.now) (seen w store.now.cells array.now)) ≡ Some len
        → meant_step p out.new.items
        ≡ and_write (write out.old.items (codes "[")) (elements_text (value_text m (image fs r w store.now))
        (cell_at (image fs r w store.now) (own_place w store.now.cells array.now)).pairs [] 0 len)) }
{
    match push_word(out, b"[")? {
        Step::NoJson => return Ok(Step::NoJson),
        Step::TooLong => return Ok(Step::TooLong),
        Step::Wrote => {}
    }
    for at in 0..len {
        let v = element(store, array, at)?;
        match write_part(alloc, store, separator(at == 0), &v, m, out)? {
            Step::Wrote => {}
            Step::NoJson => return Ok(Step::NoJson),
            Step::TooLong => return Ok(Step::TooLong),
        }
    }
    push_word(out, b"]")
}

// What stands before an element: a comma where it is not the first.
fn separator(first: bool) -> &'static [u16]
    ensures { result.now ≡ comma first }
{
    if first { &[] } else { &[COMMA] }
}
