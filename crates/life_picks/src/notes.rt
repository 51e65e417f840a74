//! The note of an uncaught throw.
ghost use Rattle.std.specs.Prelude.{◌≡◌, ℕ, ◌+◌, ◌++◌, List, IfOk, None, OnOk, Some, codes, length};
ghost use Rattle.js_tree.specs.Forest.{Forest};
ghost use Rattle.store_cells.specs.Cells.{PlainCell};
ghost use Rattle.widget_meaning.specs.OwnState.{State};
ghost use Rattle.widget_meaning.specs.Properties.{own_property};
ghost use Rattle.widget_meaning.specs.Turns.{note_text, noted};
ghost use Rattle.js_image.specs.Held.{IsConfined, IsFine, IsHeld};
ghost use Rattle.js_image.specs.Image.{Rest, image, seen};
ghost use Rattle.js_image.specs.Laws.{AreLawful};
ghost use Rattle.life_queue.specs.Lives.{own_of};
ghost use Rattle.life_queue.specs.Fine.{FineLife, KeepsLife};
ghost use Rattle.life_picks.specs.Picking.{both_texts, own_text_in, text_in};

use code_units::{Memory, Owner, Text};
use js_image::{Paid, StopCause, get, has_own, pay_units, word};
use js_values::to_text;
use life_queue::{Life, Stop};
use native_common::WidgetId;
use native_image::Shared;
use object_store::{CellId, Store, UNIT_LIMIT, Value};
use std::alloc::Global;

// The laws of the store, together.
fn lawful(store: &Store)
    ensures { AreLawful store.now.cells }
{
    store.links_are_older();
    store.permitted_leads_on();
    store.host_stays();
    store.arrays_have_length();
    store.cells_have_prototypes();
}

// What a value is as a text, none where it is none.
fn text_of(value: Value) -> Option<Text>
    ensures { (w : ℕ) (cells : List PlainCell) → result ≡ text_in (seen w cells value) }
{
    match value {
        Value::Text(text) => Some(text),
        _ => None,
    }
}

// The own text of an object under a name, none where it has none.
fn own_text(store: &Store, w: u32, object: CellId, name: &Text) -> Result<Option<Text>, Memory>
    requires confined { (fs : List Forest) × IsConfined fs w store.now }
    requires held { IsHeld w store.now.cells object }
    ensures { IfOk result (λ t. (fs : List Forest) (r : Rest) → IsConfined fs w store.now
        → t ≡ own_text_in (own_property (image fs r w store.now)
        (seen w store.now.cells (Value.Ref object)) name.now)) }
{
    let object = Value::Ref(object);
    if !has_own(store, &object, name) {
        return Ok(None);
    }
    Ok(text_of(get(store, &object, name)?))
}

// A name and a message.
fn joined(alloc: Global, name: &Text, message: &Text) -> Result<Text, Memory>
    ensures { IfOk result (λ t. t ≡ name.now ++ (codes ": " ++ message.now)) }
{
    let mut units = Vec::new(alloc);
    units.extend_from_slice(name.units())?;
    units.extend_from_slice(&[58, 32])?;
    units.extend_from_slice(message.units())?;
    Text::from_units(alloc, units)
}

// The own text of an object under `name`.
fn name_of(alloc: Global, store: &Store, w: u32, object: CellId) -> Result<Option<Text>, Memory>
    requires confined { (fs : List Forest) × IsConfined fs w store.now }
    requires held { IsHeld w store.now.cells object }
    ensures { IfOk result (λ t. (fs : List Forest) (r : Rest) → IsConfined fs w store.now
        → t ≡ own_text_in (own_property (image fs r w store.now) (seen w store.now.cells (Value.Ref object))
        (codes "name"))) }
{
    let key = word(alloc, b"name")?;
    own_text(store, w, object, &key)
}

// The own text of an object under `message`.
fn message_of(alloc: Global, store: &Store, w: u32, object: CellId) -> Result<Option<Text>, Memory>
    requires confined { (fs : List Forest) × IsConfined fs w store.now }
    requires held { IsHeld w store.now.cells object }
    ensures { IfOk result (λ t. (fs : List Forest) (r : Rest) → IsConfined fs w store.now
        → t ≡ own_text_in (own_property (image fs r w store.now) (seen w store.now.cells (Value.Ref object))
        (codes "message"))) }
{
    let key = word(alloc, b"message")?;
    own_text(store, w, object, &key)
}

// A name and what may be a message.
fn with_name(alloc: Global, name: &Text, message: Option<Text>) -> Result<Text, Memory>
    ensures { IfOk result (λ t. t ≡ both_texts (Some name.now) message) }
{
    match message {
        Some(message) => joined(alloc, name, &message),
        None => word(alloc, b"[object]"),
    }
}

// The note of what may be a name and a message.
fn note_by(alloc: Global, name: Option<Text>, message: Option<Text>) -> Result<Text, Memory>
    ensures { IfOk result (λ t. t ≡ both_texts name message) }
{
    match name {
        Some(name) => with_name(alloc, &name, message),
        None => word(alloc, b"[object]"),
    }
}

// The note of an object: its own `name` and `message`, where both are texts.
fn object_note(alloc: Global, store: &Store, w: u32, object: CellId) -> Result<Text, Memory>
    requires confined { (fs : List Forest) × IsConfined fs w store.now }
    requires held { IsHeld w store.now.cells object }
    ensures { IfOk result (λ t. (fs : List Forest) (r : Rest) → IsConfined fs w store.now
        → t ≡ note_text (image fs r w store.now) (seen w store.now.cells (Value.Ref object))) }
{
    lawful(store);
    if let Owner::Host = store.owner(object) {
        return word(alloc, b"[object]");
    }
    let name = name_of(alloc, store, w, object)?;
    let message = message_of(alloc, store, w, object)?;
    note_by(alloc, name, message)
}

// The note of a value.
fn note_of(alloc: Global, store: &Store, w: u32, value: &Value) -> Result<Text, Memory>
    requires confined { (fs : List Forest) × IsConfined fs w store.now }
    requires fine { IsFine w store.now.cells value.now }
    ensures { IfOk result (λ t. (fs : List Forest) (r : Rest) → IsConfined fs w store.now
        → t ≡ note_text (image fs r w store.now) (seen w store.now.cells value.now)) }
{
    match value {
        Value::Ref(object) => object_note(alloc, store, w, *object),
        primitive => to_text(alloc, primitive),
    }
}

// A note is kept and paid; where it cannot be paid, the widget stops.
fn keep_note(shared: &mut Shared, id: WidgetId, life: &mut Life, text: Text) -> Result<(), Memory>
    requires rest { life.old.turn ≡ None }
    requires fine { FineLife shared.old id.index life.old }
    ensures noted { OnOk result
        (own_of shared.new id.index life.new ≡ noted text (own_of shared.old id.index life.old)) }
    ensures fine { OnOk result (FineLife shared.new id.index life.new) }
    ensures kept { KeepsLife id.index shared.old shared.new life.old life.new }
    ensures rest { life.new.turn ≡ life.old.turn }
    ensures queue { life.new.queue ≡ life.old.queue }
{
    let cost = cost_of(text.units());
    let paid = shared.store.counts(Owner::Widget(id.index));
    if cost > (UNIT_LIMIT - paid.units) as usize {
        life.records.stop = Some(Stop::Due(StopCause::Units));
        return Ok(());
    }
    match pay_units(&mut shared.store, id.index, cost as u32) {
        Paid::Done => {
            life.records.uncaught.push(text)?;
            Ok(())
        }
        Paid::Stop(_) => Err(Memory),
    }
}

// What a note costs: its units and one more.
fn cost_of(units: &[u16]) -> usize
    ensures { result ≡ length units.now + 1 }
{
    units.len() + 1
}

/// The note of a value that was thrown and not caught.
pub(crate) fn note(
    alloc: Global,
    shared: &mut Shared,
    id: WidgetId,
    life: &mut Life,
    value: &Value,
) -> Result<(), Memory>
    requires rest { life.old.turn ≡ None }
    requires fine { FineLife shared.old id.index life.old }
    requires held { IsFine id.index shared.old.store.cells value.now }
    ensures noted { OnOk result ((s : State) → s.own.heap ≡ (own_of shared.old id.index life.old).heap
        → own_of shared.new id.index life.new
        ≡ noted (note_text s (seen id.index shared.old.store.cells value.now)) (own_of shared.old id.index life.old)) }
    ensures fine { OnOk result (FineLife shared.new id.index life.new) }
    ensures kept { KeepsLife id.index shared.old shared.new life.old life.new }
    ensures rest { life.new.turn ≡ life.old.turn }
    ensures queue { life.new.queue ≡ life.old.queue }
{
    let text = note_of(alloc, &shared.store, id.index, value)?;
    keep_note(shared, id, life, text)
}
