//! An event as it leaves the queue.
ghost use Rattle.std.specs.Prelude.{◌≡◌, ℕ, ◌+◌, ◌<◌, ◌^◌, [], List, Some, None, OnErr, OnOk, IfOk, length, map, true};
ghost use Rattle.std.specs.List.{AllByRecursion};
ghost use Rattle.js_tree.specs.Forest.{Forest};
ghost use Rattle.store_cells.specs.Cells.{PlainCell, Cells, own_count};
ghost use Rattle.widget_meaning.specs.Dispatch as meaning;
ghost use Rattle.widget_meaning.specs.Items.{event_value, with_value};
ghost use Rattle.widget_meaning.specs.OwnState.{OwnState, State};
ghost use Rattle.widget_meaning.specs.Trees.{node_at};
ghost use Rattle.page_tree.specs.declared.page.Page.{Page as PageOf};
ghost use Rattle.page_image.specs.Image.{HasRoot, forest, label_at, number, owns};
ghost use Rattle.page_image.specs.Stays.{HostStays, KeepsNodes, OthersStay};
ghost use Rattle.page_image.specs.Around.{Shows};
ghost use Rattle.event_loop.specs.declared.around.Loop.{Loop as LoopOf};
ghost use Rattle.native_image.specs.Image.{Outside};
ghost use Rattle.native_image.specs.Sound.{IsOwnCell};
ghost use Rattle.js_image.specs.Held.{IsFine};
ghost use Rattle.js_image.specs.Image.{seen};
ghost use Rattle.turn_dispatch.specs.Held.{FineDoing, FineHeard};
ghost use Rattle.turn_dispatch.specs.Levels.{heard_plan, turn_plan};
ghost use Rattle.turn_dispatch.specs.Turns.{turn_image};
ghost use Rattle.turn_dispatch.specs.Waiting.{FineLevels};
ghost use Rattle.life_queue.specs.Lives.{is_input_label};
ghost use Rattle.life_queue.specs.Fine.{FineLife, KeepsLife, tally};
ghost use Rattle.life_queue.specs.Taken.{Starts, Takes};
ghost use Rattle.life_queue.specs.declared.life.Work.TheVariants as work;

use crate::begins::begin;
use crate::leading::target;
use crate::life::Life;
use code_units::{Memory, Text, is_word};
use event_loop::Event;
use js_image::word;
use native_image::{Shared, WidgetId};
use object_store::{CellId, Value};
use page_image::{set_attr, tag};
use page_tree::{NodeId, Page};
use std::alloc::Global;
use turn_dispatch::{Calls, Dispatch, Doing, Heard, hear, listeners};

// Whether a node is an `input`.
fn is_input(page: &Page, w: u32, node: NodeId) -> bool
    requires { owns page.now w node ≡ true }
    ensures { result ≡ is_input_label (label_at page.now w node) }
{
    match tag(page, w, node) {
        Some(name) => is_word(name, b"input"),
        None => false,
    }
}

// A text becomes the `value` attribute of an `input`.
fn set_text_value(
    alloc: Global,
    page: &mut Page,
    w: u32,
    node: NodeId,
    text: &Text,
) -> Result<(), Memory>
    requires home { HasRoot page.old w }
    requires own { owns page.old w node ≡ true }
    ensures image { OnOk result ((o : OwnState) → o.forest ≡ forest page.old w
        → with_value (label_at page.old w node) (number page.old w node) (Some text.now) o
        ≡ record o { forest = forest page.new w }) }
    ensures kept { KeepsNodes page.old page.new }
    ensures others { OthersStay page.old page.new w }
    ensures host { HostStays page.old page.new }
{
    if !is_input(page, w, node) {
        return Ok(());
    }
    let name = word(alloc, b"value")?;
    set_attr(page, w, node, &name, Some(text.share()?))
}

// The value of an event becomes the `value` attribute of an `input`.
fn set_value(
    alloc: Global,
    page: &mut Page,
    w: u32,
    node: NodeId,
    value: &Option<Text>,
) -> Result<(), Memory>
    requires home { HasRoot page.old w }
    requires own { owns page.old w node ≡ true }
    ensures image { OnOk result ((o : OwnState) → o.forest ≡ forest page.old w
        → with_value (label_at page.old w node) (number page.old w node) value.now o
        ≡ record o { forest = forest page.new w }) }
    ensures kept { KeepsNodes page.old page.new }
    ensures others { OthersStay page.old page.new w }
    ensures host { HostStays page.old page.new }
{
    match value {
        Some(text) => set_text_value(alloc, page, w, node, text),
        None => Ok(()),
    }
}

// The value that handlers see.
fn seen_value(value: &Option<Text>) -> Result<Value, Memory>
    ensures { IfOk result (λ v. (w : ℕ) (cells : List PlainCell)
        → (seen w cells v ≡ event_value value.now) × IsFine w cells v) }
{
    match value {
        Some(text) => Ok(Value::Text(text.share()?)),
        None => Ok(Value::Undefined),
    }
}

// What the turn of a dispatch does, with its calls.
fn opened(alloc: Global, heard: Heard) -> Result<(Doing, Calls), Memory>
    ensures plan { IfOk result (λ d. (fs : List Forest) (x : Outside) (w : ℕ) (s : Cells) (p : PageOf) (l : LoopOf)
        → heard_plan w s.cells p heard (turn_image fs x w s p l [])
        ≡ turn_plan fs w s.cells p d.0 d.1.levels.items (turn_image fs x w s p l d.1.dispatches.items)) }
    ensures fine { IfOk result (λ d. (fs : List Forest) (w : ℕ) (s : Cells) (p : PageOf)
        → FineHeard w s.cells p heard → FineDoing fs w s p d.0 × FineLevels fs w s.cells p d.1.levels.items) }
{
    let mut dispatches = Vec::new(alloc);
    match heard {
        Heard::Stop(cause) => Ok((
            Doing::Stop(cause),
            Calls {
                levels: Vec::new(alloc),
                dispatches,
            },
        )),
        Heard::Calls(hearing) => {
            dispatches.push(false)?;
            Ok((
                Doing::Hears(hearing),
                Calls {
                    levels: Vec::new(alloc),
                    dispatches,
                },
            ))
        }
    }
}

// The turn of an event begins at the node that listens.
fn hear_event(
    alloc: Global,
    shared: &mut Shared,
    id: WidgetId,
    life: &mut Life,
    event: (Event, NodeId),
    at: (NodeId, Vec<CellId>),
) -> Result<(), Memory>
    requires rests { life.old.turn ≡ None }
    requires fine { FineLife shared.old id.index life.old }
    requires own { owns shared.old.page id.index event.1 ≡ true }
    requires near { (s : State)
        → Shows shared.old.page id.index (own_count id.index shared.old.store.cells) life.old.widget.around s.own
        → meaning.nearest s (Some (number shared.old.page id.index event.1)) event.0.kind
        ≡ Some (number shared.old.page id.index at.0, map (own_count id.index shared.old.store.cells) at.1.items) }
    requires node { owns shared.old.page id.index at.0 ≡ true }
    requires functions { AllByRecursion (IsOwnCell id.index shared.old.store.cells) at.1.items }
    requires some { 0 < length at.1.items }
    requires room { tally shared.old id.index life.old + 1 < 2 ^ 32 }
    ensures starts { OnOk result (Starts shared.old shared.new id.index
        (meaning.dispatch event.0.kind (number shared.old.page id.index event.1)
        (event_value event.0.value) 0) life.old life.new) }
    ensures kept { KeepsLife id.index shared.old shared.new life.old life.new }
    ensures none { OnErr result (life.new.turn ≡ None) }
{
    let (event, node) = event;
    let dispatch = Dispatch {
        kind: event.kind,
        target: node,
        value: seen_value(&event.value)?,
        depth: 0,
    };
    let heard = hear(alloc, &mut shared.store, id, &shared.page, dispatch, at)?;
    let (doing, calls) = opened(alloc, heard)?;
    begin(life, doing, calls);
    Ok(())
}

// An event reaches its node, and its turn begins at the nearest node at or above it that listens, where
// there is one.
fn reach(
    alloc: Global,
    shared: &mut Shared,
    id: WidgetId,
    life: &mut Life,
    event: (Event, NodeId),
) -> Result<(), Memory>
    requires rests { life.old.turn ≡ None }
    requires live { life.old.records.stop ≡ None }
    requires fine { FineLife shared.old id.index life.old }
    requires own { owns shared.old.page id.index event.1 ≡ true }
    requires leads { node_at (forest shared.old.page id.index) event.0.path.items
        ≡ Some (number shared.old.page id.index event.1) }
    requires room { tally shared.old id.index life.old + 1 < 2 ^ 32 }
    ensures taken { OnOk result (Takes shared.old shared.new id.index (work.Event event.0) life.old life.new) }
    ensures kept { KeepsLife id.index shared.old shared.new life.old life.new }
    ensures none { OnErr result (life.new.turn ≡ None) }
{
    let (event, node) = event;
    set_value(alloc, &mut shared.page, id.index, node, &event.value)?;
    match listeners(
        alloc,
        id,
        &shared.page,
        &life.widget.around,
        Some(node),
        &event.kind,
    )? {
        None => Ok(()),
        Some(at) => hear_event(alloc, shared, id, life, (event, node), at),
    }
}

/// An event: a life that has stopped counts it as gone; one that leads to no node is missed; else its
/// turn begins at the nearest node at or above its target that listens, where there is one.
pub(crate) fn take_event(
    alloc: Global,
    shared: &mut Shared,
    id: WidgetId,
    life: &mut Life,
    event: Event,
) -> Result<(), Memory>
    requires rests { life.old.turn ≡ None }
    requires fine { FineLife shared.old id.index life.old }
    requires room { tally shared.old id.index life.old + 1 < 2 ^ 32 }
    ensures taken { OnOk result (Takes shared.old shared.new id.index (work.Event event) life.old life.new) }
    ensures kept { KeepsLife id.index shared.old shared.new life.old life.new }
    ensures none { OnErr result (life.new.turn ≡ None) }
{
    if life.records.stop.is_some() {
        life.records.gone += 1;
        return Ok(());
    }
    match target(&shared.page, id, &event.path) {
        Some(node) => reach(alloc, shared, id, life, (event, node)),
        None => {
            life.records.missed += 1;
            Ok(())
        }
    }
}
