//! The items of a trace.
ghost use Rattle.std.specs.Prelude.{◌<◌, ◌^◌, ℕ, List, IfOk, IsErrOf, length, map, codes, string_bytes, Option};
ghost use Rattle.serde_json.specs.View.{view};
ghost use Rattle.serde_json.specs.Find.{get};
ghost use Rattle.trace_reader.specs.Items.{IsPath, IsValue, IsAdvance, IsEvent, IsSwap, IsItem};

use code_units::Text;
use json_shapes::{Misfit, has_key, has_only, list_at, number_at, slot_at, text_at};
use plain_tree::is_event_type;
use serde_json::Value;
use std::alloc::Global;

/// The steps that a path may have.
const LONGEST_PATH: usize = 200;

/// The last child position that a step may have.
const LAST_STEP: u64 = u32::MAX as u64;

/// The units that the value of an event may have.
const LONGEST_VALUE: usize = 65_536;

/// The milliseconds that an advance may have.
const LONGEST_ADVANCE: u64 = 60_000;

/// What happens at a node of a widget: the type of the event, the path from the widget's root to
/// the node by child positions, and a text for it, if there is one.
#[derive(Drop)]
pub struct Happening {
    pub kind: Text,
    pub path: Vec<u32>,
    pub value: Option<Text>,
}

/// An item of a trace. `to` is the number of a slot.
#[derive(Drop)]
pub enum TraceItem {
    /// An event in one widget.
    Event { to: u32, event: Happening },
    /// So many milliseconds go by.
    Advance(u32),
    /// The slot gets another file.
    Swap { to: u32, file: String },
}

fn read_path(alloc: Global, steps: &[Value]) -> Result<Vec<u32>, Misfit>
    ensures ok { IfOk result (λ path. IsPath (map view steps.now) path.items) }
    ensures misfit { IsErrOf result Misfit.Shape → (path : List ℕ) → ¬ IsPath (map view steps.now) path }
{
    if steps.len() > LONGEST_PATH {
        return Err(Misfit::Shape);
    }
    let mut path = Vec::with_capacity(alloc, steps.len())?;
    'steps: for step in steps {
        let Some(n) = step.as_u64() else {
            return Err(Misfit::Shape);
        };
        if n > LAST_STEP {
            return Err(Misfit::Shape);
        }
        path.push(n as u32)?;
    }
    Ok(path)
}

fn read_value(alloc: Global, item: &Value) -> Result<Option<Text>, Misfit>
    ensures ok { IfOk result (λ value. IsValue (get (codes "value") (view item.now)) value) }
    ensures misfit { IsErrOf result Misfit.Shape → (value : Option (List ℕ)) →
        ¬ IsValue (get (codes "value") (view item.now)) value }
{
    let Some(value) = item.get("value") else {
        return Ok(None);
    };
    let Some(text) = value.as_str() else {
        return Err(Misfit::Shape);
    };
    let text = Text::from_str(alloc, text)?;
    if text.units().len() > LONGEST_VALUE {
        return Err(Misfit::Shape);
    }
    Ok(Some(text))
}

fn read_advance(item: &Value) -> Result<u32, Misfit>
    ensures ok { IfOk result (λ ms. IsAdvance (view item.now) ms) }
    ensures misfit { IsErrOf result Misfit.Shape → (ms : ℕ) → ¬ IsAdvance (view item.now) ms }
{
    let Some(ms) = number_at(item, "advance") else {
        return Err(Misfit::Shape);
    };
    if ms > LONGEST_ADVANCE || !has_only(item, &["advance"]) {
        return Err(Misfit::Shape);
    }
    Ok(ms as u32)
}

fn read_swap(alloc: Global, item: &Value, names: &[Text]) -> Result<(u32, String), Misfit>
    requires { length names.now < 2 ^ 32 }
    ensures ok { IfOk result (λ p. IsSwap names.now (view item.now) p.0 (string_bytes p.1)) }
    ensures misfit { IsErrOf result Misfit.Shape → (to : ℕ) → (file : List ℕ) →
        ¬ IsSwap names.now (view item.now) to file }
{
    let Some(to) = slot_at(item, "swap", names) else {
        return Err(Misfit::Shape);
    };
    let Some(file) = text_at(item, "file") else {
        return Err(Misfit::Shape);
    };
    if !has_only(item, &["swap", "file"]) {
        return Err(Misfit::Shape);
    }
    Ok((to as u32, String::from_str(alloc, file)?))
}

fn read_event(alloc: Global, item: &Value, names: &[Text]) -> Result<(u32, Happening), Misfit>
    requires { length names.now < 2 ^ 32 }
    ensures ok { IfOk result (λ p. IsEvent names.now (view item.now) p.0 p.1) }
    ensures misfit { IsErrOf result Misfit.Shape → (to : ℕ) → (event : Happening) →
        ¬ IsEvent names.now (view item.now) to event }
{
    if !has_only(item, &["to", "event", "path", "value"]) {
        return Err(Misfit::Shape);
    }
    let Some(to) = slot_at(item, "to", names) else {
        return Err(Misfit::Shape);
    };
    let Some(kind) = text_at(item, "event") else {
        return Err(Misfit::Shape);
    };
    let Some(steps) = list_at(item, "path") else {
        return Err(Misfit::Shape);
    };
    let kind = Text::from_str(alloc, kind)?;
    if !is_event_type(&kind) {
        return Err(Misfit::Shape);
    }
    let path = read_path(alloc, steps)?;
    let value = read_value(alloc, item)?;
    Ok((to as u32, Happening { kind, path, value }))
}

/// Reads one item of a trace of a version, 1 or 2, for slots of these names (docs/TRACES.md, "The trace").
/// `Shape` comes
/// exactly where the value is no item of this version.
pub fn read_item(
    alloc: Global,
    version: u64,
    item: &Value,
    names: &[Text],
) -> Result<TraceItem, Misfit>
    requires { length names.now < 2 ^ 32 }
    ensures ok { IfOk result (λ t. IsItem version names.now (view item.now) t) }
    ensures misfit { IsErrOf result Misfit.Shape → (t : TraceItem) → ¬ IsItem version names.now (view item.now) t }
{
    if has_key(item, "advance") {
        return Ok(TraceItem::Advance(read_advance(item)?));
    }
    if has_key(item, "swap") {
        if version != 2 {
            return Err(Misfit::Shape);
        }
        let (to, file) = read_swap(alloc, item, names)?;
        return Ok(TraceItem::Swap { to, file });
    }
    let (to, event) = read_event(alloc, item, names)?;
    Ok(TraceItem::Event { to, event })
}
