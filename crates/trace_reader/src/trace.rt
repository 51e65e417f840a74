//! Reads a trace.
ghost use Rattle.std.specs.Prelude.{◌≡◌, ◌≤◌, ◌<◌, ◌+◌, ◌^◌, IfOk, IfErr, length, map, count_by, if◌then◌else◌};
ghost use Rattle.serde_json.specs.View.{view};
ghost use Rattle.json_shapes.specs.Each.{Each};
ghost use Rattle.trace_reader.specs.Items.{IsItem, is_swap, most_swaps};
ghost use Rattle.json_shapes.specs.Json.{has_version, judged_version};
ghost use Rattle.trace_reader.specs.Trace.{most_items, IsTrace, IsItemsFault, IsValueFault, IsTraceFault, ReadsTrace};

use crate::item::{TraceItem, read_item};
use code_units::Text;
use json_lengths::length_over;
use json_shapes::{
    Misfit, ShapeFault, has_key, has_only, has_version, judged_version, list_at, read_json,
};
use serde_json::Value;
use std::alloc::Global;

/// The items that a trace may have.
const MOST_ITEMS: usize = 4_096;

/// The swaps that a trace may have.
const MOST_SWAPS: u32 = 4;

// The swaps with one entry more.
fn swaps_with(swaps: u32, entry: &Value) -> u32
    requires { swaps ≤ most_swaps }
    ensures { result ≡ swaps + (if is_swap (view entry.now) then 1 else 0) }
{
    if has_key(entry, "swap") {
        swaps + 1
    } else {
        swaps
    }
}

fn read_items(
    alloc: Global,
    version: u64,
    entries: &[Value],
    names: &[Text],
) -> Result<Vec<TraceItem>, ShapeFault>
    requires slots { length names.now < 2 ^ 32 }
    requires few { length entries.now ≤ most_items }
    ensures each { IfOk result (λ items. Each (IsItem version names.now) (map view entries.now) items.items) }
    ensures swaps { IfOk result (λ items. count_by is_swap (map view entries.now) ≤ most_swaps) }
    ensures err { IfErr result (IsItemsFault version names.now (map view entries.now)) }
{
    let mut items = Vec::new(alloc);
    let mut swaps = 0;
    'entries: for entry in entries {
        let item = items.len() as u32;
        swaps = swaps_with(swaps, entry);
        if swaps > MOST_SWAPS {
            return Err(ShapeFault::BadShape { item });
        }
        match read_item(alloc, version, entry, names) {
            Ok(read) => items.push(read)?,
            Err(Misfit::Shape) => return Err(ShapeFault::BadShape { item }),
            Err(Misfit::Memory) => return Err(ShapeFault::Memory),
        }
    }
    Ok(items)
}

fn read_value(alloc: Global, value: &Value, names: &[Text]) -> Result<Vec<TraceItem>, ShapeFault>
    requires { length names.now < 2 ^ 32 }
    ensures ok { IfOk result (λ items. IsTrace names.now (view value.now) items.items) }
    ensures err { IfErr result (IsValueFault names.now (view value.now)) }
{
    let Some(entries) = list_at(value, "items") else {
        return Err(ShapeFault::BadShape { item: 0 });
    };
    if entries.len() > MOST_ITEMS {
        return Err(ShapeFault::TooMany {
            items: entries.len(),
        });
    }
    let items = read_items(alloc, judged_version(value), entries, names)?;
    if !has_only(value, &["version", "items"]) || !has_version(value) {
        return Err(ShapeFault::BadShape {
            item: entries.len() as u32,
        });
    }
    Ok(items)
}

/// Reads a trace for slots of these names: its events, advances and swaps in order. `NotJson` comes
/// exactly where the bytes are no JSON, `TooMany` where they are an object with a list of over 4,096
/// items, and `BadShape` where they are otherwise no trace; `item` is the number of items before
/// the first that breaks a rule, alone or with those before it (docs/TRACES.md, "Refusals").
pub fn read_trace(alloc: Global, bytes: &[u8], names: &[Text]) -> Result<Vec<TraceItem>, ShapeFault>
    requires { length names.now < 2 ^ 32 }
    ensures ok { IfOk result (λ items. ReadsTrace bytes.now names.now items.items) }
    ensures err { IfErr result (IsTraceFault bytes.now names.now) }
{
    // A list that is too long is told without its value, which would take a hundred times its bytes.
    if let Some(items) = length_over(alloc, bytes, "items", MOST_ITEMS)? {
        return Err(ShapeFault::TooMany { items });
    }
    let value = read_json(alloc, bytes)?;
    read_value(alloc, &value, names)
}
