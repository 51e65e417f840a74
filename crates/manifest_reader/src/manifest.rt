//! Reads a manifest.
ghost use Rattle.std.specs.Prelude.{IfOk, IfErr, map};
ghost use Rattle.serde_json.specs.View.{view};
ghost use Rattle.manifest_shape.specs.Manifest as shaped;
ghost use Rattle.manifest_reader.specs.Html.{entry_text, IsHtmlFault};
ghost use Rattle.manifest_reader.specs.Manifest.{IsOfShape, IsManifest, IsBadManifest, IsValueFault, IsManifestFault, ReadsManifest};

use crate::entry::Manifest;
use crate::front::good_front;
use crate::page::read_entries;
use code_units::Memory;
use json_shapes::{ShapeFault, list_at, read_json};
use manifest_shape::{ManifestShape, shape_of};
use serde_json::Value;
use std::alloc::Global;

// The item of a manifest that is refused for its shape at an item: markup may break a rule before it.
fn bad_item(alloc: Global, value: &Value, item: u32) -> Result<u32, Memory>
    requires { shaped.IsBadManifest (view value.now) item }
    ensures { IfOk result (IsBadManifest (view value.now)) }
{
    let Some(page) = list_at(value, "page") else {
        return Ok(item);
    };
    let good = good_front(alloc, &page[..item as usize])?;
    Ok(good as u32)
}

// A manifest by its shape.
fn fill(alloc: Global, shape: ManifestShape) -> Result<Manifest, ShapeFault>
    ensures ok { IfOk result (IsOfShape shape) }
    ensures err { IfErr result (IsHtmlFault (map entry_text shape.entries.items)) }
{
    let entries = read_entries(alloc, &shape.entries, shape.fuel)?;
    Ok(Manifest {
        entries,
        libs: shape.libs,
        channels: shape.channels,
    })
}

fn read_value(alloc: Global, value: &Value) -> Result<Manifest, ShapeFault>
    ensures ok { IfOk result (IsManifest (view value.now)) }
    ensures err { IfErr result (IsValueFault (view value.now)) }
{
    match shape_of(alloc, value) {
        Ok(shape) => fill(alloc, shape),
        Err(ShapeFault::BadShape { item }) => Err(ShapeFault::BadShape {
            item: bad_item(alloc, value, item)?,
        }),
        Err(fault) => Err(fault),
    }
}

/// Reads a manifest: the entries of its page with their markup as trees, the names of its
/// libraries, and its channels by the numbers of slots. `NotJson` comes exactly where the bytes are
/// no JSON, and `BadShape` where they are otherwise no manifest; `item` is the number of entries of
/// `page` before the first that breaks a rule, alone or with those before it. `TooMany` never comes
/// (docs/TRACES.md, "The manifest").
pub fn read_manifest(alloc: Global, bytes: &[u8]) -> Result<Manifest, ShapeFault>
    ensures ok { IfOk result (ReadsManifest bytes.now) }
    ensures err { IfErr result (IsManifestFault bytes.now) }
{
    let value = read_json(alloc, bytes)?;
    read_value(alloc, &value)
}
