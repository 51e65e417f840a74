//! Reads a manifest, the markup of its page aside.
ghost use Rattle.std.specs.Prelude.{◌≡◌, ◌<◌, ◌^◌, ℕ, List, Option, IfOk, IfErr, IsErrOf, String, length};
ghost use Rattle.std.specs.declared.alloc.Global.{Global};
ghost use Rattle.serde_json.specs.View.{view};
ghost use Rattle.json_shapes.specs.Keys.{has_only};
ghost use Rattle.manifest_shape.specs.Manifest.{manifest_keys, IsRest, IsManifest, IsManifestFault};

use crate::channels::read_channels;
use crate::libs::read_libs;
use crate::page::read_page;
use crate::slot::{PageEntry, read_fuel};
use code_units::Text;
use json_shapes::{Misfit, ShapeFault, has_only, has_version, judged_version, list_at};
use serde_json::Value;
use std::alloc::Global;

/// A manifest whose markup was not judged yet.
#[derive(Drop)]
pub struct ManifestShape {
    /// The entries of its page.
    pub entries: Vec<PageEntry>,
    /// The fuel of each slot that gives none, if the manifest does.
    pub fuel: Option<u32>,
    /// The names of its library files.
    pub libs: Vec<String>,
    /// The pairs of slots between which posts go, the sender first.
    pub channels: Vec<(u32, u32)>,
}

// What a manifest has beside its page.
#[derive(Drop)]
struct Rest {
    fuel: Option<u32>,
    libs: Vec<String>,
    channels: Vec<(u32, u32)>,
}

fn has_manifest_keys(version: u64, value: &Value) -> bool
    ensures { result ≡ has_only (manifest_keys version) (view value.now) }
{
    if version == 2 {
        has_only(value, &["version", "page", "fuel", "libs", "channels"])
    } else {
        has_only(value, &["version", "page", "fuel", "libs"])
    }
}

fn read_rest(alloc: Global, value: &Value, names: &[Text]) -> Result<Rest, Misfit>
    requires { length names.now < 2 ^ 32 }
    ensures ok { IfOk result (λ rest. IsRest names.now (view value.now) rest.fuel rest.libs.items rest.channels.items) }
    ensures misfit { IsErrOf result Misfit.Shape → (fuel : Option ℕ) → (libs : List (String Global)) →
        (channels : List (ℕ × ℕ)) → ¬ IsRest names.now (view value.now) fuel libs channels }
{
    if !has_manifest_keys(judged_version(value), value) {
        return Err(Misfit::Shape);
    }
    if !has_version(value) {
        return Err(Misfit::Shape);
    }
    let fuel = read_fuel(value)?;
    let libs = read_libs(alloc, value)?;
    let channels = read_channels(alloc, value, names)?;
    Ok(Rest {
        fuel,
        libs,
        channels,
    })
}

/// The shape of a manifest, with the markup of its page as texts that are still to be judged.
/// `BadShape` comes exactly where the value is no manifest even so; `item` is the number of entries
/// of `page` before the first that breaks a rule, alone or with those before it (docs/TRACES.md,
/// "The manifest"). No other refusal comes but for want of memory.
pub fn shape_of(alloc: Global, value: &Value) -> Result<ManifestShape, ShapeFault>
    ensures ok { IfOk result (λ manifest. IsManifest (view value.now) manifest) }
    ensures err { IfErr result (IsManifestFault (view value.now)) }
{
    let Some(entries) = list_at(value, "page") else {
        return Err(ShapeFault::BadShape { item: 0 });
    };
    // No memory holds so many entries.
    if entries.len() > u32::MAX as usize {
        return Err(ShapeFault::Memory);
    }
    let item = entries.len() as u32;
    let page = read_page(alloc, judged_version(value), entries)?;
    match read_rest(alloc, value, &page.names) {
        Ok(rest) => Ok(ManifestShape {
            entries: page.entries,
            fuel: rest.fuel,
            libs: rest.libs,
            channels: rest.channels,
        }),
        Err(Misfit::Shape) => Err(ShapeFault::BadShape { item }),
        Err(Misfit::Memory) => Err(ShapeFault::Memory),
    }
}
