//! The value of a JSON text, and its version.
ghost use Rattle.std.specs.Prelude.{◌≡◌, IfOk, IfErr};
ghost use Rattle.serde_json.specs.View.{view};
ghost use Rattle.json_shapes.specs.Json.{version_of, has_version, judged_version, IsJson, IsJsonFault};

use crate::fault::ShapeFault;
use crate::look::number_at;
use serde_json::Value;
use std::alloc::Global;

/// The value of a JSON text. `NotJson` comes exactly where the bytes are none.
pub fn read_json(alloc: Global, bytes: &[u8]) -> Result<Value, ShapeFault>
    ensures ok { IfOk result (λ v. IsJson bytes.now (view v)) }
    ensures err { IfErr result (IsJsonFault bytes.now) }
{
    match Value::from_slice(alloc, bytes) {
        Ok(value) => Ok(value),
        Err(fault) if fault.is_memory() => Err(ShapeFault::Memory),
        Err(_) => Err(ShapeFault::NotJson),
    }
}

fn version_of(value: &Value) -> u64
    ensures { result ≡ version_of (view value.now) }
{
    number_at(value, "version").unwrap_or(0)
}

/// Whether the version is 1 or 2.
pub fn has_version(value: &Value) -> bool
    ensures { result ≡ has_version (view value.now) }
{
    let version = version_of(value);
    version == 1 || version == 2
}

/// The version by which entries are judged: 1 where it is neither.
pub fn judged_version(value: &Value) -> u64
    ensures { result ≡ judged_version (view value.now) }
{
    if version_of(value) == 2 { 2 } else { 1 }
}
