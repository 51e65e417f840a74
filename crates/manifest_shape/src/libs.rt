//! Reads the library names of a manifest.
ghost use Rattle.std.specs.Prelude.{◌≡◌, List, IfOk, IsErrOf, String, codes, map, string_bytes};
ghost use Rattle.std.specs.List.{list_any};
ghost use Rattle.std.specs.Str.{bytes_eq};
ghost use Rattle.std.specs.declared.alloc.Global.{Global};
ghost use Rattle.serde_json.specs.Find.{get};
ghost use Rattle.serde_json.specs.View.{view};
ghost use Rattle.manifest_shape.specs.Manifest.{AreLibs, IsLibs};

use json_shapes::{Misfit, list_in};
use serde_json::Value;
use std::alloc::Global;

/// The libraries that a manifest may name.
const MOST_LIBS: usize = 16;

fn is_named(libs: &[String], name: &str) -> bool
    ensures { result ≡ list_any (λ lib. bytes_eq (string_bytes lib) name.now) libs.now }
{
    libs.iter().any(|lib| lib.as_str() == name)
}

fn read_names(alloc: Global, texts: &[Value]) -> Result<Vec<String>, Misfit>
    ensures ok { IfOk result (λ libs. AreLibs (map view texts.now) libs.items) }
    ensures misfit { IsErrOf result Misfit.Shape → (libs : List (String Global)) →
        ¬ AreLibs (map view texts.now) libs }
{
    if texts.len() > MOST_LIBS {
        return Err(Misfit::Shape);
    }
    let mut libs = Vec::new(alloc);
    'texts: for text in texts {
        let Some(name) = text.as_str() else {
            return Err(Misfit::Shape);
        };
        if is_named(&libs, name) {
            return Err(Misfit::Shape);
        }
        libs.push(String::from_str(alloc, name)?)?;
    }
    Ok(libs)
}

/// The names of the library files of a manifest, in order.
pub fn read_libs(alloc: Global, value: &Value) -> Result<Vec<String>, Misfit>
    ensures ok { IfOk result (λ libs. IsLibs (get (codes "libs") (view value.now)) libs.items) }
    ensures misfit { IsErrOf result Misfit.Shape → (libs : List (String Global)) →
        ¬ IsLibs (get (codes "libs") (view value.now)) libs }
{
    let Some(found) = value.get("libs") else {
        return Ok(Vec::new(alloc));
    };
    let Some(texts) = list_in(found) else {
        return Err(Misfit::Shape);
    };
    read_names(alloc, texts)
}
