//! Reads manifests whole: their shape (`manifest_shape`), the markup of their pages, and the fuel of
//! their slots (`docs/TRACES.md`, "The manifest").
#![tactic(auto)]

mod count;
mod entry;
mod front;
mod html;
mod laws;
mod manifest;
mod page;

pub use entry::{Entry, Manifest};
pub use json_shapes::ShapeFault;
pub use laws::{one_manifest, versions_agree};
pub use manifest::read_manifest;
