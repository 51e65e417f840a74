//! Reads the shape of a manifest: all but the markup of its page (docs/TRACES.md, "The manifest").
#![tactic(auto)]

mod channels;
mod libs;
mod manifest;
mod page;
mod slot;

pub use json_shapes::ShapeFault;
pub use manifest::{ManifestShape, shape_of};
pub use slot::{PageEntry, SlotEntry};
