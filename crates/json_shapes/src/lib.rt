//! JSON values by their shape: what stands under a key, which keys an object has, and the version
//! of a manifest or of a trace.
#![tactic(auto)]

mod fault;
mod keys;
mod look;
mod version;

pub use fault::{Misfit, ShapeFault};
pub use keys::has_only;
pub use look::{has_key, list_at, list_in, number_at, place_of_name, slot_at, text_at};
pub use version::{has_version, judged_version, read_json};
