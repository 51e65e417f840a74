//! Reads traces, which are JSON texts (docs/TRACES.md, "The trace").
#![tactic(auto)]

mod item;
mod laws;
mod trace;

pub use item::{Happening, TraceItem, read_item};
pub use json_shapes::{Misfit, ShapeFault};
pub use laws::one_trace;
pub use trace::read_trace;
