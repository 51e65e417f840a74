//! JSON of a widget's values: the text that is written of a value, and the value that is read in a
//! text.
#![tactic(auto)]

mod building;
mod laws;
mod quoting;
mod reading;
mod steps;
mod weighing;
mod writing;

pub use reading::from_json;
pub use writing::to_json;
