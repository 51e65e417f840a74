//! Tables that hash by keys which nobody can foresee: interned names, and the keys themselves.
#![tactic(auto)]

mod keys;
mod names;
mod numbers;

pub use keys::{Keys, one_message};
pub use names::Names;
pub use numbers::{NumberHasher, NumberKeys};
