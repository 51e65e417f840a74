//! The names of the scope of a call, found once for each function of a tree.
#![tactic(auto)]

mod code;
mod codes;
mod gathering;
mod hoisting;
mod laws;
mod names;

pub use code::Code;
pub use codes::{code_at, tree_at};
pub use laws::scopes_of_calls;
pub use names::{FunNames, fun_names};
