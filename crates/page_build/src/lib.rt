//! The page of widgets that are loaded: each gets its root, under the host's `body`, between the host's own markup, and
//! each node gets its cell. What stands in a slot is exchanged for a tree that stood under nothing.
#![tactic(auto)]

mod growing;
mod hosting;
mod rooting;
mod slots;
mod spares;
mod swapping;

pub use hosting::add_markup;
pub use rooting::{add_root, new_page};
pub use slots::add_slot;
pub use spares::{add_spare_div, add_spare_root};
pub use swapping::swap_stands;
