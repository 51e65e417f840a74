//! The methods of Bunches that make nodes or many Bunches: `value`, `append`, `explode`, and `dom.append`.
//! Each judges all
//! nodes before any change, then takes its charge, then weighs its whole cost; what is done after that is settled with
//! what was weighed. Its clause says that it carries out the meaning's plan at the image of store, page and loop.
#![tactic(auto)]

mod appending;
mod copying;
mod exploding;
mod measuring;
mod rooted;
mod target;
mod valuing;
mod writing;

pub use appending::append;
pub use exploding::explode;
pub use rooted::{dom_append, none_root};
pub use valuing::set_value;
pub use writing::text_tree;
