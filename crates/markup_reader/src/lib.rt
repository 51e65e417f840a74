//! Markup: from bytes to plain trees, or the exact place of the refusal (`docs/MARKUP.md`).
//!
//! The crate `markup_steps` takes one character at a time, as the machine of `markup_grammar` does, and raw
//! text at once.
#![tactic(auto)]

mod fault;
mod read;

pub use fault::MarkupFault;
pub use plain_tree::{plain_words, tag_listed};
pub use read::read_markup;
