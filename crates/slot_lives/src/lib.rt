//! The lives of the slots of a page: what of a trace goes to each, what they come to, and what is written of them;
//! the same over tidied libraries; and that printed markup is read as the trees of which it was printed.
//! There is no code here: the functions that do nothing carry the laws of the definitions.
#![tactic(auto)]

mod laws;
mod markup_laws;
mod tidied_laws;

pub use laws::{delivered, ends, lives, one_outcome, other_ends, other_slots, two_pages};
pub use markup_laws::{printed_is_read, styles_have_a_form};
pub use tidied_laws::{tidied_lives, tidied_page, tidied_slots};
