//! The methods of Bunches that change what nodes are and what is kept with them: attributes, styles, handlers, marks,
//! protection and the focus. Each works on the nodes of a Bunch of the widget and gives the Bunch back; its clause
//! says that it carries out the meaning's plan at the image of store, page and loop.
#![tactic(auto)]

mod firing;
mod focusing;
mod functions;
mod judging;
mod keeping;
mod labels;
mod listening;
mod relabelling;
mod restyling;
mod styles;

pub use firing::fire;
pub use focusing::{blur, focus, has_node};
pub use functions::function_of;
pub use judging::{Test, all_pass, is_input, is_text_node};
pub use keeping::Change;
pub use labels::{set_check, set_class, set_enabled, set_style, set_title};
pub use listening::{hush, is_undefined, listen, protect, set_mark};
pub use relabelling::{Label, Relabelling};
pub use restyling::Restyling;
