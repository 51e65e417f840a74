//! The form of a widget file: its parts, or the first broken one of the markup rules (`docs/RULES.md`).
//!
//! `specs/Forms.antt` has the parts of a file; the rules M02 to M12 are those of the crate `markup_rules`.
#![tactic(auto)]

mod file;
mod form;
mod host;
mod judge;
mod laws;

pub use file::split;
pub use form::{Form, FormFault, Span};
pub use host::host_markup;
pub use laws::{good_file, one_first};
pub use markup_rules::root::room_after;
