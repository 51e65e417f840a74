//! Plain trees: what markup reads as, what a page shows, and what is printed.
//!
//! The types are plain data. `specs/Trees.antt` has the same trees as a list of nodes with marks: places,
//! numbers, or none.
//! `specs/Print.antt` has their printed text, and `specs/Normal.antt` the trees that printing and reading leave alone.
//! `specs/Tags.antt` and `specs/Words.antt` have the listed tags, plain words and the types of events.
#![tactic(auto)]

mod plain;
mod tags;
mod void;
mod words;

pub use plain::{Attr, Plain};
pub use tags::tag_listed;
pub use void::is_void;
pub use words::{is_event_type, plain_words};
