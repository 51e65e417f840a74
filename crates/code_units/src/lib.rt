//! Texts of 16-bit units, whole numbers and indices in texts, and places.
#![tactic(auto)]

mod digit;
mod feeding;
mod grown;
mod index;
mod memory;
mod owner;
mod permission;
mod place;
mod runs;
mod text;
mod utf8;
mod whole;
mod word;

pub use digit::hex_digit;
pub use feeding::feed;
pub use grown::{push_ascii, push_char};
pub use index::{MAX_LENGTH, index_of};
pub use memory::Memory;
pub use owner::{Owner, WIDGETS};
pub use permission::{has_edge_underscore, is_banned, permitted};
pub use place::{Place, place_in, place_of};
pub use text::Text;
pub use utf8::{TextFault, from_utf8_bytes, push_utf8, utf8_len};
pub use whole::{WholeRead, read_whole, whole_text};
pub use word::{begins_with, is_word, spells};
