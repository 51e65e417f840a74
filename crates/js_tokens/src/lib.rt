//! The tokens of a script (ECMA-262 3rd edition, section 7), with the departures that docs/ states.
#![tactic(auto)]

mod class;
mod comment;
mod cursor;
mod laws;
mod mark;
mod number;
mod piece;
mod scanner;
mod string;
mod token;
mod value;
mod word;

pub use laws::{in_order, one_bad_place, one_reading, one_value};
pub use scanner::tokens;
pub use token::{Token, TokenFault, TokenKind};
pub use value::token_text;
