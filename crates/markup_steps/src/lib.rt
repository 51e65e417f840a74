//! A reader of markup that takes one character at a time, as the machine of `markup_grammar` does: each of
//! its functions has one step of that machine as its contract. Raw text it takes at once (`take_raw`).
#![tactic(auto)]

pub mod content;
pub mod head;
pub mod mode;
pub mod reader;
pub mod reference;
pub mod script;
pub mod sign;
pub mod stop;
pub mod units;
