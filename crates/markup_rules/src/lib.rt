//! The markup rules M02 to M12 over the elements of a file (`docs/RULES.md`).
//!
//! `specs/Rows.antt` has the rules as sets of breaches, and `specs/Elements.antt` what they speak of.
#![tactic(auto)]

pub mod items;
pub mod part;
pub mod repeats;
pub mod root;
pub mod rows;
pub mod rule_numbers;
pub mod words;
