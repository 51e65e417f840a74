//! Laws of what a widget's own state holds: nothing that it names is missing, no bound of a walk
//! along prototypes, or up from a node, is met, no array is too long, texts are of 16-bit units, and
//! numbers are within the numbers.
//! There is no code here: the functions that do nothing carry the laws of the definitions.
#![tactic(auto)]

mod laws;

pub use laws::{
    chains_end, json_of_states, lengths_hold, numbers_stand, numeric_forms, values_are_ordinary,
    ways_end,
};
