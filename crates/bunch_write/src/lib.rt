//! The methods of Bunches that take nodes out or put them into the places of others, those that ask for calls, and the
//! natives of `dom` that make nodes. `call` hands each native that changes to its function, those of
//! `bunch_attributes` and
//! `bunch_trees` too.
#![tactic(auto)]

mod calling;
mod each;
mod making;
mod moving;

pub use calling::call;
