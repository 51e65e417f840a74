//! What a widget has, read off the store: the state that its meaning speaks of, and each call of the
//! store as the plan that it carries out.
#![tactic(auto)]

mod calling;
mod laws;
mod listing;
mod making;
mod outcome;
mod paying;
mod reading;
mod receivers;
mod writing;

pub use calling::callee;
pub use listing::for_in_names;
pub use making::{make, make_array, make_call_scope, make_fault, make_scope, word};
pub use outcome::{Callee, Fault, Made, Paid, Removed, StopCause, Written};
pub use paying::{pay_slots, pay_text, pay_units};
pub use reading::{
    get, indexed_at, indexed_value, is_found, keys, keys_len, property_at, variable, variable_at,
};
pub use receivers::{
    array_length, bunch_nodes, element, elements, has_objects, has_own, new_indexes,
};
pub use writing::{add_to, assign, push_paid, put, put_at, remove};
