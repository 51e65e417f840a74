//! The methods of Bunches that read, and `dom.q`.
//!
//! Each is the meaning's method at the widget's own state, read off the store, the page and the loop
//! together. A method has the nodes of its receiver; `call` reads them. What a query finds on the page as the
//! widget has it, in its own numbers, is what the meaning finds (`find`, and for one filter `test`).
#![tactic(auto)]

mod attributes;
mod calling;
mod finding;
mod first;
mod queries;
mod shown;
mod styles;
mod texts;

pub use calling::call;
pub use queries::{find, test};
