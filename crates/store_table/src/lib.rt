//! The store's cells with the table of their names: what is written under a name, what is found
//! along a chain, new cells with their first pairs, Bunches, and the host's cells.
#![tactic(auto)]

pub mod bunch;
pub mod host;
pub mod scopes;
pub mod table;
