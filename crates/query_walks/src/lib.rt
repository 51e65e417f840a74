//! Walks over the nodes of a widget: whether a node passes a filter, what stands where a step leads, and
//! document order.
//!
//! `specs/Finds.antt` says what a query sees of a page.
#![tactic(auto)]

pub mod failed;
pub mod hunt;
pub mod marks;
pub mod named;
pub mod nodes;
pub mod once;
pub mod order;
pub mod wanted;
mod word;
