//! The one page: an arena of nodes of many owners, seen as plain trees with numbered nodes.
#![tactic(auto)]

mod fault;
mod page;

pub use fault::PageFault;
pub use page::{NodeId, Page};
pub use page_nodes::{Content, is_number, same_owner};
