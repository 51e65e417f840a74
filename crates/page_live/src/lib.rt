//! A page while it lives: it takes its items one after the other, a line of input each, and tells after each what
//! changed.
#![tactic(auto)]

mod entries;
mod hosting;
mod laws;
mod page;
mod session;

pub use hosting::{give_item, give_swap, load_page};
pub use laws::live_pages;
pub use page::LivePage;
pub use page_play::{HostItem, some_refused};
pub use session::Session;
