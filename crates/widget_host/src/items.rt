//! What a host is given.

use event_loop::Event;

/// An event to the slot with a number, or an advance by so many milliseconds to all.
#[derive(Drop)]
pub enum HostItem {
    Event { to: u32, event: Event },
    Advance(u32),
}
