//! Whose a cell, a node or a name is.

/// How many widgets there may be over the life of a page.
pub const WIDGETS: usize = 32;

/// The host, or a widget by its number, which is below `WIDGETS`.
#[derive(Clone, Copy, PartialEq, Eq)]
pub enum Owner {
    Host,
    Widget(u32),
}
