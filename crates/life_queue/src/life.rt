//! What a host knows of a life beside its cells and nodes.

use code_units::Text;
use event_loop::Event;
use js_tree::FunId;
use native_image::Widget;
use object_store::CellId;
use std::collections::VecDeque;
use turn_dispatch::{Stop, Turn};

/// What is recorded of a life. In a turn `spent` is what was spent when it began.
#[derive(Drop)]
pub struct Records {
    pub uncaught: Vec<Text>,
    pub turns: u32,
    pub spent: u64,
    pub missed: u32,
    pub gone: u32,
    pub stop: Option<Stop>,
}

/// The function that a script hands over, by the number of its tree, and the name under which it does.
#[derive(Drop)]
pub struct Script {
    pub code: u32,
    pub fun: FunId,
    pub name: Text,
}

/// What is queued for a life.
#[derive(Drop)]
pub enum Work {
    /// The load turn of a library.
    Library(Script),
    /// The turn of the `go` function.
    Go(Script),
    Event(Event),
    /// An advance by so many milliseconds.
    Advance(u32),
    /// What is left of an advance: the turns that it may still begin, and its limit.
    Until(u64, u64),
}

/// A life: a file in its slot, from when it is loaded or swapped in.
#[derive(Drop)]
pub struct Life {
    /// The number of its slot, which never changes.
    pub slot: u32,
    /// Whether its file breaks no rule; else it has nothing and is given nothing.
    pub accepted: bool,
    /// The fuel of each of its turns.
    pub grant: u32,
    /// The object `lib`.
    pub lib: CellId,
    /// What its turns change beside its cells and nodes.
    pub widget: Widget,
    pub records: Records,
    pub turn: Option<Turn>,
    pub queue: VecDeque<Work>,
}
