//! What a turn does, and what waits for that to end.

use code_units::Text;
use js_flow::{Completion, NativeCall};
use js_image::StopCause;
use js_steps::Task;
use object_store::{CellId, Value};
use page_tree::NodeId;

/// What is told to the nodes of a dispatch: the type of the event, its target, its value, and the call
/// depth of who dispatches it.
#[derive(Drop)]
pub struct Dispatch {
    pub kind: Text,
    pub target: NodeId,
    pub value: Value,
    pub depth: u32,
}

/// A dispatch at a node: its functions that listen, in order, and the event object that they get.
#[derive(Drop)]
pub struct Hearing {
    pub dispatch: Dispatch,
    pub node: NodeId,
    pub event: CellId,
    pub handlers: Vec<CellId>,
}

/// An event that is fired at nodes, one after the other; then a value is given.
#[derive(Drop)]
pub struct Firing {
    pub kind: Text,
    pub nodes: Vec<NodeId>,
    pub last: Value,
    pub depth: u32,
}

/// What waits in a turn for a call to end.
#[derive(Drop)]
pub enum Level {
    /// What the function of a library gives is kept in the object `lib`, under the library's name.
    Keeps(CellId, Text),
    /// The handlers from a number on, and then the node above, where `bubble` was called.
    Hears(Box<Hearing>, usize),
    /// The nodes from a number on.
    Fires(Box<Firing>, usize),
    /// A task that waits for a native.
    Waits(Box<Task>),
}

/// What a turn does.
#[derive(Drop)]
pub enum Doing {
    /// A task takes steps.
    Runs(Box<Task>),
    /// A native is carried out for the task that waits for it.
    Native(Box<Task>, Box<NativeCall>),
    /// The first handler of a dispatch is called.
    Hears(Box<Hearing>),
    /// The turn is over.
    Over(Completion),
    /// The widget stops.
    Stop(StopCause),
}

/// What came of a dispatch at a node that listens.
#[derive(Drop)]
pub enum Heard {
    /// Its first handler is called next.
    Calls(Box<Hearing>),
    /// The event object cannot be paid.
    Stop(StopCause),
}
