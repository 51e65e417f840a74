//! What operators and natives give.

use code_units::Text;
use js_image::{Fault, StopCause};
use object_store::{CellId, Value};

/// What an operator gives.
#[derive(Drop)]
pub enum OpOut {
    /// A value.
    Is(Value),
    /// The result is outside the numbers.
    Left,
    /// The result is a text of over 65,536 units.
    LongText,
}

/// How two primitives stand to each other.
#[derive(Clone, Copy, PartialEq, Eq, Drop)]
pub enum Compared {
    /// The left is before the right.
    Less,
    /// Neither is before the other.
    Same,
    /// The right is before the left.
    More,
    /// One of them is NaN.
    Unordered,
}

/// What a native gives.
#[derive(Drop)]
pub enum NativeOut {
    /// A value.
    Value(Value),
    /// A fault, which is thrown.
    Throw(Fault),
    /// Calls that are made first.
    Call(Plan),
    /// The widget stops.
    Stop(StopCause),
    /// Fuel is wanting, and nothing was taken.
    OutOfFuel,
}

/// The calls that a native asks for.
#[derive(Drop)]
pub enum Plan {
    /// The text of an object, by its `toString`.
    ToText(CellId),
    /// A function is called with each item; then the result is `last`.
    Each {
        func: CellId,
        items: Vec<Value>,
        last: Value,
    },
    /// The handlers of a type are called at each node in turn; then the result is `last`.
    Fire {
        kind: Text,
        nodes: Vec<u32>,
        last: Value,
    },
    /// A function is called with each item and its index, and what is kept is the result.
    Gather {
        func: CellId,
        items: Vec<Value>,
        keep: Keep,
    },
}

/// What is kept of calls: of `forEach` nothing, of `map` the results, of `filter` the items with a true result.
#[derive(Clone, Copy, PartialEq, Eq, Drop)]
pub enum Keep {
    Nothing,
    Results,
    Passing,
}
