//! What calls give.

use object_store::{CellId, FunParts, NativeId};

/// Why a widget stops for good, beside want of fuel.
#[derive(Clone, Copy, PartialEq, Eq, Drop)]
pub enum StopCause {
    /// A result is outside the numbers.
    Number,
    /// Calls are too deep.
    Depth,
    /// Too many objects.
    Cells,
    /// Too many slots.
    Slots,
    /// Too many units of texts.
    Units,
    /// A text is too long.
    LongText,
    /// Too many nodes.
    Nodes,
}

/// A fault that the language throws.
#[derive(Clone, Copy, PartialEq, Eq, Drop)]
pub enum Fault {
    /// No property of undefined or null.
    E1,
    /// Not a function.
    E2,
    /// Bad receiver.
    E3,
    /// Bad argument.
    E4,
    /// Closed object.
    E5,
    /// No primitive value.
    E6,
    /// Bad length.
    E7,
    /// Bad name.
    E8,
    /// Bad query.
    E9,
    /// Bad place in the page.
    E10,
    /// Too many timers.
    E11,
    /// Chain too long.
    E12,
}

/// What making a cell or a scope gave.
#[derive(Clone, Copy, Drop)]
pub enum Made {
    Cell(CellId),
    Stop(StopCause),
}

/// What a value is when it is called: a function of a widget by its parts, a native, or nothing that
/// can be called.
#[derive(Clone, Copy, Drop)]
pub enum Callee {
    Function(FunParts),
    Native(NativeId),
    Nothing,
}

/// What paying gave.
#[derive(Clone, Copy, Drop)]
pub enum Paid {
    Done,
    Stop(StopCause),
}

/// What a write gave: it was done, or a fault is thrown, or the widget stops.
#[derive(Clone, Copy, Drop)]
pub enum Written {
    Done,
    Throw(Fault),
    Stop(StopCause),
}

/// What `delete` gave: its answer, or a fault is thrown.
#[derive(Clone, Copy, Drop)]
pub enum Removed {
    Done(bool),
    Throw(Fault),
}
