//! The one store of cells: objects, arrays, functions, scopes and Bunches of all owners, and the
//! host's cells.
#![tactic(auto)]

mod store;

pub use permitted_table::{
    AdsafeNative, DomNative, GlobalNative, HostEntry, ListNative, MathNative, NativeId,
    PrototypeNative, ReadNative, TextNative, WriteNative,
};
pub use store::{NewCell, Store, own_numbers};
pub use store_cells::counts::{CELL_LIMIT, Counts, NODE_LIMIT, SLOT_LIMIT, StoreFault, UNIT_LIMIT};
pub use store_cells::{CellId, CellKind, FirstNames, Form, FunParts, Number, Value};
pub use store_table::host::HOST_CELLS;
