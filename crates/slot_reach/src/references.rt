//! References, told by the cells to which they lead.
ghost use Rattle.std.specs.Prelude.{◌≡◌, ◌<◌, ◌++◌, IfOk, IfSome, OnOk, length, option_copied, slice_get};
ghost use Rattle.store_cells.specs.Host.{is_permitted_cell};
ghost use Rattle.slot_reach.specs.Reads.{is_global, lined, name_of, ref_at, value_refs};

use code_units::{Memory, Owner, Text};
use object_store::{CellId, CellKind, HOST_CELLS, Store, Value};
use reach_cert::Ref;

// The cells of the permitted table stand from here up to the last of the host's first cells.
const FIRST_PERMITTED: CellId = 2;

fn is_permitted_cell(cell: CellId) -> bool
    ensures { result ≡ is_permitted_cell cell }
{
    FIRST_PERMITTED <= cell && cell < HOST_CELLS
}

// The name with which the certificate has the cells of an owner.
fn name_of(names: &[Option<Text>], owner: Owner) -> Option<&Text>
    ensures { option_copied result ≡ name_of names.now owner }
{
    let Owner::Widget(w) = owner else {
        return None;
    };
    match names.get(w as usize) {
        Some(name) => name.as_ref(),
        None => None,
    }
}

// A cell by name and number.
fn lined(name: Option<&Text>, number: Option<u32>) -> Result<Ref, Memory>
    ensures { IfOk result (λ r. r ≡ lined (option_copied name.entry) number) }
{
    match (name, number) {
        (Some(name), Some(number)) => Ok(Ref::Cell {
            name: name.share()?,
            number,
        }),
        _ => Ok(Ref::Raw),
    }
}

// Whether a cell is the Global cell.
fn is_global(store: &Store, cell: CellId) -> bool
    requires { cell < length store.now.cells }
    ensures { IfSome (slice_get store.now.cells cell) (λ c. result ≡ is_global c.form) }
{
    matches!(store.kind(cell), CellKind::Global)
}

/// A reference to a cell.
pub(crate) fn reference(store: &Store, names: &[Option<Text>], cell: CellId) -> Result<Ref, Memory>
    ensures { IfOk result (λ r. r ≡ ref_at names.now store.now.cells cell) }
{
    if is_permitted_cell(cell) {
        return Ok(Ref::Host);
    }
    if cell as usize >= store.len() {
        return Ok(Ref::Raw);
    }
    if is_global(store, cell) {
        return Ok(Ref::Global);
    }
    lined(name_of(names, store.owner(cell)), store.own_number(cell))
}

/// The reference in a value, if it is one, is put behind others.
pub(crate) fn push_value(
    store: &Store,
    names: &[Option<Text>],
    value: &Value,
    out: &mut Vec<Ref>,
) -> Result<(), Memory>
    ensures { OnOk result (out.new.items ≡ out.old.items ++ value_refs names.now store.now.cells value.now) }
{
    if let Value::Ref(cell) = value {
        out.push(reference(store, names, *cell)?)?;
    }
    Ok(())
}
