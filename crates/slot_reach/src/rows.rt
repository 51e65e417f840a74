//! The lines of a widget's cells.
ghost use Rattle.std.specs.Prelude.{◌≡◌, ◌<◌, ◌++◌, ◌∷◌, [], IfOk, IfSome, OnOk, if◌then◌else◌, length, map, option_to_list, slice_get};
ghost use Rattle.std.specs.List.{flat_map};
ghost use Rattle.store_cells.specs.Cells.{is_visible, is_visible_form, kind_of, proto_in};
ghost use Rattle.store_cells.specs.declared.kind.Form.{Form as FormOf};
ghost use Rattle.reach_cert.specs.Certs.{row_of};
ghost use Rattle.slot_reach.specs.Reads.{cell_row, cell_rows, named_refs, open_refs, ref_at, row_kind};

use crate::counts::count_cells;
use crate::references::{push_value, reference};
use code_units::{Memory, Owner, Text};
use object_store::{CellId, CellKind, Store};
use reach_cert::{CellRow, Ref, RowKind};
use std::alloc::Global;

// The kind of a visible cell.
fn row_kind(store: &Store, cell: CellId) -> RowKind
    requires { cell < length store.now.cells }
    ensures { IfSome (slice_get store.now.cells cell) (λ c. result ≡ row_kind c.form) }
{
    match store.kind(cell) {
        CellKind::Array => RowKind::Array,
        CellKind::Function => RowKind::Function,
        CellKind::Bunch => RowKind::Bunch,
        _ => RowKind::Object,
    }
}

// What a name leads to from a cell on, where that is a reference.
fn push_named(
    store: &Store,
    names: &[Option<Text>],
    cell: CellId,
    name: &Text,
    out: &mut Vec<Ref>,
) -> Result<(), Memory>
    requires { cell < length store.now.cells }
    ensures { OnOk result (out.new.items ≡ out.old.items ++ named_refs names.now store.now.cells cell name.now) }
{
    if let Some(value) = store.get(cell, name) {
        push_value(store, names, value, out)?;
    }
    Ok(())
}

// The same of several names.
fn push_all_named(
    store: &Store,
    names: &[Option<Text>],
    cell: CellId,
    keys: &[Text],
    out: &mut Vec<Ref>,
) -> Result<(), Memory>
    requires { cell < length store.now.cells }
    ensures { OnOk result (out.new.items
        ≡ out.old.items ++ flat_map (named_refs names.now store.now.cells cell) keys.now) }
{
    'keys: for name in keys {
        push_named(store, names, cell, name, out)?;
    }
    Ok(())
}

// What a cell refers to under permitted names, in order of insertion. Each pair is found by its name:
// to find one by its place takes a walk where names were deleted.
fn push_pairs(
    alloc: Global,
    store: &Store,
    names: &[Option<Text>],
    cell: CellId,
    out: &mut Vec<Ref>,
) -> Result<(), Memory>
    requires { cell < length store.now.cells }
    ensures { OnOk result (IfSome (slice_get store.now.cells cell) (λ c.
        out.new.items ≡ out.old.items ++ flat_map (open_refs names.now store.now.cells) c.pairs)) }
{
    // These laws say that a name finds its own pair, and that what `keys` leaves out is no reference.
    store.names_differ(cell);
    store.arrays_have_length();
    store.bunches_have_nodes();
    let keys = store.keys(alloc, cell)?;
    push_all_named(store, names, cell, &keys, out)
}

// The prototype of a cell.
fn push_prototype(
    store: &Store,
    names: &[Option<Text>],
    cell: CellId,
    out: &mut Vec<Ref>,
) -> Result<(), Memory>
    requires { cell < length store.now.cells }
    ensures { OnOk result (IfSome (slice_get store.now.cells cell) (λ c.
        out.new.items ≡ out.old.items ++ map (ref_at names.now store.now.cells) (option_to_list (proto_in c)))) }
{
    if let Some(prototype) = store.proto(cell) {
        out.push(reference(store, names, prototype)?)?;
    }
    Ok(())
}

// The line of a cell.
fn read_row(
    alloc: Global,
    store: &Store,
    names: &[Option<Text>],
    cell: CellId,
) -> Result<CellRow, Memory>
    requires { cell < length store.now.cells }
    ensures { IfOk result (λ row. IfSome (slice_get store.now.cells cell) (λ c.
        row_of row ≡ cell_row names.now store.now.cells c)) }
{
    let mut refs = Vec::new(alloc);
    push_prototype(store, names, cell, &mut refs)?;
    push_pairs(alloc, store, names, cell, &mut refs)?;
    Ok(CellRow {
        kind: row_kind(store, cell),
        refs,
    })
}

// Whether a kind is one that a widget can see.
fn is_visible_kind(kind: CellKind) -> bool
    ensures { (f : FormOf) → kind ≡ kind_of f → result ≡ is_visible_form f }
{
    match kind {
        CellKind::Object => true,
        CellKind::Array => true,
        CellKind::Function => true,
        CellKind::Native => false,
        CellKind::Scope => false,
        CellKind::Bunch => true,
        CellKind::RawNode => false,
        CellKind::Global => false,
    }
}

// Whether a cell is one of a widget's visible cells.
fn is_visible(store: &Store, w: u32, cell: CellId) -> bool
    requires { cell < length store.now.cells }
    ensures { IfSome (slice_get store.now.cells cell) (λ c. result ≡ is_visible w c) }
{
    match store.owner(cell) {
        Owner::Host => false,
        Owner::Widget(v) => v == w && is_visible_kind(store.kind(cell)),
    }
}

// The line of a cell is put behind others, where it is one of a widget's visible cells.
fn push_row(
    alloc: Global,
    store: &Store,
    names: &[Option<Text>],
    w: u32,
    cell: CellId,
    rows: &mut Vec<CellRow>,
) -> Result<(), Memory>
    requires { cell < length store.now.cells }
    ensures { OnOk result (IfSome (slice_get store.now.cells cell) (λ c.
        map row_of rows.new.items
        ≡ map row_of rows.old.items ++ (if is_visible w c then cell_row names.now store.now.cells c ∷ [] else []))) }
{
    if is_visible(store, w, cell) {
        rows.push(read_row(alloc, store, names, cell)?)?;
    }
    Ok(())
}

/// The lines of a widget's visible cells, by birth.
pub(crate) fn read_rows(
    alloc: Global,
    store: &Store,
    names: &[Option<Text>],
    w: u32,
) -> Result<Vec<CellRow>, Memory>
    ensures { IfOk result (λ rows. map row_of rows.items ≡ cell_rows names.now store.now.cells w store.now.cells) }
{
    let mut rows = Vec::new(alloc);
    'cells: for cell in 0..count_cells(store)? {
        push_row(alloc, store, names, w, cell, &mut rows)?;
    }
    Ok(rows)
}
