//! A Bunch and its hidden Array.
ghost use Rattle.std.specs.Prelude.{◌≡◌, ◌+◌, ◌<◌, ◌≤◌, [], ◌∷◌, ◌++◌, Some, nat_eq, length, vec_len, map, slice_get, unwrap_or, IfOk, OnOk, OnErr};
ghost use Rattle.std.specs.Map.{lookup};
ghost use Rattle.keyed_names.specs.Interned.{IsTable};
ghost use Rattle.store_cells.specs.Born.{filled_cell};
ghost use Rattle.store_cells.specs.Bunches.{array_pairs, bunch_cell, hidden_array};
ghost use Rattle.store_cells.specs.Host.{AreHost, array_prototype, bunch_prototype};
ghost use Rattle.store_cells.specs.Numbered.{cells_of, heads};
ghost use Rattle.store_cells.specs.Shape.{AreElements, AreRaws, AreWords, Grew, GrewBunch, IsArrayOf, IsBase, IsOrdered, Kept, head_on, hidden_head, links_at, node_places};
ghost use Rattle.store_cells.specs.declared.kind.Form.TheVariants as form;
ghost use Rattle.store_cells.specs.declared.value.Value.TheVariants as value;

use crate::host::{ARRAY_PROTOTYPE, BUNCH_PROTOTYPE};
use crate::table::{self, OwnPlace};
use code_units::{Memory, Owner};
use indexmap::IndexMap;
use keyed_names::NumberKeys;
use property_names::PropertyNames;
use std::alloc::{AllocError, Global};
use store_cells::cell::{Cell, Head, LENGTH, Maker, NODES, count_value};
use store_cells::counts::SLOT_LIMIT;
use store_cells::{CellId, Form, Value};

fn node_place(raws: &IndexMap<u32, u32, NumberKeys>, node: u32) -> CellId
    ensures { result ≡ unwrap_or (lookup (nat_eq node) raws.now.entries) 0 }
{
    table::node_cell(raws, node).unwrap_or(0)
}

// The value at a place of a list, for a second holder.
fn value_at(values: &[Value], at: usize) -> Result<Value, Memory>
    requires { at < length values.now }
    ensures { IfOk result (λ v. slice_get values.now at ≡ Some v) }
{
    let value = &values[at];
    value.share()
}

// An Array of these elements.
fn array_of(
    maker: Maker,
    names: &PropertyNames,
    head: Head,
    values: &[Value],
) -> Result<Cell, Memory>
    requires table { IsTable names.now }
    requires words { AreWords names.now }
    requires few { length values.now ≤ SLOT_LIMIT }
    ensures { IfOk result (λ c. IsArrayOf names.now head (length values.now) values.now c) }
{
    let mut cell = Cell::with_elements(maker, head, values.len())?;
    cell.write(LENGTH, count_value(values.len() as u32), 0)?;
    for at in 0..values.len() {
        let value = value_at(values, at)?;
        table::write_element(names, &mut cell, at as u32, value)?;
    }
    Ok(cell)
}

/// Adds an Array of these elements.
pub fn add_array(
    maker: Maker,
    names: &mut PropertyNames,
    cells: &mut Vec<Cell>,
    head: Head,
    values: &[Value],
) -> Result<CellId, Memory>
    requires base { IsBase names.old cells.old.items }
    requires ordered { IsOrdered (heads cells.old.items) (length cells.old.items) head }
    requires few { length values.now ≤ SLOT_LIMIT }
    requires refs { AreElements (length cells.old.items) values.now }
    ensures ok { IfOk result (λ id. (id ≡ length cells.old.items)
        × Grew names.old cells.old.items names.new cells.new.items (filled_cell head (array_pairs values.now)) head) }
    ensures err { OnErr result (Kept names.old cells.old.items names.new cells.new.items) }
{
    let cell = array_of(maker, names, head, values)?;
    table::push(cells, cell)
}

// References to the cells of some nodes.
fn references(
    alloc: Global,
    raws: &IndexMap<u32, u32, NumberKeys>,
    nodes: &[u32],
) -> Result<Vec<Value>, AllocError>
    ensures { IfOk result (λ refs. refs.items ≡ map value.Ref (node_places raws.now.entries nodes.now)) }
{
    let mut refs = Vec::new(alloc);
    for node in nodes {
        refs.push(Value::Ref(node_place(raws, *node)))?;
    }
    Ok(refs)
}

// The fixed part of a hidden Array.
fn hidden_head(cells: &Vec<Cell>) -> Head
    requires at { array_prototype < vec_len cells.now }
    requires few { links_at (heads cells.now.items) array_prototype < 100 }
    ensures { result ≡ hidden_head (heads cells.now.items) }
{
    Head {
        owner: Owner::Host,
        form: Form::Array,
        up: Some(ARRAY_PROTOTYPE),
        links: table::cell(cells, ARRAY_PROTOTYPE).head().links + 1,
        number: 0,
    }
}

// A Bunch, by the place of its hidden Array.
fn bunch(maker: Maker, head: Head, array: CellId) -> Result<Cell, Memory>
    ensures { IfOk result (λ c. c
        ≡ record { head = head; elements = []; references = 0; entries = (1, value.Ref array) ∷ [] }) }
{
    let mut cell = Cell::new(maker, head);
    cell.write(NODES, Value::Ref(array), 0)?;
    Ok(cell)
}

/// Adds a Bunch and then its hidden Array.
pub fn add_bunch(
    maker: Maker,
    names: &mut PropertyNames,
    cells: &mut Vec<Cell>,
    raws: &IndexMap<u32, u32, NumberKeys>,
    place: OwnPlace,
    nodes: &[u32],
) -> Result<CellId, Memory>
    requires base { IsBase names.old cells.old.items }
    requires host { AreHost (cells_of names.old cells.old.items) }
    requires raws { AreRaws (heads cells.old.items) raws.now.entries }
    requires ordered { IsOrdered (heads cells.old.items) (length cells.old.items)
        (head_on (heads cells.old.items) place.widget form.Bunch bunch_prototype place.number) }
    requires few { length nodes.now ≤ SLOT_LIMIT }
    ensures ok { IfOk result (λ id. (id ≡ length cells.old.items)
        × GrewBunch names.old cells.old.items names.new cells.new.items
        (bunch_cell place.widget (length cells.old.items + 1))
        (hidden_array (node_places raws.now.entries nodes.now))
        (head_on (heads cells.old.items) place.widget form.Bunch bunch_prototype place.number)
        (hidden_head (heads cells.old.items))) }
    ensures err { OnErr result (Kept names.old cells.old.items names.new cells.new.items) }
{
    if cells.len() >= table::MOST - 1 {
        return Err(Memory);
    }
    let id = cells.len() as u32;
    let head = table::head_on(cells, place, Form::Bunch, BUNCH_PROTOTYPE);
    let bunch = bunch(maker, head, id + 1)?;
    let head = hidden_head(cells);
    let refs = references(maker.alloc, raws, nodes)?;
    let array = array_of(maker, names, head, &refs)?;
    push_two(cells, bunch, array)?;
    Ok(id)
}

// Adds two cells, or none.
fn push_two(cells: &mut Vec<Cell>, one: Cell, other: Cell) -> Result<(), Memory>
    ensures ok { OnOk result (cells.new.items ≡ cells.old.items ++ one ∷ other ∷ []) }
    ensures err { OnErr result (cells.new.items ≡ cells.old.items) }
{
    cells.reserve(2)?;
    cells.push_reserved(one);
    cells.push_reserved(other);
    Ok(())
}
