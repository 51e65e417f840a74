//! What the store does, on its list of cells by number.
ghost use Rattle.std.specs.Prelude.{◌≡◌, ◌+◌, ◌<◌, [], ◌∷◌, ◌++◌, None, Some, false, nat_eq, length, map, vec_len, slice_get, option_copied, option_map, IfOk, IfSome, OnErr, OnOk, MatchOption, true};
ghost use Rattle.std.specs.List.{IsDistinct, fold};
ghost use Rattle.std.specs.Fmt.{decimal};
ghost use Rattle.std.specs.Map.{lookup};
ghost use Rattle.std.specs.Str.{bytes_eq};
ghost use Rattle.indexmap.specs.IndexMap.{insert_entry, spare};
ghost use Rattle.keyed_names.specs.Interned.{Interns, IsTable};
ghost use Rattle.store_cells.specs.Arrays.{end_of, without, written};
ghost use Rattle.store_cells.specs.Born.{filled_cell, with_pair};
ghost use Rattle.store_cells.specs.Cells.{is_array};
ghost use Rattle.store_cells.specs.Lists.{changed};
ghost use Rattle.store_cells.specs.Numbered.{Grown, IsNumberOf, by_plan, found_in, heads, numbered_along, numbered_has_at, numbered_holder, numbered_two, numbered_written, plain, references_in};
ghost use Rattle.store_cells.specs.Shape.{Added, AreRefs, Grew, IsBase, IsWellFormed, IsIndexed, IsOrdered, IsPlanned, IsRefWithin, IsTakeable, IsVariable, Kept, Known, Wrote, head_on, links_at, scope_head};

use code_units::{Memory, Owner, Text, index_of};
use indexmap::IndexMap;
use keyed_names::NumberKeys;
use property_names::PropertyNames;
use store_cells::cell::{Cell, Head, LENGTH, Maker, Write, count_value};
use store_cells::{CellId, Form, Value};

/// Where a write goes: a cell, under a name of which `number` is what the table of names says.
#[derive(Clone, Copy, Drop)]
pub struct Target {
    pub cell: CellId,
    pub number: Option<u32>,
}

/// The place of a new cell: a widget, and how many visible cells it has.
#[derive(Clone, Copy, Drop)]
pub struct OwnPlace {
    pub widget: u32,
    pub number: u32,
}

/// How many names, and how many cells, a store may have.
pub const MOST: usize = 1 << 31;

/// Where a variable was found: the cell, and a place in its table that is looked at first.
#[derive(Clone, Copy, Drop)]
pub struct Spot {
    pub cell: CellId,
    pub near: usize,
}

// The first cell that has the name, from one cell on upwards.
#[tactic(auto, using(crate::proofs::Climb::climb_none, crate::proofs::Climb::climb_more, crate::proofs::Climb::climb_over))]
#[inline(always)]
fn holder_on(cells: &[Cell], from: CellId, n: u32) -> Option<Spot>
    ensures { option_map (λ s. s.cell) result ≡ numbered_holder cells.now from n }
{
    let mut at = Some(from);
    for _k in 0..cells.len() {
        let i = at?;
        let cell = cell_on(cells, i)?;
        if let Some(near) = cell.place_of(n) {
            return Some(Spot { cell: i, near });
        }
        at = cell.head().up;
    }
    None
}

#[inline(always)]
fn cell_on(cells: &[Cell], i: CellId) -> Option<&Cell>
    ensures { MatchOption result (slice_get cells.now i ≡ None) (λ c. slice_get cells.now i ≡ Some c.now) }
{
    cells.get(i as usize)
}

/// The first cell that has the name, from one cell on upwards, and where it has it.
#[inline(always)]
pub fn holder(cells: &Vec<Cell>, from: CellId, n: u32) -> Option<Spot>
    ensures first { option_map (λ s. s.cell) result ≡ numbered_holder cells.now.items from n }
    ensures held { IfSome result (λ s. numbered_has_at cells.now.items s.cell (Some n) ≡ true) }
    ensures within { IfSome result (λ s. s.cell < vec_len cells.now) }
{
    holder_on(cells, from, n)
}

/// The first value under the name, from one cell on upwards.
#[inline(always)]
pub fn found(cells: &Vec<Cell>, from: CellId, n: u32) -> Option<&Value>
    ensures { option_copied result ≡ numbered_along cells.now.items from n }
{
    found_on(cells, from, n)
}

// The first value under the name, from one cell on upwards.
#[tactic(auto, using(crate::proofs::Climb::along_none, crate::proofs::Climb::along_out, crate::proofs::Climb::along_own, crate::proofs::Climb::along_up, crate::proofs::Climb::along_over))]
#[inline(always)]
fn found_on(cells: &[Cell], from: CellId, n: u32) -> Option<&Value>
    ensures { option_copied result ≡ numbered_along cells.now from n }
{
    let mut at = Some(from);
    for _k in 0..cells.len() {
        let cell = cell_on(cells, at?)?;
        let own = cell.own(n);
        if own.is_some() {
            return own;
        }
        at = cell.head().up;
    }
    None
}

/// The value that a cell itself has under the name, where it has few names and this is one of them.
#[inline(always)]
pub fn own_few(cells: &Vec<Cell>, from: CellId, n: u32) -> Option<&Value>
    ensures { IfSome result (λ v. numbered_along cells.now.items from n ≡ Some v.now) }
{
    let cell = cell_on(cells, from)?;
    cell.own_few(n)
}

/// The cell at a place.
pub fn cell(cells: &Vec<Cell>, i: CellId) -> &Cell
    requires { i < vec_len cells.now }
    ensures { slice_get cells.now.items i ≡ Some result.now }
{
    &cells[i as usize]
}

/// The number of a name, of which `number` is what the table says.
#[inline(always)]
pub fn number_or_new(
    names: &mut PropertyNames,
    number: Option<u32>,
    name: &Text,
) -> Result<u32, Memory>
    requires number { IsNumberOf names.old name.now number }
    requires table { IsTable names.old }
    ensures new { IfOk result (λ n. Interns names.old names.new name.now n) }
    ensures err { OnErr result (names.new ≡ names.old) }
    ensures table { IsTable names.new }
{
    match number {
        Some(n) => Ok(n),
        None => {
            if names.len() >= MOST {
                return Err(Memory);
            }
            names.intern(name)
        }
    }
}

fn write_at(cells: &mut Vec<Cell>, i: CellId, n: u32, value: Value, end: u32) -> Result<(), Memory>
    requires { i < vec_len cells.old }
    ensures ok { OnOk result (cells.new.items ≡ changed cells.old.items i (numbered_written n value end)) }
    ensures err { OnErr result (cells.new.items ≡ cells.old.items) }
{
    let cell = &mut cells[i as usize];
    cell.write(n, value, end)
}

fn write_two_at(
    cells: &mut Vec<Cell>,
    i: CellId,
    n: u32,
    value: Value,
    other: Value,
    end: u32,
) -> Result<(), Memory>
    requires { i < vec_len cells.old }
    ensures ok { OnOk result (cells.new.items ≡ changed cells.old.items i (numbered_two n value 0 other end)) }
    ensures err { OnErr result (cells.new.items ≡ cells.old.items) }
{
    let cell = &mut cells[i as usize];
    cell.write_two(n, value, LENGTH, other, end)
}

// Makes places in a cell for so many more names.
fn make_places(
    names: &PropertyNames,
    cells: &mut Vec<Cell>,
    i: CellId,
    additional: usize,
) -> Result<(), Memory>
    requires { i < vec_len cells.old }
    ensures { cells.new.items ≡ cells.old.items }
{
    let cell = &mut cells[i as usize];
    cell.make_places(additional, names.key())
}

/// Writes under a name alone.
pub fn write_own(
    names: &mut PropertyNames,
    cells: &mut Vec<Cell>,
    target: Target,
    name: &Text,
    value: Value,
    end: u32,
) -> Result<(), Memory>
    requires at { target.cell < vec_len cells.old }
    requires number { IsNumberOf names.old name.now target.number }
    requires base { IsBase names.old cells.old.items }
    requires value { IsRefWithin (length cells.old.items) value }
    requires plan { IsPlanned cells.old.items target.cell name.now value (Write.Own end) }
    ensures ok { OnOk result (Wrote names.old cells.old.items names.new cells.new.items target.cell
        (written name.now value)) }
    ensures err { OnErr result (Kept names.old cells.old.items names.new cells.new.items) }
{
    let n = number_or_new(names, target.number, name)?;
    make_places(names, cells, target.cell, 1)?;
    write_at(cells, target.cell, n, value, end)
}

// Writes an element at or past the length of an Array, and the length.
fn write_longer(
    names: &mut PropertyNames,
    cells: &mut Vec<Cell>,
    target: Target,
    name: &Text,
    value: Value,
    len: u32,
) -> Result<(), Memory>
    requires at { target.cell < vec_len cells.old }
    requires number { IsNumberOf names.old name.now target.number }
    requires base { IsBase names.old cells.old.items }
    requires value { IsRefWithin (length cells.old.items) value }
    requires plan { IsPlanned cells.old.items target.cell name.now value (Write.Longer len) }
    ensures ok { OnOk result (Wrote names.old cells.old.items names.new cells.new.items target.cell
        (by_plan (Write.Longer len) name.now value)) }
    ensures err { OnErr result (Kept names.old cells.old.items names.new cells.new.items) }
{
    let n = number_or_new(names, target.number, name)?;
    make_places(names, cells, target.cell, 2)?;
    write_two_at(cells, target.cell, n, value, count_value(len), len)
}

// Writes under the `length` of an Array.
fn resize(
    names: &PropertyNames,
    cells: &mut Vec<Cell>,
    i: CellId,
    name: &Text,
    value: Value,
    len: u32,
)
    requires at { i < vec_len cells.old }
    requires base { IsBase names.now cells.old.items }
    requires plan { IsPlanned cells.old.items i name.now value (Write.Length len) }
    ensures { Wrote names.now cells.old.items names.now cells.new.items i (by_plan (Write.Length len) name.now value) }
{
    let cell = &mut cells[i as usize];
    cell.write_held(LENGTH, value);
    cell.cut(len);
}

/// Writes under a name as the plan says.
pub fn write(
    names: &mut PropertyNames,
    cells: &mut Vec<Cell>,
    target: Target,
    name: &Text,
    value: Value,
    plan: Write,
) -> Result<(), Memory>
    requires at { target.cell < vec_len cells.old }
    requires number { IsNumberOf names.old name.now target.number }
    requires base { IsBase names.old cells.old.items }
    requires value { IsRefWithin (length cells.old.items) value }
    requires plan { IsPlanned cells.old.items target.cell name.now value plan }
    ensures ok { OnOk result (Wrote names.old cells.old.items names.new cells.new.items target.cell
        (by_plan plan name.now value)) }
    ensures err { OnErr result (Kept names.old cells.old.items names.new cells.new.items) }
{
    match plan {
        Write::Own { end } => write_own(names, cells, target, name, value, end),
        Write::Longer { len } => write_longer(names, cells, target, name, value, len),
        Write::Length { len } => {
            resize(names, cells, target.cell, name, value, len);
            Ok(())
        }
    }
}

// Writes under the name of an index alone, whose number is `n`.
fn own_index(
    names: &PropertyNames,
    cells: &mut Vec<Cell>,
    i: CellId,
    n: u32,
    at: u32,
    value: Value,
    end: u32,
) -> Result<(), Memory>
    requires at { i < vec_len cells.old }
    requires number { (slice_get names.now n ≡ Some (decimal at)) × (n < length names.now) }
    requires base { IsBase names.now cells.old.items }
    requires value { IsRefWithin (length cells.old.items) value }
    requires plan { IsPlanned cells.old.items i (decimal at) value (Write.Own end) }
    ensures ok { OnOk result (Wrote names.now cells.old.items names.now cells.new.items i
        (written (decimal at) value)) }
    ensures err { OnErr result (Kept names.now cells.old.items names.now cells.new.items) }
{
    // The contract alone speaks of the index.
    let _at = at;
    make_places(names, cells, i, 1)?;
    write_at(cells, i, n, value, end)
}

// Writes an element at or past the length of an Array under the number of its name, and the length.
fn longer_index(
    names: &PropertyNames,
    cells: &mut Vec<Cell>,
    i: CellId,
    n: u32,
    at: u32,
    value: Value,
    len: u32,
) -> Result<(), Memory>
    requires at { i < vec_len cells.old }
    requires number { (slice_get names.now n ≡ Some (decimal at)) × (n < length names.now) }
    requires base { IsBase names.now cells.old.items }
    requires value { IsRefWithin (length cells.old.items) value }
    requires plan { IsPlanned cells.old.items i (decimal at) value (Write.Longer len) }
    ensures ok { OnOk result (Wrote names.now cells.old.items names.now cells.new.items i
        (by_plan (Write.Longer len) (decimal at) value)) }
    ensures err { OnErr result (Kept names.now cells.old.items names.now cells.new.items) }
{
    let _at = at;
    make_places(names, cells, i, 2)?;
    write_two_at(cells, i, n, value, count_value(len), len)
}

/// Writes under the name of an index, whose number is `n`, as the plan says. No plan of an index is of a `length`.
#[tactic(auto, using(crate::proofs::Gifts::kept_as_is))]
pub fn write_index(
    names: &PropertyNames,
    cells: &mut Vec<Cell>,
    i: CellId,
    n: u32,
    at: u32,
    value: Value,
    plan: Write,
) -> Result<(), Memory>
    requires at { i < vec_len cells.old }
    requires number { (slice_get names.now n ≡ Some (decimal at)) × (n < length names.now) }
    requires base { IsBase names.now cells.old.items }
    requires value { IsRefWithin (length cells.old.items) value }
    requires plan { IsPlanned cells.old.items i (decimal at) value plan }
    ensures ok { OnOk result (Wrote names.now cells.old.items names.now cells.new.items i
        (by_plan plan (decimal at) value)) }
    ensures err { OnErr result (Kept names.now cells.old.items names.now cells.new.items) }
{
    match plan {
        Write::Own { end } => own_index(names, cells, i, n, at, value, end),
        Write::Longer { len } => longer_index(names, cells, i, n, at, value, len),
        Write::Length { .. } => Err(Memory),
    }
}

/// Takes a name out of a cell.
pub fn take(names: &PropertyNames, cells: &mut Vec<Cell>, i: CellId, name: &Text, n: u32)
    requires at { i < vec_len cells.old }
    requires base { IsBase names.now cells.old.items }
    requires number { slice_get names.now n ≡ Some name.now }
    requires kept { IsTakeable cells.old.items i name.now }
    ensures { Wrote names.now cells.old.items names.now cells.new.items i (without name.now) }
{
    let cell = &mut cells[i as usize];
    cell.take(n, end_of(name));
}

// One past the index that a name is, 0 where it is none.
fn end_of(name: &Text) -> u32
    ensures { result ≡ end_of name.now }
{
    match index_of(name) {
        None => 0,
        Some(i) => i + 1,
    }
}

/// Writes a variable where it was found.
#[inline(always)]
pub fn set_variable(
    names: &PropertyNames,
    cells: &mut Vec<Cell>,
    spot: Spot,
    name: &Text,
    n: u32,
    value: Value,
)
    requires at { spot.cell < vec_len cells.old }
    requires base { IsBase names.now cells.old.items }
    requires number { (slice_get names.now n ≡ Some name.now) × (n < length names.now) }
    requires variable { IsVariable cells.old.items n spot.cell }
    requires value { IsRefWithin (length cells.old.items) value }
    ensures { Wrote names.now cells.old.items names.now cells.new.items spot.cell (written name.now value) }
{
    let cell = &mut cells[spot.cell as usize];
    cell.write_near(n, spot.near, value);
}

/// Puts a cell last.
pub fn push(cells: &mut Vec<Cell>, cell: Cell) -> Result<CellId, Memory>
    ensures ok { IfOk result (λ id. (id ≡ length cells.old.items) × (cells.new.items ≡ cells.old.items ++ cell ∷ [])) }
    ensures err { OnErr result (cells.new.items ≡ cells.old.items) }
{
    if cells.len() >= MOST {
        return Err(Memory);
    }
    let id = cells.len() as u32;
    cells.reserve(1)?;
    cells.push_reserved(cell);
    Ok(id)
}

/// Adds a cell.
pub fn add(names: &PropertyNames, cells: &mut Vec<Cell>, cell: Cell) -> Result<CellId, Memory>
    requires base { IsBase names.now cells.old.items }
    requires fine { IsWellFormed names.now (length cells.old.items + 1) cell }
    requires ordered { IsOrdered (heads cells.old.items) (length cells.old.items) cell.head }
    ensures ok { IfOk result (λ id. Added names.now cells.old.items names.now cells.new.items cell id) }
    ensures err { OnErr result (cells.new.items ≡ cells.old.items) }
{
    push(cells, cell)
}

/// The fixed part of a new cell of a widget on a prototype.
pub fn head_on(cells: &Vec<Cell>, place: OwnPlace, form: Form, up: CellId) -> Head
    requires at { up < vec_len cells.now }
    requires few { links_at (heads cells.now.items) up < 100 }
    ensures { result ≡ head_on (heads cells.now.items) place.widget form up place.number }
{
    Head {
        owner: Owner::Widget(place.widget),
        form,
        up: Some(up),
        links: cell(cells, up).head().links + 1,
        number: place.number,
    }
}

/// The cell of a node.
pub fn node_cell(raws: &IndexMap<u32, u32, NumberKeys>, node: u32) -> Option<CellId>
    ensures { result ≡ lookup (nat_eq node) raws.now.entries }
{
    raws.get(&node).copied()
}

/// Notes the cell of a node that had none. There is room for one more.
pub fn index_node(raws: &mut IndexMap<u32, u32, NumberKeys>, node: u32, id: CellId)
    requires { 0 < spare raws.old }
    ensures { raws.new.entries ≡ insert_entry nat_eq raws.old.entries node id }
{
    let Ok(_) = raws.insert(node, id) else {
        unreachable!()
    };
}

/// Writes under a name of a new cell that has a place for it. `end` is past it where it is an element.
pub fn write_new(
    names: &mut PropertyNames,
    cell: &mut Cell,
    name: &Text,
    value: Value,
    end: u32,
) -> Result<(), Memory>
    requires table { IsTable names.old }
    requires known { Known (length names.old) cell.old.entries }
    ensures grown { Grown names.old names.new }
    ensures table { IsTable names.new }
    ensures known { OnOk result (Known (length names.new) cell.new.entries) }
    ensures head { OnOk result (cell.new.head ≡ cell.old.head) }
    ensures indexed { OnOk result (end ≡ end_of name.now
        → IsIndexed names.old (found_in cell.old.elements) cell.old.entries
        → IsIndexed names.new (found_in cell.new.elements) cell.new.entries) }
    ensures counted { OnOk result (end ≡ end_of name.now
        → cell.old.references ≡ references_in names.old cell.old.entries
        → cell.new.references ≡ references_in names.new cell.new.entries) }
    ensures done { OnOk result (plain names.new cell.new ≡ written name.now value (plain names.old cell.old)) }
{
    let number = names.number(name);
    let n = number_or_new(names, number, name)?;
    cell.write(n, value, end)
}

/// Writes an element of a new Array that has a place for it, under the number of its index.
#[inline(always)]
pub fn write_element(
    names: &PropertyNames,
    cell: &mut Cell,
    at: u32,
    value: Value,
) -> Result<(), Memory>
    requires index { at < 1073741824 }
    requires table { IsTable names.now }
    requires known { Known (length names.now) cell.old.entries }
    ensures known { OnOk result (Known (length names.now) cell.new.entries) }
    ensures head { OnOk result (cell.new.head ≡ cell.old.head) }
    ensures indexed { OnOk result (IsIndexed names.now (found_in cell.old.elements) cell.old.entries
        → IsIndexed names.now (found_in cell.new.elements) cell.new.entries) }
    ensures counted { OnOk result (cell.old.references ≡ references_in names.now cell.old.entries
        → cell.new.references ≡ references_in names.now cell.new.entries) }
    ensures done { OnOk result (plain names.now cell.new ≡ written (decimal at) value (plain names.now cell.old)) }
{
    let n = names.of_index(at);
    cell.write(n, value, at + 1)
}

// A new cell with its first pairs.
fn filled(
    maker: Maker,
    names: &mut PropertyNames,
    head: Head,
    pairs: &[(Text, Value)],
) -> Result<Cell, Memory>
    requires table { IsTable names.old }
    ensures grown { Grown names.old names.new }
    ensures table { IsTable names.new }
    ensures known { IfOk result (λ c. Known (length names.new) c.entries) }
    ensures head { IfOk result (λ c. c.head ≡ head) }
    ensures done { IfOk result (λ c. plain names.new c ≡ fold with_pair (filled_cell head []) pairs.now) }
{
    let mut cell = Cell::with_room(maker, head, pairs.len())?;
    for (name, value) in pairs {
        let value = value.share()?;
        write_new(names, &mut cell, name, value, 0)?;
    }
    Ok(cell)
}

/// Adds a cell that is no Array, with its first pairs, whose names differ.
pub fn add_filled(
    maker: Maker,
    names: &mut PropertyNames,
    cells: &mut Vec<Cell>,
    head: Head,
    pairs: &[(Text, Value)],
) -> Result<CellId, Memory>
    requires base { IsBase names.old cells.old.items }
    requires ordered { IsOrdered (heads cells.old.items) (length cells.old.items) head }
    requires other { is_array head.form ≡ false }
    requires refs { AreRefs (length cells.old.items) pairs.now }
    requires distinct { IsDistinct bytes_eq (map (λ p. p.0) pairs.now) }
    ensures ok { IfOk result (λ id. (id ≡ length cells.old.items)
        × Grew names.old cells.old.items names.new cells.new.items (filled_cell head pairs.now) head) }
    ensures err { OnErr result (Kept names.old cells.old.items names.new cells.new.items) }
{
    let cell = filled(maker, names, head, pairs)?;
    push(cells, cell)
}

/// The fixed part of a widget's new scope.
#[inline(always)]
pub fn scope_head(w: u32, outer: Option<CellId>) -> Head
    ensures { result ≡ scope_head w outer }
{
    Head {
        owner: Owner::Widget(w),
        form: Form::Scope,
        up: outer,
        links: 0,
        number: 0,
    }
}
