//! The scope of a call, which is added with its names and their first values.
ghost use Rattle.std.specs.Prelude.{◌≡◌, ◌++◌, [], ◌∷◌, Some, false, length, map, nat_eq, IfOk, OnErr};
ghost use Rattle.std.specs.List.{IsDistinct};
ghost use Rattle.std.specs.Map.{keys_of};
ghost use Rattle.std.specs.Str.{bytes_eq};
ghost use Rattle.keyed_names.specs.Interned.{Interns, IsTable};
ghost use Rattle.store_cells.specs.Born.{filled_cell};
ghost use Rattle.store_cells.specs.Cells.{is_array};
ghost use Rattle.store_cells.specs.First.{first_value, first_values, own_value, placed_values};
ghost use Rattle.store_cells.specs.Numbered.{Grown, heads, named};
ghost use Rattle.store_cells.specs.Shape.{AreRefs, Grew, IsBase, IsOrdered, Kept, Known};
ghost use Rattle.store_cells.specs.declared.pairs.TheConstants.{FIRST_HOLE};

use crate::table::{MOST, add_filled, number_or_new};
use code_units::{Memory, Text};
use js_tree::ScopeName;
use property_names::PropertyNames;
use std::alloc::Global;
use store_cells::cell::{Cell, Head, Maker};
use store_cells::{CellId, FirstNames, Value};

/// The most pairs of a cell that stand in a plain list; more want a table that hashes.
const MOST_FEW: usize = 32;

// The value at a place, undefined where there is none.
#[inline(always)]
fn first_value(args: &[Value], place: Option<usize>) -> Result<Value, Memory>
    ensures { IfOk result (λ v. v ≡ first_value place args.now) }
{
    match place {
        None => Ok(Value::Undefined),
        Some(k) => shared_at(args, k),
    }
}

#[inline(always)]
fn shared_at(args: &[Value], k: usize) -> Result<Value, Memory>
    ensures { IfOk result (λ v. v ≡ first_value (Some k) args.now) }
{
    match args.get(k) {
        None => Ok(Value::Undefined),
        Some(value) => value.share(),
    }
}

// Names with the arguments at their places, in a list that has room for one more.
fn placed_pairs(
    alloc: Global,
    names: &Vec<ScopeName>,
    args: &[Value],
) -> Result<Vec<(Text, Value)>, Memory>
    ensures { IfOk result (λ ps. ps.items ≡ placed_values names.now.items args.now) }
{
    let mut pairs = Vec::with_capacity(alloc, names.len() + 1)?;
    for name in names {
        pairs.push((name.text.share()?, first_value(args, name.argument)?))?;
    }
    Ok(pairs)
}

// A function under its own name behind them.
fn with_own(
    pairs: Vec<(Text, Value)>,
    own: &Option<Text>,
    func: &Value,
) -> Result<Vec<(Text, Value)>, Memory>
    ensures { IfOk result (λ ps. ps.items ≡ pairs.items ++ own_value own.now func.now) }
{
    let mut pairs = pairs;
    match own {
        None => Ok(pairs),
        Some(name) => {
            pairs.push((name.share()?, func.share()?))?;
            Ok(pairs)
        }
    }
}

// The names of the scope of a call with their first values.
fn first_pairs(alloc: Global, first: &FirstNames) -> Result<Vec<(Text, Value)>, Memory>
    ensures { IfOk result (λ ps. ps.items ≡ first_values first.now) }
{
    let pairs = placed_pairs(alloc, first.names, first.args)?;
    with_own(pairs, first.own, first.func)
}

// Adds a scope of many names, by a list of them with their values.
#[inline(never)]
fn add_many(
    maker: Maker,
    names: &mut PropertyNames,
    cells: &mut Vec<Cell>,
    head: Head,
    first: &FirstNames,
) -> Result<CellId, Memory>
    requires base { IsBase names.old cells.old.items }
    requires ordered { IsOrdered (heads cells.old.items) (length cells.old.items) head }
    requires other { is_array head.form ≡ false }
    requires refs { AreRefs (length cells.old.items) (first_values first.now) }
    requires distinct { IsDistinct bytes_eq (map (λ p. p.0) (first_values first.now)) }
    ensures ok { IfOk result (λ id. (id ≡ length cells.old.items)
        × Grew names.old cells.old.items names.new cells.new.items (filled_cell head (first_values first.now)) head) }
    ensures err { OnErr result (Kept names.old cells.old.items names.new cells.new.items) }
{
    let pairs = first_pairs(maker.alloc, first)?;
    add_filled(maker, names, cells, head, &pairs)
}

// The number of a name, a new one where it has none.
#[inline(always)]
fn number_of(names: &mut PropertyNames, name: &Text) -> Result<u32, Memory>
    requires { IsTable names.old }
    ensures new { IfOk result (λ n. Interns names.old names.new name.now n) }
    ensures grown { Grown names.old names.new }
    ensures table { IsTable names.new }
{
    let number = names.number(name);
    number_or_new(names, number, name)
}

// The numbers of names with the arguments at their places, in a list that has this room.
#[inline(always)]
fn placed_list(
    alloc: Global,
    table: &mut PropertyNames,
    names: &Vec<ScopeName>,
    args: &[Value],
    room: usize,
) -> Result<Vec<(u32, Value)>, Memory>
    requires { IsTable table.old }
    ensures grown { Grown table.old table.new }
    ensures table { IsTable table.new }
    ensures known { IfOk result (λ list. Known (length table.new) list.items) }
    ensures done { IfOk result (λ list. named table.new list.items ≡ placed_values names.now.items args.now) }
{
    let mut list = Vec::with_capacity(alloc, room)?;
    for name in names {
        let n = number_of(table, &name.text)?;
        list.reserve(1)?;
        list.push_reserved((n, first_value(args, name.argument)?));
    }
    Ok(list)
}

// The number of a function's own name with the function behind them.
#[inline(always)]
fn list_with_own(
    table: &mut PropertyNames,
    list: Vec<(u32, Value)>,
    own: &Option<Text>,
    func: &Value,
) -> Result<Vec<(u32, Value)>, Memory>
    requires table { IsTable table.old }
    requires known { Known (length table.old) list.items }
    ensures grown { Grown table.old table.new }
    ensures table { IsTable table.new }
    ensures known { IfOk result (λ all. Known (length table.new) all.items) }
    ensures done { IfOk result
        (λ all. named table.new all.items ≡ named table.old list.items ++ own_value own.now func.now) }
{
    let mut list = list;
    match own {
        None => Ok(list),
        Some(name) => {
            let n = number_of(table, name)?;
            list.reserve(1)?;
            list.push_reserved((n, func.share()?));
            Ok(list)
        }
    }
}

// The numbers of the names of the scope of a call with their first values.
#[inline(always)]
fn first_list(
    alloc: Global,
    table: &mut PropertyNames,
    first: &FirstNames,
    room: usize,
) -> Result<Vec<(u32, Value)>, Memory>
    requires { IsTable table.old }
    ensures grown { Grown table.old table.new }
    ensures table { IsTable table.new }
    ensures known { IfOk result (λ list. Known (length table.new) list.items) }
    ensures done { IfOk result (λ list. named table.new list.items ≡ first_values first.now) }
{
    let list = placed_list(alloc, table, first.names, first.args, room)?;
    list_with_own(table, list, first.own, first.func)
}

// Puts a cell of few pairs last.
#[inline(always)]
fn push_few(
    maker: Maker,
    cells: &mut Vec<Cell>,
    head: Head,
    list: Vec<(u32, Value)>,
) -> Result<CellId, Memory>
    requires distinct { IsDistinct nat_eq (keys_of list.items) }
    requires names { Known FIRST_HOLE list.items }
    ensures ok { IfOk result (λ id. (id ≡ length cells.old.items) × (cells.new.items ≡ cells.old.items
        ++ record { head = head; elements = []; references = 0; entries = list.items } ∷ [])) }
    ensures err { OnErr result (cells.new.items ≡ cells.old.items) }
{
    let id = cells.len();
    if id >= MOST {
        return Err(Memory);
    }
    cells.reserve(1)?;
    cells.push_reserved(Cell::of_few(maker, head, list));
    Ok(id as u32)
}

// Adds a scope of few names, whose pairs have this room: none is looked for in the new cell, since they differ.
#[inline(always)]
fn add_few(
    maker: Maker,
    names: &mut PropertyNames,
    cells: &mut Vec<Cell>,
    head: Head,
    first: &FirstNames,
    room: usize,
) -> Result<CellId, Memory>
    requires base { IsBase names.old cells.old.items }
    requires ordered { IsOrdered (heads cells.old.items) (length cells.old.items) head }
    requires other { is_array head.form ≡ false }
    requires refs { AreRefs (length cells.old.items) (first_values first.now) }
    requires distinct { IsDistinct bytes_eq (map (λ p. p.0) (first_values first.now)) }
    ensures ok { IfOk result (λ id. (id ≡ length cells.old.items)
        × Grew names.old cells.old.items names.new cells.new.items (filled_cell head (first_values first.now)) head) }
    ensures err { OnErr result (Kept names.old cells.old.items names.new cells.new.items) }
{
    let list = first_list(maker.alloc, names, first, room)?;
    push_few(maker, cells, head, list)
}

/// Adds the scope of a call with its names, which differ, and their first values. For want of memory, or of a
/// number for a name or for the cell, no cell is added; names that are new may stay.
#[inline(always)]
pub fn add_scope(
    maker: Maker,
    names: &mut PropertyNames,
    cells: &mut Vec<Cell>,
    head: Head,
    first: &FirstNames,
) -> Result<CellId, Memory>
    requires base { IsBase names.old cells.old.items }
    requires ordered { IsOrdered (heads cells.old.items) (length cells.old.items) head }
    requires other { is_array head.form ≡ false }
    requires refs { AreRefs (length cells.old.items) (first_values first.now) }
    requires distinct { IsDistinct bytes_eq (map (λ p. p.0) (first_values first.now)) }
    ensures ok { IfOk result (λ id. (id ≡ length cells.old.items)
        × Grew names.old cells.old.items names.new cells.new.items (filled_cell head (first_values first.now)) head) }
    ensures err { OnErr result (Kept names.old cells.old.items names.new cells.new.items) }
{
    let own = if first.own.is_some() { 1 } else { 0 };
    let room = first.names.len() + own;
    if room > MOST_FEW {
        add_many(maker, names, cells, head, first)
    } else {
        add_few(maker, names, cells, head, first, room)
    }
}
