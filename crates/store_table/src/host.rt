//! The host's cells of a new store.
ghost use Rattle.std.specs.Prelude.{◌≡◌, ◌+◌, ◌<◌, [], ◌∷◌, ◌++◌, Some, true, map, fold, length, vec_len, IfOk, OnOk};
ghost use Rattle.permitted_table.specs.Natives.{number_of, rows as table_rows};
ghost use Rattle.store_cells.specs.Host.{first_native, host_count, place_of};
ghost use Rattle.store_cells.specs.Numbered.{cells_of, heads};
ghost use Rattle.store_cells.specs.Shape.{IsBase, IsRefWithin};
ghost use Rattle.store_table.specs.Bare.{AreFirst, IsGiven, are_natives_within, are_references_within, bare_of, given, home_place, host_numbered, native_cells, native_gift, native_gifts, no_arrays, reference_gifts, references_as_gifts, with_gifts};

use crate::table::{self, Target};
use code_units::{Memory, Owner, Text};
use indexmap::IndexMap;
use keyed_names::{Keys, NumberKeys};
use permitted_table::{COUNT, Home, HostEntry, NativeId, PROTOTYPES, PrototypeNative, ROWS};
use property_names::PropertyNames;
use std::alloc::{AllocError, Global};
use store_cells::cell::{Cell, Head, Maker};
use store_cells::{CellId, Form, Number, Value};

/// The Global cell.
pub const GLOBAL: CellId = 0;

/// The cell of `body`.
pub const BODY: CellId = 1;

const OBJECT_PROTOTYPE: CellId = 2;

/// The prototype of Arrays.
pub const ARRAY_PROTOTYPE: CellId = 3;

/// The prototype of Functions.
pub const FUNCTION_PROTOTYPE: CellId = 4;

/// The prototype of Bunches.
pub const BUNCH_PROTOTYPE: CellId = 5;

const TEXT_PROTOTYPE: CellId = 6;

const NUMBER_PROTOTYPE: CellId = 7;

const BOOLEAN_PROTOTYPE: CellId = 8;

const MATH: CellId = 9;

const ADSAFE: CellId = 10;

const DOM: CellId = 11;

// The natives come next, in order.
const FIRST_NATIVE: CellId = 12;

// The place of `hasOwnProperty`.
const HAS_OWN_PROPERTY: CellId = FIRST_NATIVE + PROTOTYPES + PrototypeNative::HasOwnProperty as u32;

/// How many cells the host has in each store, the natives last.
pub const HOST_CELLS: CellId = FIRST_NATIVE + COUNT;

// References that are no natives of their own home.
const REFERENCES: [(u32, &str, CellId); 5] = [
    (GLOBAL, "Math", MATH),
    (GLOBAL, "ADSAFE", ADSAFE),
    (GLOBAL, "document", BODY),
    (NUMBER_PROTOTYPE, "hasOwnProperty", HAS_OWN_PROPERTY),
    (BOOLEAN_PROTOTYPE, "hasOwnProperty", HAS_OWN_PROPERTY),
];

/// The cell of an entry of the permitted table.
pub fn place_of(entry: HostEntry) -> CellId
    ensures { result ≡ place_of entry }
{
    match entry {
        HostEntry::ObjectPrototype => OBJECT_PROTOTYPE,
        HostEntry::ArrayPrototype => ARRAY_PROTOTYPE,
        HostEntry::FunctionPrototype => FUNCTION_PROTOTYPE,
        HostEntry::BunchPrototype => BUNCH_PROTOTYPE,
        HostEntry::TextPrototype => TEXT_PROTOTYPE,
        HostEntry::NumberPrototype => NUMBER_PROTOTYPE,
        HostEntry::BooleanPrototype => BOOLEAN_PROTOTYPE,
        HostEntry::Math => MATH,
        HostEntry::Adsafe => ADSAFE,
        HostEntry::Dom => DOM,
        HostEntry::Native(native) => native_place(native),
    }
}

#[tactic(auto, using(store_cells::proofs::Hosts::number_within))]
fn native_place(native: NativeId) -> CellId
    ensures { result ≡ first_native + number_of native }
{
    FIRST_NATIVE + native.number()
}

// The cell of a home.
fn home_of(home: Home) -> CellId
    ensures { result ≡ home_place home }
{
    match home {
        Home::Globals => GLOBAL,
        Home::Of(entry) => place_of(entry),
    }
}

// A text of ASCII letters.
fn text_of(alloc: Global, word: &str) -> Result<Text, Memory>
    ensures { IfOk result (λ t. t ≡ word.now) }
{
    let units = units_of(alloc, word)?;
    Text::from_units(alloc, units)
}

fn units_of(alloc: Global, word: &str) -> Result<Vec<u16>, AllocError>
    ensures { IfOk result (λ units. units.items ≡ word.now) }
{
    word.bytes().map(u16::from).collect(alloc)
}

// A cell of the host without properties.
fn bare(maker: Maker, form: Form, up: Option<CellId>, links: u32) -> Cell
    ensures { result ≡ host_numbered up links form }
{
    Cell::new(
        maker,
        Head {
            owner: Owner::Host,
            form,
            up,
            links,
            number: 0,
        },
    )
}

fn push_all(
    maker: Maker,
    cells: &mut Vec<Cell>,
    forms: &[Form],
    up: Option<CellId>,
    links: u32,
) -> Result<(), Memory>
    ensures { OnOk result (cells.new.items ≡ cells.old.items ++ map (host_numbered up links) forms.now) }
{
    for form in forms {
        cells.push(bare(maker, *form, up, links))?;
    }
    Ok(())
}

fn push_natives(
    maker: Maker,
    cells: &mut Vec<Cell>,
    rows: &[(Home, &str, NativeId)],
) -> Result<(), Memory>
    ensures { OnOk result (cells.new.items ≡ cells.old.items ++ native_cells rows.now) }
{
    for (_home, _name, native) in rows {
        cells.push(bare(maker, Form::Native(*native), Some(FUNCTION_PROTOTYPE), 2))?;
    }
    Ok(())
}

// The host's cells before they have properties.
fn bare_cells(maker: Maker, rows: &[(Home, &str, NativeId)]) -> Result<Vec<Cell>, Memory>
    ensures { IfOk result (λ cells. cells.items ≡ bare_of (native_cells rows.now)) }
{
    let mut cells = Vec::new(maker.alloc);
    push_all(maker, &mut cells, &[Form::Global], None, 0)?;
    cells.push(Cell::of_node(maker, 0))?;
    push_all(maker, &mut cells, &[Form::Object], None, 0)?;
    push_all(
        maker,
        &mut cells,
        &[Form::Object; 4],
        Some(OBJECT_PROTOTYPE),
        1,
    )?;
    push_all(maker, &mut cells, &[Form::Object; 2], None, 0)?;
    push_all(
        maker,
        &mut cells,
        &[Form::Object; 3],
        Some(OBJECT_PROTOTYPE),
        1,
    )?;
    let bubble = [Form::Native(NativeId::Bubble)];
    push_all(maker, &mut cells, &bubble, Some(FUNCTION_PROTOTYPE), 2)?;
    push_natives(maker, &mut cells, rows)?;
    Ok(cells)
}

// Gives a cell of the host a property.
fn give(
    alloc: Global,
    names: &mut PropertyNames,
    cells: &mut Vec<Cell>,
    home: CellId,
    name: &str,
    value: Value,
) -> Result<(), Memory>
    requires at { home < vec_len cells.old }
    requires base { IsBase names.old cells.old.items }
    requires plain { no_arrays (heads cells.old.items) ≡ true }
    requires value { IsRefWithin (length cells.old.items) value }
    ensures { OnOk result (IsGiven names.old cells.old.items names.new cells.new.items home name.now value) }
{
    let name = text_of(alloc, name)?;
    let number = names.number(&name);
    let target = Target { cell: home, number };
    table::write_own(names, cells, target, &name, value, 0)
}

fn give_natives(
    alloc: Global,
    names: &mut PropertyNames,
    cells: &mut Vec<Cell>,
    rows: &[(Home, &str, NativeId)],
) -> Result<(), Memory>
    requires rows { are_natives_within (length cells.old.items) rows.now ≡ true }
    requires base { IsBase names.old cells.old.items }
    requires plain { no_arrays (heads cells.old.items) ≡ true }
    ensures done { OnOk result (cells_of names.new cells.new.items
        ≡ fold given (cells_of names.old cells.old.items) (native_gifts rows.now)) }
    ensures base { OnOk result (IsBase names.new cells.new.items) }
    ensures heads { OnOk result (heads cells.new.items ≡ heads cells.old.items) }
{
    for (home, name, native) in rows {
        let value = Value::Ref(native_place(*native));
        give(alloc, names, cells, home_of(*home), name, value)?;
    }
    Ok(())
}

fn give_references(
    alloc: Global,
    names: &mut PropertyNames,
    cells: &mut Vec<Cell>,
    rows: &[(u32, &str, CellId)],
) -> Result<(), Memory>
    requires rows { are_references_within (length cells.old.items) rows.now ≡ true }
    requires base { IsBase names.old cells.old.items }
    requires plain { no_arrays (heads cells.old.items) ≡ true }
    ensures done { OnOk result (cells_of names.new cells.new.items
        ≡ fold given (cells_of names.old cells.old.items) (references_as_gifts rows.now)) }
    ensures base { OnOk result (IsBase names.new cells.new.items) }
    ensures heads { OnOk result (heads cells.new.items ≡ heads cells.old.items) }
{
    for (home, name, target) in rows {
        give(alloc, names, cells, *home, name, Value::Ref(*target))?;
    }
    Ok(())
}

// Gives the host's cells their properties.
fn give_all(
    alloc: Global,
    names: &mut PropertyNames,
    cells: &mut Vec<Cell>,
    rows: &[(Home, &str, NativeId)],
    references: &[(u32, &str, CellId)],
) -> Result<(), Memory>
    requires size { 0 < length cells.old.items }
    requires base { IsBase names.old cells.old.items }
    requires plain { no_arrays (heads cells.old.items) ≡ true }
    requires rows { are_natives_within (length cells.old.items) rows.now ≡ true }
    requires references { are_references_within (length cells.old.items) references.now ≡ true }
    ensures base { OnOk result (IsBase names.new cells.new.items) }
    ensures heads { OnOk result (heads cells.new.items ≡ heads cells.old.items) }
    ensures done { OnOk result (cells_of names.new cells.new.items
        ≡ with_gifts (native_gifts rows.now) (references_as_gifts references.now)
        (cells_of names.old cells.old.items)) }
{
    give_natives(alloc, names, cells, rows)?;
    let undefined = Value::Undefined;
    give(alloc, names, cells, GLOBAL, "undefined", undefined)?;
    let nan = Value::Num(Number::NaN);
    give(alloc, names, cells, GLOBAL, "NaN", nan)?;
    give_references(alloc, names, cells, references)
}

// The table of the rows, which are those of the host.
fn table_of(
    alloc: Global,
    keys: Keys,
    rows: &[(Home, &str, NativeId)],
    references: &[(u32, &str, CellId)],
) -> Result<(PropertyNames, Vec<Cell>), Memory>
    requires forms { native_cells rows.now ≡ native_cells table_rows }
    requires natives { native_gifts rows.now ≡ map native_gift table_rows }
    requires references { references_as_gifts references.now ≡ reference_gifts }
    requires fit_rows { are_natives_within host_count rows.now ≡ true }
    requires fit_references { are_references_within host_count references.now ≡ true }
    ensures { IfOk result (λ r. AreFirst r.0 r.1.items) }
{
    let mut names = PropertyNames::new(alloc, keys)?;
    let key = keys.for_numbers();
    let mut cells = bare_cells(Maker { alloc, key }, rows)?;
    give_all(alloc, &mut names, &mut cells, rows, references)?;
    Ok((names, cells))
}

/// The host's cells of a new store, and the table of their names, which hash by these keys.
pub fn host_table(alloc: Global, keys: Keys) -> Result<(PropertyNames, Vec<Cell>), Memory>
    ensures { IfOk result (λ r. AreFirst r.0 r.1.items) }
{
    table_of(alloc, keys, &ROWS, &REFERENCES)
}

/// The cell of `body` by its node.
pub fn first_raws(maker: Maker) -> Result<IndexMap<u32, u32, NumberKeys>, Memory>
    ensures { IfOk result (λ raws. raws.entries ≡ (0, 1) ∷ []) }
{
    let mut raws = IndexMap::with_hasher(maker.alloc, maker.key);
    raws.insert(0, BODY)?;
    Ok(raws)
}
