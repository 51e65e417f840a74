//! A cell by the numbers of its names.
ghost use Rattle.std.specs.Prelude.{◌≡◌, ℕ, position, suc, List, [], None, Some, true, false, is_some, nat_eq, if◌then◌else◌, OnErr, OnOk, option_copied, option_map, slice_get, IfSome, ◌<◌, length, IfOk};
ghost use Rattle.std.specs.List.{IsDistinct, list_any};
ghost use Rattle.std.specs.Map.{keys_of as numbers_of, lookup};
ghost use Rattle.std.specs.Fmt.{decimal};
ghost use Rattle.std.specs.Option.{option_map_or};
ghost use Rattle.store_cells.specs.Arrays.{count_value, keys_of, length_in};
ghost use Rattle.store_cells.specs.Cells.{is_array, is_scope, writer_in};
ghost use Rattle.store_cells.specs.Holes.{is_reference_below};
ghost use Rattle.store_cells.specs.Numbered.{NumberedCell, element_plan, first_numbered, found_in, is_length_in, is_listed, live, node_head, noted, numbered_cut, numbered_element, numbered_has, numbered_held, numbered_length, numbered_two, numbered_without, numbered_written, own_place, plain, plan_of, references_in, refers_at};
ghost use Rattle.store_cells.specs.Shape.{IsIndexed, Known};

use crate::indices::Elements;
use crate::kind::Form;
use crate::pairs::{self, FIRST_HOLE};
use crate::value::{CellId, Number, Value};
use code_units::{Memory, Owner, Text, index_of, is_word};
use keyed_names::NumberKeys;
use pair_table::PairTable;
use property_names::PropertyNames;
use std::alloc::Global;
use std::marker::Model;

/// What a cell never changes: whose it is, what it is, its prototype or outer scope, the number of
/// prototypes on its chain, and its place among its owner's visible cells.
#[derive(Clone, Copy)]
pub struct Head {
    pub owner: Owner,
    pub form: Form,
    pub up: Option<CellId>,
    pub links: u32,
    pub number: u32,
}

/// What makes cells: memory, and the key by which a table of many names hashes.
#[derive(Clone, Copy, Drop)]
pub struct Maker {
    pub alloc: Global,
    pub key: NumberKeys,
}

/// A cell: its pairs in a table with holes, and for an Array the numbers of names by the indices that
/// these are, and how many of its elements refer to cells.
#[derive(Drop)]
pub struct Cell {
    head: Head,
    holes: u32,
    references: u32,
    table: PairTable<Value>,
    elements: Elements,
}

impl Model for Cell {
    ghost use Rattle.store_cells.specs.Numbered.{NumberedCell, live};
    ghost use Rattle.store_cells.specs.Holes.{IsFull};

    ghost Value = { NumberedCell };

    ghost view = { λ c. record { head = c.head; elements = c.elements; references = c.references; entries = live c.table.entries } };

    ghost invariant = { λ c. IsFull c.holes c.table.entries };
}

/// How a write under a name goes.
#[derive(Clone, Copy, Drop)]
pub enum Write {
    /// Under the name alone; `end` is past it where it is an element.
    Own { end: u32 },
    /// Under the `length` of an Array.
    Length { len: u32 },
    /// Under an element at or past the length of an Array, which is then `len`.
    Longer { len: u32 },
}

// The most pairs that stand in a list whose numbers may be any.
const MOST_FEW: usize = 32;

/// The number of the name `length`.
pub const LENGTH: u32 = 0;

/// The number of the name `___nodes___`.
pub const NODES: u32 = 1;

/// The length that a value is: a whole number from 0 to 4294967295.
fn length_in(value: &Value) -> Option<u32>
    ensures { result ≡ length_in value.now }
{
    match value {
        Value::Num(Number::Whole(n)) => u32::try_from(*n).ok(),
        _ => None,
    }
}

/// A count as a value.
pub fn count_value(len: u32) -> Value
    ensures { result ≡ count_value len }
{
    Value::Num(Number::Whole(i64::from(len)))
}

// How the write of an element goes.
fn element_plan(len: u32, index: Option<u32>) -> Write
    requires { IfSome index (λ i. i < 4294967295) }
    ensures { result ≡ element_plan len index }
{
    match index {
        None => Write::Own { end: 0 },
        Some(i) if i < len => Write::Own { end: i + 1 },
        Some(i) => Write::Longer { len: i + 1 },
    }
}

// Where an element stands that is noted, where its value is no reference.
fn plain_place(table: &PairTable<Value>, elements: &Elements, n: u32, at: u32) -> Option<usize>
    ensures place { IfSome result (λ p. position (nat_eq n) (numbers_of table.now.entries) ≡ Some p) }
    ensures noted { IfSome result (λ p. noted (suc at) n elements.now ≡ elements.now) }
    ensures plain { IfSome result (λ p. refers_at n (live table.now.entries) ≡ false) }
{
    if !elements.is_noted(at, n) {
        return None;
    }
    if pairs::refers(table, n) {
        return None;
    }
    table.get_index_of(n)
}

impl Cell {
    /// A cell without pairs.
    pub fn new(maker: Maker, head: Head) -> Cell
        ensures { result ≡ record { head = head; elements = []; references = 0; entries = [] } }
    {
        Cell {
            head,
            holes: 0,
            references: 0,
            table: PairTable::new(maker.alloc),
            elements: Elements::new(maker.alloc),
        }
    }

    /// A cell of these few pairs, whose numbers differ and are those of names.
    #[inline(always)]
    pub fn of_few(maker: Maker, head: Head, list: Vec<(u32, Value)>) -> Cell
        requires distinct { IsDistinct nat_eq (numbers_of list.items) }
        requires names { Known FIRST_HOLE list.items }
        ensures { result ≡ record { head = head; elements = []; references = 0; entries = list.items } }
    {
        Cell {
            head,
            holes: 0,
            references: 0,
            table: PairTable::of_few(list),
            elements: Elements::new(maker.alloc),
        }
    }

    /// A cell without pairs that has room for so many.
    pub fn with_room(maker: Maker, head: Head, room: usize) -> Result<Cell, Memory>
        ensures { IfOk result (λ c. c ≡ record { head = head; elements = []; references = 0; entries = [] }) }
    {
        let mut table = PairTable::new(maker.alloc);
        table.make_places(room, &maker.key)?;
        table.reserve(room)?;
        Ok(Cell {
            head,
            holes: 0,
            references: 0,
            table,
            elements: Elements::new(maker.alloc),
        })
    }

    /// A cell without pairs that has room for a length and so many elements.
    pub fn with_elements(maker: Maker, head: Head, count: usize) -> Result<Cell, Memory>
        ensures { IfOk result (λ c. c ≡ record { head = head; elements = []; references = 0; entries = [] }) }
    {
        if count < MOST_FEW {
            return Cell::with_room(maker, head, count + 1);
        }
        Ok(Cell {
            head,
            holes: 0,
            references: 0,
            table: PairTable::with_elements(maker.alloc, maker.key, count.saturating_add(1))?,
            elements: Elements::new(maker.alloc),
        })
    }

    /// A cell as it is made: an Array with its length, any other without pairs.
    pub fn first(maker: Maker, head: Head) -> Result<Cell, Memory>
        ensures { IfOk result (λ c. c ≡ first_numbered head) }
    {
        let mut cell = Cell::new(maker, head);
        if head.form.is_array() {
            cell.write(LENGTH, count_value(0), 0)?;
        }
        Ok(cell)
    }

    /// The cell of a page node.
    pub fn of_node(maker: Maker, node: u32) -> Cell
        ensures { result ≡ record { head = node_head node; elements = []; references = 0; entries = [] } }
    {
        Cell::new(
            maker,
            Head {
                owner: Owner::Host,
                form: Form::RawNode(node),
                up: None,
                links: 0,
                number: 0,
            },
        )
    }

    /// What it never changes.
    #[inline(always)]
    pub fn head(&self) -> Head
        ensures { result ≡ self.now.head }
    {
        self.head
    }

    /// The widget that may write to it.
    pub fn writer(&self) -> Option<u32>
        ensures { result ≡ writer_in self.now.head.owner self.now.head.form }
    {
        if self.head.form.is_bunch() {
            return None;
        }
        match self.head.owner {
            Owner::Host => None,
            Owner::Widget(w) => Some(w),
        }
    }

    // The length of an Array.
    fn length(&self) -> u32
        ensures { result ≡ numbered_length self.now.entries }
    {
        match self.own(LENGTH) {
            None => 0,
            Some(value) => length_in(value).unwrap_or(0),
        }
    }

    /// Whether a name is the `length` of an Array.
    pub fn is_length(&self, name: &Text) -> bool
        ensures { result ≡ is_length_in self.now name.now }
    {
        self.head.form.is_array() && is_word(name, b"length")
    }

    /// The prototype.
    pub fn proto(&self) -> Option<CellId>
        ensures { result ≡ (if is_scope self.now.head.form then None else self.now.head.up) }
    {
        if self.head.form.is_scope() {
            None
        } else {
            self.head.up
        }
    }

    /// The place among its owner's visible cells.
    pub fn number(&self) -> Option<u32>
        ensures { result ≡ own_place self.now.head }
    {
        match self.head.owner {
            Owner::Widget(_) if self.head.form.is_visible() => Some(self.head.number),
            _ => None,
        }
    }

    /// The value under its own name at a place.
    pub fn value_at(&self, at: u32) -> Option<&Value>
        ensures { option_copied result ≡ option_map (λ e. e.1) (slice_get self.now.entries at) }
    {
        let place = pairs::place(&self.table, self.holes, at as usize);
        Some(self.table.get_index(place)?.1)
    }

    /// The number of its own name at a place.
    pub fn number_at(&self, at: u32) -> Option<u32>
        ensures { result ≡ option_map (λ e. e.0) (slice_get self.now.entries at) }
    {
        let place = pairs::place(&self.table, self.holes, at as usize);
        Some(*self.table.get_index(place)?.0)
    }

    /// The length of an Array.
    pub fn array_length(&self) -> Option<u32>
        ensures { result ≡ (if is_array self.now.head.form then Some (numbered_length self.now.entries) else None) }
    {
        if self.head.form.is_array() {
            Some(self.length())
        } else {
            None
        }
    }

    /// What an Array has under an index.
    pub fn element(&self, at: u32) -> Option<&Value>
        ensures { option_copied result ≡ numbered_element at self.now }
    {
        let n = self.elements.get(at)?;
        self.own(n)
    }

    /// How a write under a name goes, none where it would be a bad length.
    pub fn plan(&self, name: &Text, value: &Value) -> Option<Write>
        ensures { result ≡ plan_of name.now value.now self.now }
    {
        if !self.head.form.is_array() {
            return Some(Write::Own { end: 0 });
        }
        if is_word(name, b"length") {
            return length_in(value).map(|len| Write::Length { len });
        }
        Some(element_plan(self.length(), index_of(name)))
    }

    /// How a write under the name of an index goes.
    #[tactic(auto, using(crate::proofs::Plans::index_plan_is))]
    #[inline(always)]
    pub fn index_plan(&self, i: u32) -> Write
        requires { i < 4294967295 }
        ensures { (v : Value) → plan_of (decimal i) v self.now ≡ Some result }
    {
        if self.head.form.is_array() {
            element_plan(self.length(), Some(i))
        } else {
            Write::Own { end: 0 }
        }
    }

    /// The slots that a write under a name costs.
    pub fn slots_for(&self, number: Option<u32>) -> u32
        ensures { result ≡ (if option_map_or (λ n. numbered_has n self.now) number false then 0 else 1) }
    {
        match number {
            Some(n) if self.has(n) => 0,
            _ => 1,
        }
    }

    /// Whether it has a name of its own.
    #[inline(always)]
    pub fn has(&self, n: u32) -> bool
        ensures { result ≡ is_some (lookup (nat_eq n) self.now.entries) }
    {
        pairs::has(&self.table, n)
    }

    /// The value under a name of its own.
    #[inline(always)]
    pub fn own(&self, n: u32) -> Option<&Value>
        ensures { option_copied result ≡ lookup (nat_eq n) self.now.entries }
    {
        pairs::value(&self.table, n)
    }

    /// The value under a name of its own, where it has few names and this is one of them.
    #[inline(always)]
    pub fn own_few(&self, n: u32) -> Option<&Value>
        ensures { IfSome result (λ v. lookup (nat_eq n) self.now.entries ≡ Some v.now) }
    {
        pairs::few_value(&self.table, n)
    }

    /// Where its table has a name of its own. A name stays where it is till one is taken out.
    #[inline(always)]
    pub fn place_of(&self, n: u32) -> Option<usize>
        ensures { is_some result ≡ is_some (lookup (nat_eq n) self.now.entries) }
    {
        pairs::place_of(&self.table, n)
    }

    /// Whether a name is listed: it is permitted, and no `length` of an Array.
    pub fn is_listed(&self, name: &Text) -> bool
        ensures { result ≡ is_listed self.now name.now }
    {
        pairs::is_listed(self.head.form.is_array(), name)
    }

    /// The listed names in order.
    pub fn keys(&self, alloc: Global, names: &PropertyNames) -> Result<Vec<Text>, Memory>
        requires { Known (length names.now) self.now.entries }
        ensures { IfOk result (λ keys. keys.items ≡ keys_of (plain names.now self.now)) }
    {
        pairs::keys(alloc, &self.table, names, self.head.form.is_array())
    }

    /// How many names are listed.
    pub fn keys_len(&self, names: &PropertyNames) -> usize
        requires { Known (length names.now) self.now.entries }
        ensures { result ≡ length (keys_of (plain names.now self.now)) }
    {
        pairs::keys_len(&self.table, names, self.head.form.is_array())
    }

    /// Whether an element below an index refers to a cell. For an Array whose elements are all below
    /// it, as they are where it is the length, this is one look at the last index and at a count.
    pub fn has_reference(&self, names: &PropertyNames, n: u32) -> bool
        requires { is_array self.now.head.form ≡ true
            → IsIndexed names.now (found_in self.now.elements) self.now.entries
            × (self.now.references ≡ references_in names.now self.now.entries) }
        ensures { result ≡ list_any (is_reference_below names.now n) self.now.entries }
    {
        if !self.head.form.is_array() {
            return pairs::has_reference(&self.table, names, n);
        }
        if self.references == 0 {
            return false;
        }
        self.elements.are_below(n) || pairs::has_reference(&self.table, names, n)
    }

    /// A law: its names differ.
    pub fn names_differ(&self)
        ensures { IsDistinct nat_eq (numbers_of self.now.entries) }
    {
        // This says that the numbers in the table differ.
        let _len = self.table.len();
    }

    /// Makes places for so many more names: a list of names that cannot hold them becomes a table that
    /// hashes by `key`. A write of a new name wants a place.
    pub fn make_places(&mut self, additional: usize, key: &NumberKeys) -> Result<(), Memory>
        ensures { self.new ≡ self.old }
    {
        self.table.make_places(additional, key)?;
        Ok(())
    }

    /// Writes under a name, a new one last. `end` is past the name where it is an index of an Array.
    pub fn write(&mut self, n: u32, value: Value, end: u32) -> Result<(), Memory>
        ensures ok { OnOk result (self.new ≡ numbered_written n value end self.old) }
        ensures err { OnErr result (self.new ≡ self.old) }
    {
        if n >= FIRST_HOLE || self.references == u32::MAX {
            return Err(Memory);
        }
        if end == 0 {
            self.write_name(n, value)
        } else {
            self.write_element(n, value, end - 1)
        }
    }

    // Writes under a name that is no index of an Array. One that the cell has needs no memory.
    fn write_name(&mut self, n: u32, value: Value) -> Result<(), Memory>
        requires { n < FIRST_HOLE }
        ensures ok { OnOk result (self.new ≡ numbered_written n value 0 self.old) }
        ensures err { OnErr result (self.new ≡ self.old) }
    {
        self.table.insert(n, value)?;
        Ok(())
    }

    // Writes under the name of an element. A value that is no reference is written over another such one in its place.
    fn write_element(&mut self, n: u32, value: Value, at: u32) -> Result<(), Memory>
        requires name { n < FIRST_HOLE }
        requires few { self.old.references < 4294967295 }
        ensures ok { OnOk result (self.new ≡ numbered_written n value (suc at) self.old) }
        ensures err { OnErr result (self.new ≡ self.old) }
    {
        if value.is_reference() {
            return self.write_any(n, value, at);
        }
        match plain_place(&self.table, &self.elements, n, at) {
            Some(place) => {
                self.table.set(n, place, value);
                Ok(())
            }
            None => self.write_any(n, value, at),
        }
    }

    // The same of any value.
    fn write_any(&mut self, n: u32, value: Value, at: u32) -> Result<(), Memory>
        requires name { n < FIRST_HOLE }
        requires few { self.old.references < 4294967295 }
        ensures ok { OnOk result (self.new ≡ numbered_written n value (suc at) self.old) }
        ensures err { OnErr result (self.new ≡ self.old) }
    {
        self.table.reserve(1)?;
        self.elements.note(at, n)?;
        let count = pairs::recounted(&self.table, self.references, n, &value);
        let Ok(_) = self.table.insert(n, value) else {
            unreachable!()
        };
        self.references = count;
        Ok(())
    }

    /// Writes under the names of an element, which `end` is past, and of the length. Either both are
    /// written, or none is.
    pub fn write_two(
        &mut self,
        n: u32,
        value: Value,
        m: u32,
        other: Value,
        end: u32,
    ) -> Result<(), Memory>
        ensures ok { OnOk result (self.new ≡ numbered_two n value m other end self.old) }
        ensures err { OnErr result (self.new ≡ self.old) }
    {
        if n >= FIRST_HOLE || m >= FIRST_HOLE || end == 0 || self.references == u32::MAX {
            return Err(Memory);
        }
        self.table.reserve(2)?;
        self.elements.note(end - 1, n)?;
        let count = pairs::recounted(&self.table, self.references, n, &value);
        let Ok(_) = self.table.insert(n, value) else {
            unreachable!()
        };
        let Ok(_) = self.table.insert(m, other) else {
            unreachable!()
        };
        self.references = count;
        Ok(())
    }

    /// Writes under a name that it has.
    pub fn write_held(&mut self, n: u32, value: Value)
        requires { is_some (lookup (nat_eq n) self.old.entries) ≡ true }
        ensures { self.new ≡ numbered_held n value self.old }
    {
        match self.table.insert(n, value) {
            Ok(_) => {}
            Err(_) => unreachable!(),
        }
    }

    /// Writes under a name that it has, which is looked for at one place of its table first.
    #[inline(always)]
    pub fn write_near(&mut self, n: u32, near: usize, value: Value)
        requires { is_some (lookup (nat_eq n) self.old.entries) ≡ true }
        ensures { self.new ≡ numbered_held n value self.old }
    {
        if pairs::stands_at(&self.table, n, near) {
            self.table.set(n, near, value);
        } else {
            self.write_held(n, value);
        }
    }

    /// Takes a name out. `end` is past it where it is an index, which stays noted.
    pub fn take(&mut self, n: u32, end: u32)
        ensures { self.new ≡ numbered_without n end self.old }
    {
        if end != 0 {
            pairs::discount(&self.table, &mut self.references, n);
        }
        pairs::take_out(&mut self.table, &mut self.holes, n);
    }

    /// Removes the elements from `n` on, the last first.
    pub fn cut(&mut self, n: u32)
        ensures { (names : List (List ℕ)) → Known (length names) self.old.entries
            → IsIndexed names (found_in self.old.elements) self.old.entries
            → self.old.references ≡ references_in names self.old.entries → self.new ≡ numbered_cut names n self.old }
    {
        pairs::cut(
            &mut self.elements,
            &mut self.table,
            &mut self.holes,
            &mut self.references,
            n,
        );
    }
}
