//! The store.
ghost use Rattle.std.specs.Prelude.{◌≡◌, ℕ, option_to_list, map, ◌&&◌, ◌+◌, ◌+ℤ◌, ◌<◌, ◌≤◌, [], ◌∷◌, ◌++◌, None, Some, true, false, is_some, nat_eq, length, slice_get, option_copied, IfOk, IfErr, IfSome, IfNone, OnErr, OnOk};
ghost use Rattle.std.specs.Fmt.{decimal};
ghost use Rattle.std.specs.Option.{option_and_then, option_map};
ghost use Rattle.object_store.specs.Owned.{Made, SeesPut, SeesRemoved, SeesSet, is_held_by, is_of_at, is_own_scope, node_of, nodes_in, own_cell, own_paid, own_scope, owned, scope_number, ScopeMade, SeesPaid};
ghost use Rattle.std.specs.List.{IsDistinct, list_any};
ghost use Rattle.std.specs.Str.{bytes_eq};
ghost use Rattle.store_cells.specs.Arrays.{is_index_below, is_reference, keys_of};
ghost use Rattle.store_cells.specs.Bunches.{IsBunch};
ghost use Rattle.store_cells.specs.Cells.{Cells, PlainCell, chain, own_count, first_own, value_along, is_bunch_at, is_scope_at, is_visible, kind_of, function_in, native_in, node_in, proto_in, prototypes, holder, is_array, is_bunch};
ghost use Rattle.store_cells.specs.Shape.{AreElements, HasPrototype, IsLinked, IsNewForm, IsRefWithin};
ghost use Rattle.store_cells.specs.Host.{first_store, global, host_cells, host_count, is_permitted_cell, leads_on, place_of};
ghost use Rattle.store_cells.specs.Costs.{Refuses, cost_refusal, slots_refusal, units_refusal, whole_refusal};
ghost use Rattle.object_store.specs.Calls.{Adds, AreFirstPairs, HasLength, IsAdded, is_number, HasNode, IsCharged, IsMade, IsMakeable, IsPrototype, IsPut, IsRemoved, cells_by, keys_at, make_refusal, paid_by, put_refusal, read_start, readable, remove_refusal, var_done, IsPutPaid, paid_refusal};
ghost use Rattle.object_store.specs.Elements.{HasHidden, array_length, bunch_nodes, element, reference_in, shows_own};
ghost use Rattle.object_store.specs.Grows.{Grows};
ghost use Rattle.store_cells.specs.Cells.{own_number_of, IsOwner, IsWidget, number_in};
ghost use Rattle.store_cells.specs.First.{first_values};
ghost use Rattle.code_units.specs.Utf8.{utf8_of};
ghost use Rattle.json_judge.specs.Verdicts.{Tells};
ghost use Rattle.store_cells.specs.Born.{HaveCells, IsScopeOf, array_cell, bunch_cells, new_cell, object_cell, raw_place, scope_cell, unset};

use code_units::{Memory, Owner, Text};
use indexmap::IndexMap;
use js_tree::FunId;
use json_judge::{JudgedTexts, Verdict};
use keyed_names::{Keys, NumberKeys};
use permitted_table::{HostEntry, NativeId};
use property_names::PropertyNames;
use std::alloc::Global;
use std::marker::Model;
use store_cells::cell::{Cell, Maker};
use store_cells::counts::{
    self, CELL_LIMIT, Counts, NODE_LIMIT, NOTHING_PAID, SLOT_LIMIT, StoreFault, UNIT_LIMIT,
    first_counts,
};
use store_cells::{CellId, CellKind, FirstNames, Form, FunParts, Number, Value};
use store_table::table::{OwnPlace, Target};
use store_table::{bunch, host, scopes, table};

/// What is to be made: an Object on its prototype, an Array, a Function, a Scope with its names, or a
/// Bunch of page nodes; or, paid in one, an Object or a Scope with its first pairs, or an Array with
/// its elements.
#[derive(Drop)]
pub enum NewCell {
    Object(CellId),
    Array,
    Function {
        code: u32,
        fun: FunId,
        declared: bool,
        scope: Option<CellId>,
    },
    Scope {
        outer: Option<CellId>,
        names: Vec<Text>,
    },
    Bunch(Vec<u32>),
    ObjectWith {
        proto: CellId,
        pairs: Vec<(Text, Value)>,
    },
    ArrayWith(Vec<Value>),
    ScopeWith {
        outer: Option<CellId>,
        pairs: Vec<(Text, Value)>,
    },
}

// `undefined` under each name.
fn unset(alloc: Global, names: &[Text]) -> Result<Vec<(Text, Value)>, Memory>
    ensures { IfOk result (λ pairs. pairs.items ≡ unset names.now) }
{
    let mut pairs = Vec::new(alloc);
    for name in names {
        pairs.push((name.share()?, Value::Undefined))?;
    }
    Ok(pairs)
}

// The slots of the scope of a call: one, and one more for each name.
#[inline(always)]
fn call_slots(first: &FirstNames) -> usize
    ensures { result ≡ length (first_values first.now) + 1 }
{
    match first.own {
        None => first.names.len() + 1,
        Some(_) => first.names.len() + 2,
    }
}

// Past the largest number of the language.
const PAST_NUMBERS: u64 = 1 << 53;

// The whole number that a value is.
#[inline(always)]
fn whole_in(value: Option<&Value>) -> Option<i64>
    ensures { IfSome result (λ z. option_copied value.entry ≡ Some (Value.Num (Number.Whole z))) }
{
    match value? {
        Value::Num(Number::Whole(z)) => Some(*z),
        _ => None,
    }
}

// The sum of two whole numbers, where it is a number of the language.
#[inline(always)]
fn whole_sum(x: i64, y: i64) -> Option<i64>
    ensures { IfSome result (λ z. (z ≡ x +ℤ y) × (is_number (x +ℤ y) ≡ true)) }
{
    match x.checked_add(y) {
        Some(z) => {
            if z.unsigned_abs() < PAST_NUMBERS {
                Some(z)
            } else {
                None
            }
        }
        None => None,
    }
}

// The cell to which a value refers.
fn reference(value: Option<&Value>) -> Option<CellId>
    ensures { result ≡ option_and_then reference_in (option_copied value.entry) }
{
    match value? {
        Value::Ref(cell) => Some(*cell),
        _ => None,
    }
}

/// The store: the cells of all owners, and what each widget has paid.
#[derive(Drop)]
pub struct Store {
    names: PropertyNames,
    cells: Vec<Cell>,
    raws: IndexMap<u32, u32, NumberKeys>,
    kept: Vec<Counts>,
    key: NumberKeys,
    judged: JudgedTexts,
}

impl Model for Store {
    ghost use Rattle.store_cells.specs.Cells.{Cells};
    ghost use Rattle.store_cells.specs.Numbered.{cells_of};
    ghost use Rattle.store_cells.specs.Shape.{IsShape};

    ghost Value = { Cells };

    ghost view = { λ s. record { cells = cells_of s.names s.cells.items; kept = s.kept.items } };

    ghost invariant = { λ s. IsShape s.names s.cells.items s.raws.entries s.kept.items };
}

/// A law: each visible cell of a widget, and each of its scopes, stands in what the widget has under
/// its own number.
pub fn own_numbers()
    ensures cells { (w i : ℕ) (s : Cells) (c : PlainCell) → slice_get s.cells i ≡ Some c → is_visible w c ≡ true
        → slice_get (owned w s).heap (own_count w s.cells i) ≡ Some (own_cell w s.cells c) }
    ensures scopes { (w i : ℕ) (s : Cells) (c : PlainCell) → slice_get s.cells i ≡ Some c → is_own_scope w c ≡ true
        → slice_get (owned w s).scopes (scope_number w s.cells i) ≡ Some (own_scope w s.cells c) }
{}

impl Store {
    /// A store with the host's cells alone, which are made and never changed. Its tables hash by
    /// these keys.
    pub fn new(alloc: Global, keys: Keys) -> Result<Store, Memory>
        ensures { IfOk result (λ s. s ≡ first_store) }
    {
        let key = keys.for_numbers();
        let table = host::host_table(alloc, keys)?;
        let raws = host::first_raws(Maker { alloc, key })?;
        let kept = first_counts(alloc)?;
        let judged = JudgedTexts::new(alloc, keys)?;
        Ok(Store {
            names: table.0,
            cells: table.1,
            raws,
            kept,
            key,
            judged,
        })
    }

    /// The Global cell.
    pub fn global(&self) -> CellId
        ensures place { result ≡ global }
        ensures cell { IfSome (slice_get self.now.cells result) (λ c. kind_of c.form ≡ CellKind.Global) }
        ensures same { slice_get self.now.cells result ≡ slice_get host_cells result }
        ensures within { result < length self.now.cells }
    {
        // To read a field opens what the type keeps, here and in the laws below.
        let _cells = &self.cells;
        host::GLOBAL
    }

    /// The cell of an entry of the permitted table.
    pub fn host(&self, entry: HostEntry) -> CellId
        ensures place { result ≡ place_of entry }
        ensures within { is_permitted_cell result ≡ true }
        ensures cell { slice_get self.now.cells result ≡ slice_get host_cells result }

        // It is no Scope and no Bunch, and its chain is short.
        ensures object { is_scope_at self.now.cells result ≡ false }
        ensures unbunched { is_bunch_at self.now.cells result ≡ false }
        ensures chain { prototypes self.now.cells result ≤ 2 }
        ensures born { result < length self.now.cells }
    {
        let _cells = &self.cells;
        host::place_of(entry)
    }

    /// A law: each cell of the permitted table is a frozen cell of the host, and its properties and
    /// its prototype lead to primitives and to cells of the table alone.
    pub fn permitted_leads_on(&self)
        ensures { (i : ℕ) → is_permitted_cell i ≡ true → IfSome (slice_get self.now.cells i) (λ c. leads_on c ≡ true) }
    {
        let _cells = &self.cells;
    }

    /// A law: the host's cells stand first, as they were made.
    pub fn host_stays(&self)
        ensures enough { host_count ≤ length self.now.cells }
        ensures same { (i : ℕ) → i < host_count → slice_get self.now.cells i ≡ slice_get host_cells i }
    {
        let _cells = &self.cells;
    }

    /// A law: each Array has a length.
    pub fn arrays_have_length(&self)
        ensures { (i : ℕ) (c : PlainCell) → slice_get self.now.cells i ≡ Some c → is_array c.form ≡ true → HasLength c }
    {
        let _cells = &self.cells;
    }

    /// A law: each reference of a cell exists, and its prototype or outer scope is older, so that no
    /// chain has a cycle.
    pub fn links_are_older(&self)
        ensures { (i : ℕ) (c : PlainCell) → slice_get self.now.cells i ≡ Some c → IsLinked self.now.cells i c }
    {
        let _cells = &self.cells;
    }

    /// A law: each cell of a widget that is no Scope has a prototype, which is no Bunch.
    pub fn cells_have_prototypes(&self)
        ensures { (w i : ℕ) (c : PlainCell) → slice_get self.now.cells i ≡ Some c → is_visible w c ≡ true
            → HasPrototype self.now.cells c }
    {
        let _cells = &self.cells;
    }

    /// A law: each Bunch has its hidden Array alone, whose elements refer to the cells of distinct
    /// page nodes.
    pub fn bunches_have_nodes(&self)
        ensures { (i : ℕ) (c : PlainCell) → slice_get self.now.cells i ≡ Some c → is_bunch c.form ≡ true
            → IsBunch self.now.cells c }
    {
        let _cells = &self.cells;
    }

    /// A law: each page node has at most one cell.
    pub fn nodes_have_one_cell(&self)
        ensures { (i n : ℕ) (c : PlainCell) → slice_get self.now.cells i ≡ Some c → node_in c.form ≡ Some n
            → raw_place n self.now.cells ≡ Some i }
    {
        let _cells = &self.cells;
    }

    /// How many cells there are.
    pub fn len(&self) -> usize
        ensures { result ≡ length self.now.cells }
    {
        self.cells.len()
    }

    /// Whose a cell is.
    pub fn owner(&self, cell: CellId) -> Owner
        requires { cell < length self.now.cells }
        ensures { IfSome (slice_get self.now.cells cell) (λ c. result ≡ c.owner) }
    {
        table::cell(&self.cells, cell).head().owner
    }

    /// The kind of a cell.
    pub fn kind(&self, cell: CellId) -> CellKind
        requires { cell < length self.now.cells }
        ensures { IfSome (slice_get self.now.cells cell) (λ c. result ≡ kind_of c.form) }
    {
        table::cell(&self.cells, cell).head().form.kind()
    }

    /// The parts of a function, none exactly for a cell of another kind.
    pub fn function_of(&self, cell: CellId) -> Option<FunParts>
        requires { cell < length self.now.cells }
        ensures { IfSome (slice_get self.now.cells cell) (λ c. result ≡ function_in c.form) }
    {
        table::cell(&self.cells, cell).head().form.function()
    }

    /// The native, none exactly for a cell of another kind.
    pub fn native_of(&self, cell: CellId) -> Option<NativeId>
        requires { cell < length self.now.cells }
        ensures { IfSome (slice_get self.now.cells cell) (λ c. result ≡ native_in c.form) }
    {
        table::cell(&self.cells, cell).head().form.native()
    }

    /// The page node, none exactly for a cell of another kind.
    pub fn raw_node(&self, cell: CellId) -> Option<u32>
        requires { cell < length self.now.cells }
        ensures { IfSome (slice_get self.now.cells cell) (λ c. result ≡ node_in c.form) }
    {
        table::cell(&self.cells, cell).head().form.node()
    }

    /// The prototype, none exactly where the cell has none.
    pub fn proto(&self, cell: CellId) -> Option<CellId>
        requires { cell < length self.now.cells }
        ensures { IfSome (slice_get self.now.cells cell) (λ c. result ≡ proto_in c) }
    {
        table::cell(&self.cells, cell).proto()
    }

    /// The number of prototypes on a cell's chain.
    pub fn chain(&self, cell: CellId) -> u32
        requires { cell < length self.now.cells }
        ensures count { result ≡ prototypes self.now.cells cell }
        ensures few { result ≤ 100 }
    {
        table::cell(&self.cells, cell).head().links
    }

    /// The place of a cell among its owner's visible cells by birth, none exactly for a cell that
    /// is no visible cell of a widget.
    pub fn own_number(&self, cell: CellId) -> Option<u32>
        requires { cell < length self.now.cells }
        ensures { IfSome (slice_get self.now.cells cell) (λ c. result ≡ own_number_of self.now.cells cell c) }
    {
        table::cell(&self.cells, cell).number()
    }

    /// What an owner has paid: a widget one cell for each of its visible cells, and the host nothing.
    pub fn counts(&self, owner: Owner) -> Counts
        requires { IsOwner owner }
        ensures paid { paid_by self.now.kept owner ≡ Some result }
        ensures exact { result.cells ≡ length (cells_by self.now.cells owner) }
        ensures cells { result.cells ≤ CELL_LIMIT }
        ensures slots { result.slots ≤ SLOT_LIMIT }
        ensures units { result.units ≤ UNIT_LIMIT }
    {
        match owner {
            Owner::Host => NOTHING_PAID,
            Owner::Widget(w) => self.kept[w as usize],
        }
    }

    /// The permitted own names of a cell in order of insertion, the `length` of an Array left out.
    pub fn keys(&self, alloc: Global, cell: CellId) -> Result<Vec<Text>, Memory>
        requires { cell < length self.now.cells }
        ensures { IfOk result (λ keys. keys.items ≡ keys_at self.now.cells cell) }
    {
        table::cell(&self.cells, cell).keys(alloc, &self.names)
    }

    /// How many names `keys` gives.
    pub fn keys_len(&self, cell: CellId) -> usize
        requires { cell < length self.now.cells }
        ensures { result ≡ length (keys_at self.now.cells cell) }
    {
        table::cell(&self.cells, cell).keys_len(&self.names)
    }

    /// The value of an own name of a cell at a place of its list of names, from 0, none exactly where
    /// it has no name there. Of a Scope it is a variable.
    pub fn var_at(&self, scope: CellId, at: u32) -> Option<&Value>
        requires { scope < length self.now.cells }
        ensures { IfSome (slice_get self.now.cells scope) (λ c.
            option_copied result ≡ option_map (λ p. p.1) (slice_get c.pairs at)) }
    {
        table::cell(&self.cells, scope).value_at(at)
    }

    /// The name of an own pair of a cell at a place, from 0, none exactly where it has no pair there.
    pub fn name_at(&self, alloc: Global, cell: CellId, at: u32) -> Result<Option<Text>, Memory>
        requires { cell < length self.now.cells }
        ensures { IfOk result (λ name. IfSome (slice_get self.now.cells cell) (λ c.
            name ≡ option_map (λ p. p.0) (slice_get c.pairs at))) }
    {
        match table::cell(&self.cells, cell).number_at(at) {
            None => Ok(None),
            Some(n) => self.names.text(alloc, n),
        }
    }

    /// Whether a cell has a name of its own; the pair of a Bunch is hidden.
    pub fn has_own(&self, cell: CellId, name: &Text) -> bool
        requires { cell < length self.now.cells }
        ensures { IfSome (slice_get self.now.cells cell) (λ c. result ≡ shows_own name.now c) }
    {
        let held = table::cell(&self.cells, cell);
        if held.head().form.is_bunch() {
            return false;
        }
        match self.names.number(name) {
            None => false,
            Some(n) => held.has(n),
        }
    }

    /// Whether `keys` gives a name.
    pub fn lists(&self, cell: CellId, name: &Text) -> bool
        requires { cell < length self.now.cells }
        ensures { IfSome (slice_get self.now.cells cell) (λ c. result ≡ list_any (bytes_eq name.now) (keys_of c)) }
    {
        let held = table::cell(&self.cells, cell);
        if !held.is_listed(name) {
            return false;
        }
        match self.names.number(name) {
            None => false,
            Some(n) => held.has(n),
        }
    }

    /// The length of an Array, none exactly for a cell of another kind.
    pub fn array_length(&self, cell: CellId) -> Option<u32>
        requires { cell < length self.now.cells }
        ensures { IfSome (slice_get self.now.cells cell) (λ c. result ≡ array_length c) }
    {
        table::cell(&self.cells, cell).array_length()
    }

    /// What an Array has under an index, for which no text is made; none exactly where it has nothing
    /// there, and for a cell of another kind.
    pub fn element(&self, cell: CellId, at: u32) -> Option<&Value>
        requires cell { cell < length self.now.cells }
        requires index { at < 4294967295 }
        ensures { IfSome (slice_get self.now.cells cell) (λ c. option_copied result ≡ element at c) }
    {
        let held = table::cell(&self.cells, cell);
        if !held.head().form.is_array() {
            return None;
        }
        held.element(at)
    }

    /// Whether an own name of a cell that is an index below a number has a reference.
    pub fn has_reference(&self, cell: CellId, n: u32) -> bool
        requires { cell < length self.now.cells }
        ensures { IfSome (slice_get self.now.cells cell) (λ c.
            result ≡ list_any (λ p. is_index_below n p.0 && is_reference p.1) c.pairs) }
    {
        table::cell(&self.cells, cell).has_reference(&self.names, n)
    }

    /// A law: the names of a cell differ.
    pub fn names_differ(&self, cell: CellId)
        requires { cell < length self.now.cells }
        ensures { IfSome (slice_get self.now.cells cell) (λ c. IsDistinct bytes_eq (map (λ p. p.0) c.pairs)) }
    {
        table::cell(&self.cells, cell).names_differ();
    }

    /// The page nodes of a Bunch in their order, which differ; none exactly for a cell of another kind.
    pub fn bunch_nodes(&self, alloc: Global, cell: CellId) -> Result<Option<Vec<u32>>, Memory>
        requires { cell < length self.now.cells }
        ensures nodes { IfOk result (λ found. IfSome (slice_get self.now.cells cell) (λ c.
            option_map (λ v. v.items) found ≡ bunch_nodes self.now.cells c)) }
        ensures distinct { IfOk result (λ found. IfSome found (λ v. IsDistinct nat_eq v.items)) }
    {
        // These laws say what a Bunch has.
        self.links_are_older();
        self.bunches_have_nodes();
        let Some(array) = self.hidden_array(cell) else {
            return Ok(None);
        };
        let nodes = self.nodes_in(alloc, array)?;
        Ok(Some(nodes))
    }

    // The hidden Array of a Bunch.
    fn hidden_array(&self, cell: CellId) -> Option<CellId>
        requires { cell < length self.now.cells }
        ensures { IfSome (slice_get self.now.cells cell) (λ c. HasHidden self.now.cells c result) }
    {
        // This law says what a Bunch has.
        self.bunches_have_nodes();
        if !table::cell(&self.cells, cell).head().form.is_bunch() {
            return None;
        }
        reference(self.var_at(cell, 0))
    }

    // The nodes to whose cells an Array refers, in order.
    fn nodes_in(&self, alloc: Global, array: CellId) -> Result<Vec<u32>, Memory>
        requires { array < length self.now.cells }
        ensures { IfOk result (λ nodes. IfSome (slice_get self.now.cells array) (λ a.
            nodes.items ≡ nodes_in self.now.cells a.pairs)) }
    {
        // This law says that references exist.
        self.links_are_older();
        let mut nodes = Vec::new(alloc);
        for at in 0..u32::MAX {
            let Some(value) = self.var_at(array, at) else {
                return Ok(nodes);
            };
            self.push_node(value, &mut nodes)?;
        }
        Err(Memory)
    }

    // Puts the node to whose cell a value refers behind others.
    fn push_node(&self, value: &Value, nodes: &mut Vec<u32>) -> Result<(), Memory>
        requires { IsRefWithin (length self.now.cells) value.now }
        ensures { OnOk result (nodes.new.items ≡ nodes.old.items ++ option_to_list (node_of self.now.cells value.now)) }
    {
        if let Some(node) = self.node_of(value) {
            nodes.push(node)?;
        }
        Ok(())
    }

    // The node to whose cell a value refers.
    fn node_of(&self, value: &Value) -> Option<u32>
        requires { IsRefWithin (length self.now.cells) value.now }
        ensures { result ≡ node_of self.now.cells value.now }
    {
        match value {
            Value::Ref(cell) => self.raw_node(*cell),
            _ => None,
        }
    }

    /// The value of a variable: that of the innermost scope that has the name, none exactly where
    /// none has it.
    #[inline(always)]
    pub fn var_get(&self, scope: CellId, name: &Text) -> Option<&Value>
        requires { scope < length self.now.cells }
        ensures { option_copied result ≡ first_own name.now (chain self.now.cells scope) }
    {
        self.get_along(scope, name)
    }

    /// The same of a short name, where the scope itself has it among few.
    #[inline(always)]
    pub fn var_few(&self, scope: CellId, name: &Text) -> Option<&Value>
        requires { scope < length self.now.cells }
        ensures { IfSome result (λ v. first_own name.now (chain self.now.cells scope) ≡ Some v.now) }
    {
        let n = self.names.quick(name)?;
        table::own_few(&self.cells, scope, n)
    }

    /// The first own value under a name, from the cell on along its prototypes (ECMA-262 3rd
    /// edition, 8.6.2.1); of a Bunch, whose own pair is hidden, from its prototype on. None exactly
    /// where no such cell has the name.
    #[inline(always)]
    pub fn get(&self, cell: CellId, name: &Text) -> Option<&Value>
        requires { cell < length self.now.cells }
        ensures { option_copied result ≡ first_own name.now (readable self.now.cells cell) }
    {
        let from = self.read_start(cell)?;
        self.get_along(from, name)
    }

    /// The value under the name of an index below 2^30, as `get` under that name, of which no text is made.
    #[inline(always)]
    pub fn get_index(&self, cell: CellId, i: u32) -> Option<&Value>
        requires at { cell < length self.now.cells }
        requires index { i < 1073741824 }
        ensures { option_copied result ≡ first_own (decimal i) (readable self.now.cells cell) }
    {
        let from = self.read_start(cell)?;
        self.index_along(from, i)
    }

    // The cell at which a read begins.
    #[inline(always)]
    fn read_start(&self, cell: CellId) -> Option<CellId>
        requires { cell < length self.now.cells }
        ensures start { result ≡ read_start self.now.cells cell }
        ensures within { IfSome result (λ i. i < length self.now.cells) }
    {
        let head = table::cell(&self.cells, cell).head();
        if head.form.is_bunch() {
            head.up
        } else {
            Some(cell)
        }
    }

    /// Writes under a name: an own name keeps its place, a new one goes last. Under the `length` of
    /// an Array it removes the elements past it, and an element at or past the length raises it
    /// (ECMA-262 3rd edition, 15.4.5.1). `Closed` comes exactly where the cell is a Bunch or the
    /// host's; `BadLength` where the `length` of an Array is given something else than a whole
    /// number from 0 to 4294967295; `Slots` for a new name at the limit.
    pub fn put(&mut self, cell: CellId, name: &Text, value: Value) -> Result<(), StoreFault>
        requires at { cell < length self.old.cells }
        requires value { IsRefWithin (length self.old.cells) value }
        ensures ok { OnOk result (IsPut self.old self.new cell name.now value) }
        ensures err { IfErr result (λ e. Refuses e (put_refusal self.old cell name.now value)) }
        ensures same { OnErr result (self.new ≡ self.old) }

        // Its widget sees the write, and another has what it had.
        ensures own { OnOk result ((w : ℕ) → SeesPut w self.old self.new cell name.now value) }
        ensures others { (w : ℕ) → is_of_at w self.old.cells cell ≡ false → owned w self.new ≡ owned w self.old }
        ensures grows { (w : ℕ) → Grows w self.old.cells self.new.cells }
    {
        // These laws say that what other cells lead to stays.
        self.links_are_older();
        self.bunches_have_nodes();
        self.put_in(cell, name, value)
    }

    /// Writes under the name of an index below 2^30, as `put` under that name, of which no text is made.
    pub fn put_index(&mut self, cell: CellId, i: u32, value: Value) -> Result<(), StoreFault>
        requires at { cell < length self.old.cells }
        requires index { i < 1073741824 }
        requires value { IsRefWithin (length self.old.cells) value }
        ensures ok { OnOk result (IsPut self.old self.new cell (decimal i) value) }
        ensures err { IfErr result (λ e. Refuses e (put_refusal self.old cell (decimal i) value)) }
        ensures same { OnErr result (self.new ≡ self.old) }

        // Its widget sees the write, and another has what it had.
        ensures own { OnOk result ((w : ℕ) → SeesPut w self.old self.new cell (decimal i) value) }
        ensures others { (w : ℕ) → is_of_at w self.old.cells cell ≡ false → owned w self.new ≡ owned w self.old }
        ensures grows { (w : ℕ) → Grows w self.old.cells self.new.cells }
    {
        // These laws say that what other cells lead to stays.
        self.links_are_older();
        self.bunches_have_nodes();
        self.put_index_in(cell, i, value)
    }

    // `put_index`, without what widgets see of it.
    fn put_index_in(&mut self, cell: CellId, i: u32, value: Value) -> Result<(), StoreFault>
        requires at { cell < length self.old.cells }
        requires index { i < 1073741824 }
        requires value { IsRefWithin (length self.old.cells) value }
        ensures ok { OnOk result (IsPut self.old self.new cell (decimal i) value) }
        ensures err { IfErr result (λ e. Refuses e (put_refusal self.old cell (decimal i) value)) }
        ensures same { OnErr result (self.new ≡ self.old) }
    {
        let held = table::cell(&self.cells, cell);
        let Some(w) = held.writer() else {
            return Err(StoreFault::Closed);
        };
        let plan = held.index_plan(i);
        let n = self.names.of_index(i);
        let slots = held.slots_for(Some(n));
        counts::afford(&self.kept, w, 0, slots as usize)?;
        table::write_index(&self.names, &mut self.cells, cell, n, i, value, plan)?;
        counts::pay(&mut self.kept, w, 0, slots);
        Ok(())
    }

    // `put`, without what widgets see of it.
    fn put_in(&mut self, cell: CellId, name: &Text, value: Value) -> Result<(), StoreFault>
        requires at { cell < length self.old.cells }
        requires value { IsRefWithin (length self.old.cells) value }
        ensures ok { OnOk result (IsPut self.old self.new cell name.now value) }
        ensures err { IfErr result (λ e. Refuses e (put_refusal self.old cell name.now value)) }
        ensures same { OnErr result (self.new ≡ self.old) }
    {
        let held = table::cell(&self.cells, cell);
        let Some(w) = held.writer() else {
            return Err(StoreFault::Closed);
        };
        let Some(plan) = held.plan(name, &value) else {
            return Err(StoreFault::BadLength);
        };
        let number = self.names.number(name);
        let slots = held.slots_for(number);
        counts::afford(&self.kept, w, 0, slots as usize)?;
        let target = Target { cell, number };
        table::write(&mut self.names, &mut self.cells, target, name, value, plan)?;
        counts::pay(&mut self.kept, w, 0, slots);
        Ok(())
    }

    /// Writes as `put` does under a name that the cell does not have, whose slot was paid before:
    /// nothing is paid. `Closed` comes exactly where the cell is a Bunch or the host's, or has the
    /// name; `BadLength` where `put` answers it.
    pub fn put_paid(&mut self, cell: CellId, name: &Text, value: Value) -> Result<(), StoreFault>
        requires at { cell < length self.old.cells }
        requires value { IsRefWithin (length self.old.cells) value }
        ensures ok { OnOk result (IsPutPaid self.old self.new cell name.now value) }
        ensures err { IfErr result (λ e. Refuses e (paid_refusal self.old cell name.now value)) }
        ensures same { OnErr result (self.new ≡ self.old) }

        // Its widget sees the write, and another has what it had.
        ensures own { OnOk result ((w : ℕ) → SeesPaid w self.old self.new cell name.now value) }
        ensures others { (w : ℕ) → is_of_at w self.old.cells cell ≡ false → owned w self.new ≡ owned w self.old }
        ensures grows { (w : ℕ) → Grows w self.old.cells self.new.cells }
    {
        // These laws say that what other cells lead to stays.
        self.links_are_older();
        self.bunches_have_nodes();
        self.put_paid_in(cell, name, value)
    }

    /// Writes under the name of an index below 2^30 whose slot was paid before, as `put_paid` under that name.
    pub fn put_index_paid(&mut self, cell: CellId, i: u32, value: Value) -> Result<(), StoreFault>
        requires at { cell < length self.old.cells }
        requires index { i < 1073741824 }
        requires value { IsRefWithin (length self.old.cells) value }
        ensures ok { OnOk result (IsPutPaid self.old self.new cell (decimal i) value) }
        ensures err { IfErr result (λ e. Refuses e (paid_refusal self.old cell (decimal i) value)) }
        ensures same { OnErr result (self.new ≡ self.old) }

        // Its widget sees the write, and another has what it had.
        ensures own { OnOk result ((w : ℕ) → SeesPaid w self.old self.new cell (decimal i) value) }
        ensures others { (w : ℕ) → is_of_at w self.old.cells cell ≡ false → owned w self.new ≡ owned w self.old }
        ensures grows { (w : ℕ) → Grows w self.old.cells self.new.cells }
    {
        // These laws say that what other cells lead to stays.
        self.links_are_older();
        self.bunches_have_nodes();
        self.put_index_paid_in(cell, i, value)
    }

    // `put_index_paid`, without what widgets see of it.
    fn put_index_paid_in(&mut self, cell: CellId, i: u32, value: Value) -> Result<(), StoreFault>
        requires at { cell < length self.old.cells }
        requires index { i < 1073741824 }
        requires value { IsRefWithin (length self.old.cells) value }
        ensures ok { OnOk result (IsPutPaid self.old self.new cell (decimal i) value) }
        ensures err { IfErr result (λ e. Refuses e (paid_refusal self.old cell (decimal i) value)) }
        ensures same { OnErr result (self.new ≡ self.old) }
    {
        let held = table::cell(&self.cells, cell);
        let Some(_w) = held.writer() else {
            return Err(StoreFault::Closed);
        };
        let n = self.names.of_index(i);
        let slots = held.slots_for(Some(n));
        if slots == 0 {
            return Err(StoreFault::Closed);
        }
        let plan = held.index_plan(i);
        table::write_index(&self.names, &mut self.cells, cell, n, i, value, plan)?;
        Ok(())
    }

    // `put_paid`, without what widgets see of it.
    fn put_paid_in(&mut self, cell: CellId, name: &Text, value: Value) -> Result<(), StoreFault>
        requires at { cell < length self.old.cells }
        requires value { IsRefWithin (length self.old.cells) value }
        ensures ok { OnOk result (IsPutPaid self.old self.new cell name.now value) }
        ensures err { IfErr result (λ e. Refuses e (paid_refusal self.old cell name.now value)) }
        ensures same { OnErr result (self.new ≡ self.old) }
    {
        let held = table::cell(&self.cells, cell);
        let Some(_w) = held.writer() else {
            return Err(StoreFault::Closed);
        };
        let number = self.names.number(name);
        let slots = held.slots_for(number);
        if slots == 0 {
            return Err(StoreFault::Closed);
        }
        match held.plan(name, &value) {
            None => Err(StoreFault::BadLength),
            Some(plan) => {
                let target = Target { cell, number };
                table::write(&mut self.names, &mut self.cells, target, name, value, plan)?;
                Ok(())
            }
        }
    }

    /// Whether a widget can pay a whole cost: `Units`, else `Cells`, else `Slots` comes exactly where
    /// its kept count plus the cost passes that limit. Nothing is paid.
    pub fn afford(&self, owner: Owner, cost: Counts) -> Result<(), StoreFault>
        requires { IsWidget owner }
        ensures ok { OnOk result (whole_refusal self.now.kept (number_in owner) cost ≡ None) }
        ensures err { IfErr result (λ e. whole_refusal self.now.kept (number_in owner) cost ≡ Some e) }
    {
        counts::afford_all(&self.kept, counts::widget(owner), cost)
    }

    /// A widget pays text units. `Units` comes exactly where the kept count plus `n` passes the
    /// limit.
    pub fn charge_units(&mut self, owner: Owner, n: u32) -> Result<(), StoreFault>
        requires { IsWidget owner }
        ensures ok { OnOk result (
            IsCharged self.old self.new (number_in owner) 0 n (units_refusal self.old.kept (number_in owner) n)) }
        ensures err { IfErr result (λ e. units_refusal self.old.kept (number_in owner) n ≡ Some e) }
        ensures same { OnErr result (self.new ≡ self.old) }

        // The widget sees that, and another has what it had.
        ensures own { OnOk result (
            owned (number_in owner) self.new ≡ own_paid 0 0 n (owned (number_in owner) self.old)) }
        ensures others { (w : ℕ) → (number_in owner ≡ w → ⊥) → owned w self.new ≡ owned w self.old }
        ensures grows { (w : ℕ) → Grows w self.old.cells self.new.cells }
    {
        counts::charge_units(&mut self.kept, counts::widget(owner), n)
    }

    /// A widget pays slots. `Slots` comes exactly where the kept count plus `n` passes the limit.
    pub fn charge_slots(&mut self, owner: Owner, n: u32) -> Result<(), StoreFault>
        requires { IsWidget owner }
        ensures ok { OnOk result (
            IsCharged self.old self.new (number_in owner) n 0 (slots_refusal self.old.kept (number_in owner) n)) }
        ensures err { IfErr result (λ e. slots_refusal self.old.kept (number_in owner) n ≡ Some e) }
        ensures same { OnErr result (self.new ≡ self.old) }

        // The widget sees that, and another has what it had.
        ensures own { OnOk result (
            owned (number_in owner) self.new ≡ own_paid 0 n 0 (owned (number_in owner) self.old)) }
        ensures others { (w : ℕ) → (number_in owner ≡ w → ⊥) → owned w self.new ≡ owned w self.old }
        ensures grows { (w : ℕ) → Grows w self.old.cells self.new.cells }
    {
        counts::charge_slots(&mut self.kept, counts::widget(owner), n)
    }

    /// What is known of the JSON in a text. A long text that throws is judged once for all widgets.
    pub fn json_verdict(&mut self, alloc: Global, text: &Text) -> Result<Verdict, Memory>
        ensures tells { IfOk result (Tells (utf8_of text.now)) }
        ensures same { self.new ≡ self.old }
    {
        self.judged.verdict(alloc, text)
    }

    /// The cell of a page node, made where there is none.
    pub fn add_raw(&mut self, alloc: Global, node: u32) -> Result<CellId, Memory>
        requires { node < NODE_LIMIT }
        ensures ok { IfOk result (λ id. HasNode self.old self.new node id) }
        ensures err { OnErr result (self.new ≡ self.old) }
        ensures found { IfOk result (λ id. raw_place node self.new.cells ≡ Some id) }

        // Each widget has what it had.
        ensures others { (w : ℕ) → owned w self.new ≡ owned w self.old }
        ensures grows { (w : ℕ) → Grows w self.old.cells self.new.cells }
    {
        // These laws say that what other cells lead to stays.
        self.links_are_older();
        self.bunches_have_nodes();
        self.add_node(alloc, node)
    }

    // `add_raw`, without what widgets see of it.
    fn add_node(&mut self, alloc: Global, node: u32) -> Result<CellId, Memory>
        requires { node < NODE_LIMIT }
        ensures ok { IfOk result (λ id. HasNode self.old self.new node id) }
        ensures err { OnErr result (self.new ≡ self.old) }
    {
        if let Some(id) = table::node_cell(&self.raws, node) {
            return Ok(id);
        }
        self.raws.reserve(1)?;
        let maker = Maker {
            alloc,
            key: self.key,
        };
        let id = table::add(&self.names, &mut self.cells, Cell::of_node(maker, node))?;
        table::index_node(&mut self.raws, node, id);
        Ok(id)
    }

    /// Makes a cell for a widget. An Object, an Array and a Function cost one cell, and one slot for
    /// each first pair or element; a Scope one slot, and one more for each name; a Bunch one cell, one
    /// slot, and one more for each node. A Bunch has one property `___nodes___`, a hidden Array of the
    /// host, which comes right after it and refers to the cells of its nodes in their order. `Cells`
    /// or `Slots` comes exactly where the widget's kept count plus the cost passes the limit.
    pub fn make(&mut self, alloc: Global, owner: Owner, cell: NewCell) -> Result<CellId, StoreFault>
        requires widget { IsWidget owner }
        requires fit { IsMakeable self.old.cells cell }
        ensures ok { IfOk result (λ id. IsMade self.old self.new (number_in owner) id cell) }
        ensures err { IfErr result (λ e. Refuses e (make_refusal self.old (number_in owner) cell)) }
        ensures same { OnErr result (self.new ≡ self.old) }

        // The widget sees what it made, and another has what it had.
        ensures own { IfOk result (λ id. Made (number_in owner) self.old self.new id cell) }
        ensures others { (w : ℕ) → (number_in owner ≡ w → ⊥) → owned w self.new ≡ owned w self.old }
        ensures grows { (w : ℕ) → Grows w self.old.cells self.new.cells }
    {
        // These laws say that what other cells lead to stays.
        self.links_are_older();
        self.bunches_have_nodes();
        let made = self.make_in(alloc, owner, cell);

        // This law says that the prototypes are the host's.
        self.permitted_leads_on();
        made
    }

    /// Makes the scope of a call: one slot, and one more for each name. `Slots` comes exactly where the
    /// widget's kept count plus the cost passes the limit.
    #[inline(always)]
    pub fn make_call_scope(
        &mut self,
        alloc: Global,
        w: u32,
        outer: Option<CellId>,
        first: &FirstNames,
    ) -> Result<CellId, StoreFault>
        requires widget { w < 32 }
        requires outer { IsScopeOf self.old.cells outer }
        requires pairs { AreFirstPairs self.old.cells (first_values first.now) }
        ensures ok { IfOk result (λ id. Adds self.old self.new w id
            (scope_cell w outer (first_values first.now) ∷ []) 0 (length (first_values first.now) + 1)) }
        ensures err { IfErr result
            (λ e. Refuses e (cost_refusal self.old.kept w 0 (length (first_values first.now) + 1))) }
        ensures same { OnErr result (self.new ≡ self.old) }

        // The widget sees the scope, and another has what it had.
        ensures own { IfOk result (λ id. ScopeMade w self.old self.new id outer (first_values first.now)) }
        ensures others { (v : ℕ) → (w ≡ v → ⊥) → owned v self.new ≡ owned v self.old }
        ensures grows { (v : ℕ) → Grows v self.old.cells self.new.cells }
    {
        // These laws say that what other cells lead to stays.
        self.links_are_older();
        self.bunches_have_nodes();
        self.call_scope_in(alloc, w, outer, first)
    }

    // `make_call_scope`, without what widgets see of it.
    #[inline(always)]
    fn call_scope_in(
        &mut self,
        alloc: Global,
        w: u32,
        outer: Option<CellId>,
        first: &FirstNames,
    ) -> Result<CellId, StoreFault>
        requires widget { w < 32 }
        requires outer { IsScopeOf self.old.cells outer }
        requires pairs { AreFirstPairs self.old.cells (first_values first.now) }
        ensures ok { IfOk result (λ id. Adds self.old self.new w id
            (scope_cell w outer (first_values first.now) ∷ []) 0 (length (first_values first.now) + 1)) }
        ensures err { IfErr result
            (λ e. Refuses e (cost_refusal self.old.kept w 0 (length (first_values first.now) + 1))) }
        ensures same { OnErr result (self.new ≡ self.old) }
    {
        let slots = counts::afford(&self.kept, w, 0, call_slots(first))?;
        let head = table::scope_head(w, outer);
        let maker = Maker {
            alloc,
            key: self.key,
        };
        let id = scopes::add_scope(maker, &mut self.names, &mut self.cells, head, first)?;
        counts::pay(&mut self.kept, w, 0, slots);
        Ok(id)
    }

    // `make`, without what widgets see of it.
    fn make_in(&mut self, alloc: Global, owner: Owner, cell: NewCell) -> Result<CellId, StoreFault>
        requires widget { IsWidget owner }
        requires fit { IsMakeable self.old.cells cell }
        ensures ok { IfOk result (λ id. IsMade self.old self.new (number_in owner) id cell) }
        ensures err { IfErr result (λ e. Refuses e (make_refusal self.old (number_in owner) cell)) }
        ensures same { OnErr result (self.new ≡ self.old) }
    {
        let Owner::Widget(w) = owner else {
            unreachable!()
        };
        match cell {
            NewCell::Object(proto) => self.make_on(alloc, w, Form::Object, proto),
            NewCell::Array => {
                let proto = self.host(HostEntry::ArrayPrototype);
                self.make_on(alloc, w, Form::Array, proto)
            }
            NewCell::Function {
                code,
                fun,
                declared,
                scope,
            } => {
                let proto = self.host(HostEntry::FunctionPrototype);
                let form = Form::Function(FunParts {
                    code,
                    fun,
                    declared,
                    scope,
                });
                self.make_on(alloc, w, form, proto)
            }
            NewCell::Scope { outer, names } => self.make_unset(alloc, w, outer, &names),
            NewCell::Bunch(nodes) => self.make_bunch(alloc, w, &nodes),
            NewCell::ObjectWith { proto, pairs } => self.make_object(alloc, w, proto, &pairs),
            NewCell::ArrayWith(values) => self.make_array(alloc, w, &values),
            NewCell::ScopeWith { outer, pairs } => self.make_scope(alloc, w, outer, &pairs),
        }
    }

    // Makes a visible cell on a prototype.
    fn make_on(
        &mut self,
        alloc: Global,
        w: u32,
        form: Form,
        up: CellId,
    ) -> Result<CellId, StoreFault>
        requires widget { w < 32 }
        requires up { up < length self.old.cells }
        requires object { is_scope_at self.old.cells up ≡ false }
        requires unbunched { is_bunch_at self.old.cells up ≡ false }
        requires few { prototypes self.old.cells up < 100 }
        requires form { IsNewForm self.old.cells form }
        ensures ok { IfOk result (λ id. Adds self.old self.new w id (new_cell w form up ∷ []) 1 0) }
        ensures err { IfErr result (λ e. Refuses e (cost_refusal self.old.kept w 1 0)) }
        ensures same { OnErr result (self.new ≡ self.old) }
    {
        counts::afford(&self.kept, w, 1, 0)?;
        let number = counts::counts_of(&self.kept, w).cells;
        let place = OwnPlace { widget: w, number };
        let head = table::head_on(&self.cells, place, form, up);
        let maker = Maker {
            alloc,
            key: self.key,
        };
        let cell = Cell::first(maker, head)?;
        let id = table::add(&self.names, &mut self.cells, cell)?;
        counts::pay(&mut self.kept, w, 1, 0);
        Ok(id)
    }

    // Makes a scope of unset variables.
    fn make_unset(
        &mut self,
        alloc: Global,
        w: u32,
        outer: Option<CellId>,
        names: &[Text],
    ) -> Result<CellId, StoreFault>
        requires widget { w < 32 }
        requires outer { IsScopeOf self.old.cells outer }
        requires distinct { IsDistinct bytes_eq names.now }
        ensures ok { IfOk result (λ id.
            Adds self.old self.new w id (scope_cell w outer (unset names.now) ∷ []) 0 (length names.now + 1)) }
        ensures err { IfErr result (λ e. Refuses e (cost_refusal self.old.kept w 0 (length names.now + 1))) }
        ensures same { OnErr result (self.new ≡ self.old) }
    {
        let pairs = unset(alloc, names)?;
        self.make_scope(alloc, w, outer, &pairs)
    }

    // Makes a scope with its first pairs.
    fn make_scope(
        &mut self,
        alloc: Global,
        w: u32,
        outer: Option<CellId>,
        pairs: &[(Text, Value)],
    ) -> Result<CellId, StoreFault>
        requires widget { w < 32 }
        requires outer { IsScopeOf self.old.cells outer }
        requires pairs { AreFirstPairs self.old.cells pairs.now }
        ensures ok { IfOk result (λ id.
            Adds self.old self.new w id (scope_cell w outer pairs.now ∷ []) 0 (length pairs.now + 1)) }
        ensures err { IfErr result (λ e. Refuses e (cost_refusal self.old.kept w 0 (length pairs.now + 1))) }
        ensures same { OnErr result (self.new ≡ self.old) }
    {
        let slots = counts::afford(&self.kept, w, 0, pairs.len() + 1)?;
        let head = table::scope_head(w, outer);
        let maker = Maker {
            alloc,
            key: self.key,
        };
        let id = table::add_filled(maker, &mut self.names, &mut self.cells, head, pairs)?;
        counts::pay(&mut self.kept, w, 0, slots);
        Ok(id)
    }

    // Makes an Object with its first pairs.
    fn make_object(
        &mut self,
        alloc: Global,
        w: u32,
        up: CellId,
        pairs: &[(Text, Value)],
    ) -> Result<CellId, StoreFault>
        requires widget { w < 32 }
        requires up { IsPrototype self.old.cells up }
        requires pairs { AreFirstPairs self.old.cells pairs.now }
        ensures ok { IfOk result (λ id.
            Adds self.old self.new w id (object_cell w up pairs.now ∷ []) 1 (length pairs.now)) }
        ensures err { IfErr result (λ e. Refuses e (cost_refusal self.old.kept w 1 (length pairs.now))) }
        ensures same { OnErr result (self.new ≡ self.old) }
    {
        let slots = counts::afford(&self.kept, w, 1, pairs.len())?;
        let number = counts::counts_of(&self.kept, w).cells;
        let place = OwnPlace { widget: w, number };
        let head = table::head_on(&self.cells, place, Form::Object, up);
        let maker = Maker {
            alloc,
            key: self.key,
        };
        let id = table::add_filled(maker, &mut self.names, &mut self.cells, head, pairs)?;
        counts::pay(&mut self.kept, w, 1, slots);
        Ok(id)
    }

    // Makes an Array of these elements.
    fn make_array(&mut self, alloc: Global, w: u32, values: &[Value]) -> Result<CellId, StoreFault>
        requires widget { w < 32 }
        requires refs { AreElements (length self.old.cells) values.now }
        ensures ok { IfOk result (λ id.
            Adds self.old self.new w id (array_cell w values.now ∷ []) 1 (length values.now)) }
        ensures err { IfErr result (λ e. Refuses e (cost_refusal self.old.kept w 1 (length values.now))) }
        ensures same { OnErr result (self.new ≡ self.old) }
    {
        let slots = counts::afford(&self.kept, w, 1, values.len())?;
        let number = counts::counts_of(&self.kept, w).cells;
        let up = host::ARRAY_PROTOTYPE;
        let place = OwnPlace { widget: w, number };
        let head = table::head_on(&self.cells, place, Form::Array, up);
        let maker = Maker {
            alloc,
            key: self.key,
        };
        let id = bunch::add_array(maker, &mut self.names, &mut self.cells, head, values)?;
        counts::pay(&mut self.kept, w, 1, slots);
        Ok(id)
    }

    // Makes a Bunch with its hidden Array.
    fn make_bunch(&mut self, alloc: Global, w: u32, nodes: &[u32]) -> Result<CellId, StoreFault>
        requires widget { w < 32 }
        requires distinct { IsDistinct nat_eq nodes.now }
        requires known { HaveCells self.old.cells nodes.now }
        ensures ok { IfOk result (λ id.
            Adds self.old self.new w id (bunch_cells self.old.cells w nodes.now) 1 (length nodes.now + 1)) }
        ensures err { IfErr result (λ e. Refuses e (cost_refusal self.old.kept w 1 (length nodes.now + 1))) }
        ensures same { OnErr result (self.new ≡ self.old) }
    {
        let slots = counts::afford(&self.kept, w, 1, nodes.len() + 1)?;
        let number = counts::counts_of(&self.kept, w).cells;
        let maker = Maker {
            alloc,
            key: self.key,
        };
        let place = OwnPlace { widget: w, number };
        let id = bunch::add_bunch(
            maker,
            &mut self.names,
            &mut self.cells,
            &self.raws,
            place,
            nodes,
        )?;
        counts::pay(&mut self.kept, w, 1, slots);
        Ok(id)
    }

    /// Takes a name out. `Closed` comes exactly where the cell is a Bunch or the host's, and false
    /// exactly for the `length` of an Array.
    pub fn remove(&mut self, cell: CellId, name: &Text) -> Result<bool, StoreFault>
        requires { cell < length self.old.cells }
        ensures ok { IfOk result (λ answer. IsRemoved self.old self.new cell name.now answer) }
        ensures err { IfErr result (λ e. remove_refusal self.old cell ≡ Some e) }
        ensures same { OnErr result (self.new ≡ self.old) }

        // Its widget sees that, and another has what it had.
        ensures own { OnOk result ((w : ℕ) → SeesRemoved w self.old self.new cell name.now) }
        ensures others { (w : ℕ) → is_of_at w self.old.cells cell ≡ false → owned w self.new ≡ owned w self.old }
        ensures grows { (w : ℕ) → Grows w self.old.cells self.new.cells }
    {
        // These laws say that what other cells lead to stays.
        self.links_are_older();
        self.bunches_have_nodes();
        self.remove_in(cell, name)
    }

    // `remove`, without what widgets see of it.
    fn remove_in(&mut self, cell: CellId, name: &Text) -> Result<bool, StoreFault>
        requires { cell < length self.old.cells }
        ensures ok { IfOk result (λ answer. IsRemoved self.old self.new cell name.now answer) }
        ensures err { IfErr result (λ e. remove_refusal self.old cell ≡ Some e) }
        ensures same { OnErr result (self.new ≡ self.old) }
    {
        let held = table::cell(&self.cells, cell);
        let Some(_w) = held.writer() else {
            return Err(StoreFault::Closed);
        };
        if held.is_length(name) {
            return Ok(false);
        }
        let Some(n) = self.names.number(name) else {
            return Ok(true);
        };
        table::take(&self.names, &mut self.cells, cell, name, n);
        Ok(true)
    }

    /// Writes a variable in the innermost scope that has the name; false exactly where none has it.
    #[inline(always)]
    pub fn var_set(&mut self, scope: CellId, name: &Text, value: Value) -> bool
        requires at { scope < length self.old.cells }
        requires scope { is_scope_at self.old.cells scope ≡ true }
        requires value { IsRefWithin (length self.old.cells) value }
        ensures found { result ≡ is_some (holder self.old.cells scope name.now) }
        ensures done { self.new ≡ var_done self.old scope name.now value }

        // Its widget sees the write, and another has what it had.
        ensures own { (w : ℕ) → SeesSet w self.old self.new scope name.now value }
        ensures others { (w : ℕ) → is_held_by w self.old.cells scope name.now ≡ false
            → owned w self.new ≡ owned w self.old }
        ensures grows { (w : ℕ) → Grows w self.old.cells self.new.cells }
    {
        // These laws say that what other cells lead to stays.
        self.links_are_older();
        self.bunches_have_nodes();
        self.set_in(scope, name, value)
    }

    // `var_set`, without what widgets see of it.
    #[inline(always)]
    fn set_in(&mut self, scope: CellId, name: &Text, value: Value) -> bool
        requires at { scope < length self.old.cells }
        requires scope { is_scope_at self.old.cells scope ≡ true }
        requires value { IsRefWithin (length self.old.cells) value }
        ensures found { result ≡ is_some (holder self.old.cells scope name.now) }
        ensures done { self.new ≡ var_done self.old scope name.now value }
    {
        let Some(n) = self.names.number(name) else {
            return false;
        };
        let Some(spot) = table::holder(&self.cells, scope, n) else {
            return false;
        };
        table::set_variable(&self.names, &mut self.cells, spot, name, n, value);
        true
    }

    /// Adds to a whole number that a variable has, where the sum is a number of the language; its number
    /// before. Else nothing changes.
    #[inline(always)]
    pub fn var_add(&mut self, scope: CellId, name: &Text, by: i64) -> Option<i64>
        requires at { scope < length self.old.cells }
        requires scope { is_scope_at self.old.cells scope ≡ true }
        ensures some { IfSome result (λ z. IsAdded self.old self.new scope name.now by z) }
        ensures none { IfNone result (self.new ≡ self.old) }

        // Its widget sees the write, and another has what it had.
        ensures own { IfSome result (λ z. (w : ℕ)
            → SeesSet w self.old self.new scope name.now (Value.Num (Number.Whole (z +ℤ by)))) }
        ensures others { (w : ℕ) → is_held_by w self.old.cells scope name.now ≡ false
            → owned w self.new ≡ owned w self.old }
        ensures grows { (w : ℕ) → Grows w self.old.cells self.new.cells }
    {
        // These laws say that what other cells lead to stays.
        self.links_are_older();
        self.bunches_have_nodes();
        self.add_in(scope, name, by)
    }

    // `var_add`, without what widgets see of it.
    #[inline(always)]
    fn add_in(&mut self, scope: CellId, name: &Text, by: i64) -> Option<i64>
        requires at { scope < length self.old.cells }
        requires scope { is_scope_at self.old.cells scope ≡ true }
        ensures some { IfSome result (λ z. IsAdded self.old self.new scope name.now by z) }
        ensures none { IfNone result (self.new ≡ self.old) }
    {
        let n = self.names.number(name)?;
        let spot = table::holder(&self.cells, scope, n)?;
        let z = whole_in(table::cell(&self.cells, spot.cell).own(n))?;
        let sum = whole_sum(z, by)?;
        let value = Value::Num(Number::Whole(sum));
        table::set_variable(&self.names, &mut self.cells, spot, name, n, value);
        Some(z)
    }

    #[inline(always)]
    fn index_along(&self, cell: CellId, i: u32) -> Option<&Value>
        requires at { cell < length self.now.cells }
        requires index { i < 1073741824 }
        ensures { option_copied result ≡ value_along self.now.cells cell (decimal i) }
    {
        table::found(&self.cells, cell, self.names.of_index(i))
    }

    #[inline(always)]
    fn get_along(&self, cell: CellId, name: &Text) -> Option<&Value>
        requires { cell < length self.now.cells }
        ensures { option_copied result ≡ value_along self.now.cells cell name.now }
    {
        let n = self.names.number(name)?;
        table::found(&self.cells, cell, n)
    }
}
