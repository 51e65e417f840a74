//! The names that `for-in` lists.
ghost use Rattle.std.specs.Prelude.{◌≡◌, ℕ, ◌<◌, ◌++◌, List, [], ◌∷◌, Option, IfOk, IfSome, OnOk, if◌then◌else◌, is_some, length, not, slice_get};
ghost use Rattle.std.specs.List.{AllByRecursion, list_any};
ghost use Rattle.js_tree.specs.Forest.{Forest};
ghost use Rattle.store_cells.specs.Cells.{widget_of};
ghost use Rattle.store_cells.specs.Shape.{IsRefWithin};
ghost use Rattle.object_store.specs.Calls.{keys_at};
ghost use Rattle.widget_meaning.specs.Properties as properties;
ghost use Rattle.js_image.specs.Image.{Rest, image, seen};
ghost use Rattle.js_image.specs.Held.{IsConfined, IsFine};
ghost use Rattle.js_image.specs.Elements.{is_listed_in, stored_names};

use crate::laws::lawful;
use crate::reading::cell_of;
use code_units::{Memory, Owner, Text};
use object_store::{CellId, Store, Value};
use std::alloc::Global;

// How many cells a chain has at most: one and its prototypes.
const LONGEST: u32 = 101;

/// The names that `for-in` lists of a value: its own permitted names in order of insertion, then those
/// of each cell of the widget on its prototype chain that are not listed yet.
pub fn for_in_names(alloc: Global, store: &Store, base: &Value) -> Result<Vec<Text>, Memory>
    requires { IsRefWithin (length store.now.cells) base.now }
    ensures { IfOk result (λ names. (fs : List Forest) (r : Rest) (w : ℕ)
        → IsConfined fs w store.now → IsFine w store.now.cells base.now
        → names.items ≡ properties.names_of (image fs r w store.now) (seen w store.now.cells base.now)) }
{
    lawful(store);
    store.bunches_have_nodes();
    names_along(alloc, store, cell_of(base))
}

// The same by the cells of the store.
fn names_along(alloc: Global, store: &Store, from: Option<CellId>) -> Result<Vec<Text>, Memory>
    requires { IfSome from (λ i. i < length store.now.cells) }
    ensures { IfOk result (λ names. names.items ≡ stored_names LONGEST store.now.cells from []) }
{
    // This law says that prototypes exist.
    store.links_are_older();
    let mut names = Vec::new(alloc);
    let mut behind = Vec::new(alloc);
    let mut at = from;
    for _link in 0..LONGEST {
        let Some(cell) = at else {
            return Ok(names);
        };
        if is_hosts(store, cell) {
            return Ok(names);
        }
        push_names(alloc, store, cell, &behind, &mut names)?;
        behind.push(cell)?;
        at = store.proto(cell);
    }
    Ok(names)
}

fn is_hosts(store: &Store, cell: CellId) -> bool
    requires { cell < length store.now.cells }
    ensures { IfSome (slice_get store.now.cells cell) (λ c. result ≡ not (is_some (widget_of c.owner))) }
{
    match store.owner(cell) {
        Owner::Host => true,
        Owner::Widget(_) => false,
    }
}

// Puts the names of a cell behind those that are listed: those of the cells behind.
fn push_names(
    alloc: Global,
    store: &Store,
    cell: CellId,
    behind: &Vec<CellId>,
    names: &mut Vec<Text>,
) -> Result<(), Memory>
    requires cell { cell < length store.now.cells }
    requires behind { AllByRecursion (λ i. i < length store.now.cells) behind.now.items }
    requires listed { (y : List ℕ)
        → properties.is_listed names.old.items y ≡ list_any (is_listed_in store.now.cells y) behind.now.items }
    ensures { OnOk result (names.new.items ≡ properties.listed names.old.items (keys_at store.now.cells cell)) }
{
    let own = store.keys(alloc, cell)?;
    push_all(store, behind, &own, names)
}

// Puts names behind those that are listed.
fn push_all(
    store: &Store,
    behind: &Vec<CellId>,
    own: &Vec<Text>,
    names: &mut Vec<Text>,
) -> Result<(), Memory>
    requires behind { AllByRecursion (λ i. i < length store.now.cells) behind.now.items }
    requires listed { (y : List ℕ)
        → properties.is_listed names.old.items y ≡ list_any (is_listed_in store.now.cells y) behind.now.items }
    ensures { OnOk result (names.new.items ≡ properties.listed names.old.items own.now.items) }
{
    for name in own {
        push_name(store, behind, name, names)?;
    }
    Ok(())
}

// Puts a name behind others, where no cell behind lists it.
fn push_name(
    store: &Store,
    behind: &Vec<CellId>,
    name: &Text,
    names: &mut Vec<Text>,
) -> Result<(), Memory>
    requires behind { AllByRecursion (λ i. i < length store.now.cells) behind.now.items }
    ensures { OnOk result (names.new.items ≡ names.old.items
        ++ (if list_any (is_listed_in store.now.cells name.now) behind.now.items then [] else name.now ∷ [])) }
{
    if !is_behind(store, behind, name) {
        names.push(name.share()?)?;
    }
    Ok(())
}

// Whether one of some cells lists a name.
fn is_behind(store: &Store, behind: &Vec<CellId>, name: &Text) -> bool
    requires { AllByRecursion (λ i. i < length store.now.cells) behind.now.items }
    ensures { result ≡ list_any (is_listed_in store.now.cells name.now) behind.now.items }
{
    for cell in behind {
        if store.lists(*cell, name) {
            return true;
        }
    }
    false
}
