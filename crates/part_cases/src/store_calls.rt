//! Calls of the store.
ghost use Rattle.object_store.specs.Calls.{IsMakeable};

use crate::answer::Answer;
use crate::keys;
use code_units::{Owner, Text};
use js_tree::FunId;
use object_store::{CELL_LIMIT, CellId, HostEntry, NewCell, Number, Store, StoreFault, Value};
use std::alloc::Global;

const WIDGET: Owner = Owner::Widget(3);

/// What a call gives in a store of its own.
pub fn answer_of_store(alloc: Global, words: &str) -> Option<Answer> {
    let mut store = Store::new(alloc, keys()).ok()?;
    called(alloc, &mut store, words)
}

fn called(alloc: Global, store: &mut Store, words: &str) -> Option<Answer> {
    match words {
        "put a name on a Bunch" => closed_bunch(alloc, store),
        "list the names of a Bunch" => bunch_keys(alloc, store),
        "put the length -1 on an Array" => negative_length(alloc, store),
        "remove the length of an Array" => removed_length(alloc, store),
        "add the RawNode of a node twice" => one_raw_node(alloc, store),
        "make an Object over as many cells as a widget may have" => full_cells(alloc, store),
        "make a Function as the last cell" => last_cell(alloc, store),
        _ => None,
    }
}

fn make(alloc: Global, store: &mut Store, cell: NewCell) -> Option<CellId>
    requires { IsMakeable store.old.cells cell }
{
    store.make(alloc, WIDGET, cell).ok()
}

// The refusal of a write.
fn put(alloc: Global, store: &mut Store, cell: CellId, word: &str, z: i64) -> Option<Answer> {
    let name = Text::from_str(alloc, word).ok()?;
    if cell as usize >= store.len() {
        return None;
    }
    match store.put(cell, &name, Value::Num(Number::Whole(z))) {
        Ok(()) => Some(Answer::Word("written")),
        Err(fault) => refusal(alloc, fault),
    }
}

fn refusal(alloc: Global, fault: StoreFault) -> Option<Answer> {
    match fault {
        StoreFault::Cells { kept } => {
            Some(Answer::Text(format!(in alloc; "Cells, {kept} kept\n").ok()?))
        }
        StoreFault::Closed => Some(Answer::Word("Closed")),
        StoreFault::BadLength => Some(Answer::Word("BadLength")),
        _ => None,
    }
}

// A Bunch of no nodes.
fn empty_bunch(alloc: Global, store: &mut Store) -> Option<CellId> {
    let nodes = Vec::new(alloc);
    make(alloc, store, NewCell::Bunch(nodes))
}

fn closed_bunch(alloc: Global, store: &mut Store) -> Option<Answer> {
    let bunch = empty_bunch(alloc, store)?;
    put(alloc, store, bunch, "a", 1)
}

fn bunch_keys(alloc: Global, store: &mut Store) -> Option<Answer> {
    let bunch = empty_bunch(alloc, store)?;
    if bunch as usize >= store.len() {
        return None;
    }
    let keys = store.keys(alloc, bunch).ok()?;
    Some(Answer::Count(keys.len(), "names"))
}

fn negative_length(alloc: Global, store: &mut Store) -> Option<Answer> {
    let array = make(alloc, store, NewCell::Array)?;
    put(alloc, store, array, "length", -1)
}

fn removed_length(alloc: Global, store: &mut Store) -> Option<Answer> {
    let array = make(alloc, store, NewCell::Array)?;
    let name = Text::from_str(alloc, "length").ok()?;
    if array as usize >= store.len() {
        return None;
    }
    match store.remove(array, &name) {
        Ok(removed) => Some(Answer::Is(removed)),
        Err(fault) => refusal(alloc, fault),
    }
}

fn one_raw_node(alloc: Global, store: &mut Store) -> Option<Answer> {
    let first = store.add_raw(alloc, 7).ok()?;
    let second = store.add_raw(alloc, 7).ok()?;
    let same = first == second;
    Some(Answer::Text(format!(in alloc; "the same cell: {same}\n").ok()?))
}

fn object(alloc: Global, store: &mut Store) -> Result<CellId, StoreFault> {
    let proto = store.host(HostEntry::ObjectPrototype);
    store.make(alloc, WIDGET, NewCell::Object(proto))
}

// Makes so many Objects.
fn make_objects(alloc: Global, store: &mut Store, count: u32) -> Option<()> {
    for _ in 0..count {
        object(alloc, store).ok()?;
    }
    Some(())
}

fn full_cells(alloc: Global, store: &mut Store) -> Option<Answer> {
    make_objects(alloc, store, CELL_LIMIT)?;
    made(alloc, object(alloc, store))
}

fn last_cell(alloc: Global, store: &mut Store) -> Option<Answer> {
    make_objects(alloc, store, CELL_LIMIT - 1)?;
    let function = NewCell::Function {
        code: 0,
        fun: FunId(0),
        declared: false,
        scope: None,
    };
    made(alloc, store.make(alloc, WIDGET, function))
}

fn made(alloc: Global, cell: Result<CellId, StoreFault>) -> Option<Answer> {
    match cell {
        Ok(_) => Some(Answer::Word("made")),
        Err(fault) => refusal(alloc, fault),
    }
}
