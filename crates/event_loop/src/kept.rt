//! What is kept with nodes.
ghost use Rattle.std.specs.Prelude.{◌≡◌, Some, None, is_some, option_copied, nat_eq, OnOk, true, OnErr};
ghost use Rattle.std.specs.HashMap.{get_by};
ghost use Rattle.event_loop.specs.Kept.{kept_in, ChangedIn, SameIn, with_handler, without_handlers, with_mark, protected, left};

use code_units::{Memory, Text};
use indexmap::IndexMap;
use keyed_names::NumberKeys;
use std::alloc::Global;

/// What is kept with a node.
#[derive(Drop)]
pub(crate) struct Kept {
    pub handlers: Vec<(Text, u32)>,
    pub mark: Option<Text>,
    pub is_protected: bool,
}

/// What is kept, by the numbers of nodes.
pub(crate) type Table = IndexMap<u32, Kept, NumberKeys>;

// Adds a node with which nothing is kept, where it is not there.
fn add_node(table: &mut Table, alloc: Global, node: u32) -> Result<(), Memory>
    ensures same { SameIn table.old table.new }
    ensures there { OnOk result (is_some (get_by (nat_eq node) table.new) ≡ true) }
{
    if !table.contains_key(&node) {
        table.insert(
            node,
            Kept {
                handlers: Vec::new(alloc),
                mark: None,
                is_protected: false,
            },
        )?;
    }
    Ok(())
}

// One more handler of a node that is there.
fn push_handler(table: &mut Table, node: u32, kind: Text, func: u32) -> Result<(), Memory>
    ensures done { OnOk result (ChangedIn table.old table.new node (with_handler kind func)) }
    ensures same { OnErr result (SameIn table.old table.new) }
{
    match table.get_mut(&node) {
        Some(kept) => Ok(kept.handlers.push((kind, func))?),
        None => Err(Memory),
    }
}

/// The handlers of a node.
pub(crate) fn handlers(table: &Table, node: u32) -> &[(Text, u32)]
    ensures { result.now ≡ (kept_in table.now node).handlers }
{
    match table.get(&node) {
        Some(kept) => &kept.handlers,
        None => &[],
    }
}

/// The mark of a node.
pub(crate) fn mark(table: &Table, node: u32) -> Option<&Text>
    ensures { option_copied result ≡ (kept_in table.now node).mark }
{
    match table.get(&node) {
        Some(kept) => kept.mark.as_ref(),
        None => None,
    }
}

/// Whether a node is protected.
pub(crate) fn is_protected(table: &Table, node: u32) -> bool
    ensures { result ≡ (kept_in table.now node).is_protected }
{
    match table.get(&node) {
        Some(kept) => kept.is_protected,
        None => false,
    }
}

/// One more handler of a node.
pub(crate) fn listen(
    table: &mut Table,
    alloc: Global,
    node: u32,
    kind: Text,
    func: u32,
) -> Result<(), Memory>
    ensures done { OnOk result (ChangedIn table.old table.new node (with_handler kind func)) }
    ensures same { OnErr result (SameIn table.old table.new) }
{
    add_node(table, alloc, node)?;
    push_handler(table, node, kind, func)
}

// The mark of a node that is there.
fn put_mark(table: &mut Table, node: u32, text: Text) -> Result<(), Memory>
    requires { is_some (get_by (nat_eq node) table.old) ≡ true }
    ensures done { OnOk result (ChangedIn table.old table.new node (with_mark text)) }
    ensures same { OnErr result (SameIn table.old table.new) }
{
    match table.get_mut(&node) {
        Some(kept) => {
            kept.mark = Some(text);
            Ok(())
        }
        None => Err(Memory),
    }
}

/// Sets the mark of a node.
pub(crate) fn set_mark(
    table: &mut Table,
    alloc: Global,
    node: u32,
    text: Text,
) -> Result<(), Memory>
    ensures done { OnOk result (ChangedIn table.old table.new node (with_mark text)) }
    ensures same { OnErr result (SameIn table.old table.new) }
{
    add_node(table, alloc, node)?;
    put_mark(table, node, text)
}

// Protects a node that is there.
fn put_protected(table: &mut Table, node: u32)
    requires { is_some (get_by (nat_eq node) table.old) ≡ true }
    ensures { ChangedIn table.old table.new node protected }
{
    match table.get_mut(&node) {
        Some(kept) => kept.is_protected = true,
        None => unreachable!(),
    }
}

/// Protects a node.
pub(crate) fn protect(table: &mut Table, alloc: Global, node: u32) -> Result<(), Memory>
    ensures done { OnOk result (ChangedIn table.old table.new node protected) }
    ensures same { OnErr result (SameIn table.old table.new) }
{
    add_node(table, alloc, node)?;
    put_protected(table, node);
    Ok(())
}

// Takes handlers out of a list.
fn drop_handlers(handlers: &mut Vec<(Text, u32)>, kind: Option<&Text>)
    ensures { handlers.new.items ≡ left (option_copied kind.entry) handlers.old.items }
{
    match kind {
        Some(kind) => handlers.retain(|h| h.0 != *kind),
        None => handlers.clear(),
    }
}

/// Takes the handlers of a type from a node, or all.
pub(crate) fn hush(table: &mut Table, node: u32, kind: Option<&Text>)
    ensures { ChangedIn table.old table.new node (without_handlers (option_copied kind.entry)) }
{
    if let Some(kept) = table.get_mut(&node) {
        drop_handlers(&mut kept.handlers, kind);
    }
}
