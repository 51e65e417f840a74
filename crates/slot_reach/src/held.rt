//! What a widget holds beside its cells: in its scopes, its handlers and its timers.
ghost use Rattle.std.specs.Prelude.{◌≡◌, ◌<◌, ◌++◌, ◌∷◌, [], IfSome, OnOk, if◌then◌else◌, length, map, slice_get};
ghost use Rattle.object_store.specs.Owned.{is_own_scope};
ghost use Rattle.page_image.specs.Image.{own};
ghost use Rattle.page_image.specs.Own.{is_own};
ghost use Rattle.page_tree.specs.Pages.{nodes};
ghost use Rattle.slot_reach.specs.Reads.{handler_refs, held_refs, pair_refs, ref_at, scope_refs, timer_refs};

use crate::counts::{count_cells, count_nodes};
use crate::references::{push_value, reference};
use code_units::{Memory, Owner, Text};
use event_loop::Loop;
use object_store::{CellId, CellKind, Store};
use page_tree::{NodeId, Page, same_owner};
use reach_cert::Ref;

// Whether a cell is one of a widget's scopes.
fn is_scope(store: &Store, w: u32, cell: CellId) -> bool
    requires { cell < length store.now.cells }
    ensures { IfSome (slice_get store.now.cells cell) (λ c. result ≡ is_own_scope w c) }
{
    match store.owner(cell) {
        Owner::Host => false,
        Owner::Widget(v) => v == w && matches!(store.kind(cell), CellKind::Scope),
    }
}

// What a scope refers to, in the order of its names.
fn push_scope(
    store: &Store,
    names: &[Option<Text>],
    scope: CellId,
    out: &mut Vec<Ref>,
) -> Result<(), Memory>
    requires { scope < length store.now.cells }
    ensures { OnOk result (IfSome (slice_get store.now.cells scope) (λ c.
        out.new.items ≡ out.old.items ++ pair_refs names.now store.now.cells c.pairs)) }
{
    'pairs: for at in 0..u32::MAX {
        let Some(value) = store.var_at(scope, at) else {
            return Ok(());
        };
        push_value(store, names, value, out)?;
    }
    Err(Memory)
}

// The same of a cell that is one of a widget's scopes; of another cell nothing.
fn push_if_scope(
    store: &Store,
    names: &[Option<Text>],
    w: u32,
    cell: CellId,
    out: &mut Vec<Ref>,
) -> Result<(), Memory>
    requires { cell < length store.now.cells }
    ensures { OnOk result (IfSome (slice_get store.now.cells cell) (λ c.
        out.new.items ≡ out.old.items ++
        (if is_own_scope w c then pair_refs names.now store.now.cells c.pairs else []))) }
{
    if is_scope(store, w, cell) {
        push_scope(store, names, cell, out)?;
    }
    Ok(())
}

// What a widget's scopes refer to, by birth.
fn push_scopes(
    store: &Store,
    names: &[Option<Text>],
    w: u32,
    out: &mut Vec<Ref>,
) -> Result<(), Memory>
    ensures { OnOk result (out.new.items ≡ out.old.items ++ scope_refs names.now store.now.cells w store.now.cells) }
{
    'cells: for cell in 0..count_cells(store)? {
        push_if_scope(store, names, w, cell, out)?;
    }
    Ok(())
}

// The functions that listen at a node, in order of listening.
fn push_listeners(
    store: &Store,
    names: &[Option<Text>],
    handlers: &[(Text, u32)],
    out: &mut Vec<Ref>,
) -> Result<(), Memory>
    ensures { OnOk result (out.new.items
        ≡ out.old.items ++ map (λ h. ref_at names.now store.now.cells h.1) handlers.now) }
{
    'each: for handler in handlers {
        out.push(reference(store, names, handler.1)?)?;
    }
    Ok(())
}

// The functions that listen at a node that is a widget's; of another node none.
fn push_at_node(
    store: &Store,
    names: &[Option<Text>],
    w: u32,
    page: &Page,
    around: &Loop,
    node: NodeId,
    out: &mut Vec<Ref>,
) -> Result<(), Memory>
    requires { node < length (nodes page.now) }
    ensures { OnOk result (out.new.items
        ≡ out.old.items ++ (if is_own (nodes page.now) w node then handler_refs names.now store.now.cells around.now
        (node ∷ []) else [])) }
{
    if same_owner(page.owner(node), Owner::Widget(w)) {
        push_listeners(store, names, around.handlers(node), out)?;
    }
    Ok(())
}

// The functions that listen at a widget's nodes.
fn push_handlers(
    store: &Store,
    names: &[Option<Text>],
    w: u32,
    page: &Page,
    around: &Loop,
    out: &mut Vec<Ref>,
) -> Result<(), Memory>
    ensures { OnOk result (out.new.items
        ≡ out.old.items ++ handler_refs names.now store.now.cells around.now (own page.now w)) }
{
    'nodes: for node in 0..count_nodes(page) {
        push_at_node(store, names, w, page, around, node, out)?;
    }
    Ok(())
}

// The functions of timers, by due time and start.
fn push_timers(
    store: &Store,
    names: &[Option<Text>],
    around: &Loop,
    out: &mut Vec<Ref>,
) -> Result<(), Memory>
    ensures { OnOk result (out.new.items ≡ out.old.items ++ timer_refs names.now store.now.cells around.now) }
{
    'timers: for at in 0..u32::MAX {
        let Some(timer) = around.timer(at) else {
            return Ok(());
        };
        out.push(reference(store, names, timer.func)?)?;
    }
    Err(Memory)
}

/// All that a widget holds.
pub(crate) fn push_held(
    store: &Store,
    names: &[Option<Text>],
    w: u32,
    page: &Page,
    around: &Loop,
    out: &mut Vec<Ref>,
) -> Result<(), Memory>
    ensures { OnOk result (out.new.items ≡ out.old.items ++ held_refs names.now store.now.cells w page.now around.now) }
{
    push_scopes(store, names, w, out)?;
    push_handlers(store, names, w, page, around, out)?;
    push_timers(store, names, around, out)
}
