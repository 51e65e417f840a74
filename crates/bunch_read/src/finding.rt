//! Bunches that are found from those of the receiver.
ghost use Rattle.std.specs.Prelude.{◌≡◌, ◌++◌, ℕ, [], ◌∷◌, Some, true, not, IfOk, OnOk, if◌then◌else◌, length, map, nat_eq};
ghost use Rattle.std.specs.List.{IsDistinct, filter_map, list_all};
ghost use Rattle.query_grammar.specs.Finds.{has_number};
ghost use Rattle.widget_meaning.specs.BunchReads as means;
ghost use Rattle.widget_meaning.specs.OwnState.{State, kept_at};
ghost use Rattle.widget_meaning.specs.PageForms.{once};
ghost use Rattle.widget_meaning.specs.Queries.{finds};
ghost use Rattle.widget_meaning.specs.Trees.{parent as meaning_parent};
ghost use Rattle.page_image.specs.Around.{Shows};
ghost use Rattle.event_loop.specs.Around.{focus as loop_focus};
ghost use Rattle.page_image.specs.Held.{OptionIn};
ghost use Rattle.page_image.specs.Image.{forest, number, owns};
ghost use Rattle.bunch_read.specs.Finding.{AreApart, Opens, added, begins_next};
ghost use Rattle.native_image.specs.Handed.{AreIts, IsSoundIn, Reads, numbers, sees};
ghost use Rattle.native_image.specs.Sound.{AreNodes};

use crate::queries::find;
use code_units::{Memory, Owner};
use event_loop::Loop;
use indexmap::IndexSet;
use js_image::Fault;
use js_values::{Meter, NativeOut};
use native_common::{WidgetId, is_object, read_text, take};
use native_image::{Shared, Widget, give_bunch};
use object_store::Value;
use page_image::{is_protected, made, parent};
use page_tree::{NodeId, Page};
use query_lang::{Hunter, Query, QueryFault, QueryStep, read_query};
use std::alloc::Global;

// Whether the first step of a query goes to the next sibling.
fn begins_next(query: &Query) -> bool
    ensures { result ≡ begins_next query.now }
{
    match query.steps.first() {
        Some(step) => matches!(step.hunter, Hunter::Next(_)),
        None => false,
    }
}

// Puts a node behind others.
fn push(list: &mut Vec<NodeId>, node: NodeId) -> Result<(), Memory>
    ensures { OnOk result (list.new.items ≡ list.old.items ++ node ∷ []) }
{
    list.push(node)?;
    Ok(())
}

// Keeps a node that is not protected.
fn keep_open(
    found: &mut Vec<NodeId>,
    node: NodeId,
    w: u32,
    page: &Page,
    around: &Loop,
) -> Result<(), Memory>
    requires { owns page.now w node ≡ true }
    ensures { (g : ℕ → ℕ) (s : State) → Shows page.now w g around.now s.own → OnOk result (found.new.items
        ≡ found.old.items ++ (if not (kept_at s (number page.now w node)).is_protected then node ∷ [] else [])) }
{
    if is_protected(around, page, w, node) {
        return Ok(());
    }
    push(found, node)
}

// The nodes that are not protected.
fn open_nodes(
    alloc: Global,
    list: &[NodeId],
    w: u32,
    page: &Page,
    around: &Loop,
) -> Result<Vec<NodeId>, Memory>
    requires { (n : ℕ) → has_number list.now n ≡ true → owns page.now w n ≡ true }
    ensures { (g : ℕ → ℕ) (s : State) → Shows page.now w g around.now s.own
        → IfOk result (λ ns. Opens page.now w s list.now ns.items) }
{
    let mut found = Vec::new(alloc);
    'each: for node in list {
        keep_open(&mut found, *node, w, page, around)?;
    }
    Ok(found)
}

// What a query finds from nodes.
fn found_from(
    alloc: Global,
    starts: &[NodeId],
    query: &Query,
    w: WidgetId,
    page: &Page,
    around: &Loop,
) -> Result<Vec<NodeId>, Memory>
    requires starts { (n : ℕ) → has_number starts.now n ≡ true → owns page.now w.index n ≡ true }
    requires apart { IsDistinct nat_eq (map (number page.now w.index) starts.now) }
    requires focus { OptionIn (owns page.now w.index) (loop_focus around.now) }
    ensures image { (g : ℕ → ℕ) (s : State) → Shows page.now w.index g around.now s.own → IfOk result (λ ns.
        map (number page.now w.index) ns.items ≡ finds s (map (number page.now w.index) starts.now) query.now) }
    ensures apart { IfOk result (λ ns. AreApart page.now w.index ns.items) }
{
    // In the widget's document each node stands once.
    page.nodes_stand_once(Owner::Widget(w.index));
    find(alloc, page, w.index, around.focus(), starts, query)
}

// What a query finds from nodes; protected ones are no starts of `+`.
fn found(
    alloc: Global,
    list: &[NodeId],
    query: &Query,
    w: WidgetId,
    page: &Page,
    around: &Loop,
) -> Result<Vec<NodeId>, Memory>
    requires nodes { AreNodes page.now w.index list.now }
    requires shown { (g : ℕ → ℕ) × (s : State) × Shows page.now w.index g around.now s.own }
    ensures image { (g : ℕ → ℕ) (s : State) → Shows page.now w.index g around.now s.own → IfOk result (λ ns.
        map (number page.now w.index) ns.items
        ≡ finds s (means.starts s query.now (map (number page.now w.index) list.now)) query.now) }
    ensures apart { IfOk result (λ ns. AreApart page.now w.index ns.items) }
{
    if begins_next(query) {
        let starts = open_nodes(alloc, list, w.index, page, around)?;
        found_from(alloc, &starts, query, w, page, around)
    } else {
        found_from(alloc, list, query, w, page, around)
    }
}

// How many steps a query has.
fn steps_len(query: &Query) -> usize
    ensures { result ≡ length query.now }
{
    let steps: &[QueryStep] = &query.steps;
    steps.len()
}

// `q` of a query that was read.
fn find_bunch(
    list: &[NodeId],
    query: &Query,
    shared: &mut Shared,
    meter: &mut Meter,
    widget: &Widget,
) -> Result<NativeOut, Memory>
    requires nodes { AreIts shared.old widget.now list.now }
    requires sound { IsSoundIn shared.old widget.now }
    ensures { Reads shared.old shared.new widget.now meter.old meter.new
        (λ d s. means.query_steps (Some query.now) (numbers shared.old widget.now list.now) s) result }
{
    let extra = steps_len(query).saturating_mul(made(&shared.page, widget.id.index) as usize);
    match take(meter, extra) {
        Ok(()) => {
            let nodes = found(
                shared.alloc,
                list,
                query,
                widget.id,
                &shared.page,
                &widget.around,
            )?;
            give_bunch(
                shared.alloc,
                &mut shared.store,
                widget.id,
                &shared.page,
                nodes,
            )
        }
        Err(_) => Ok(NativeOut::OutOfFuel),
    }
}

/// `q(query)`.
pub(crate) fn query(
    list: &[NodeId],
    text: &Value,
    shared: &mut Shared,
    meter: &mut Meter,
    widget: &Widget,
) -> Result<NativeOut, Memory>
    requires nodes { AreIts shared.old widget.now list.now }
    requires sound { IsSoundIn shared.old widget.now }
    ensures { Reads shared.old shared.new widget.now meter.old meter.new (λ d s. means.query
        (numbers shared.old widget.now list.now) (sees shared.old widget.now text.now) s) result }
{
    if is_object(text) {
        return Ok(NativeOut::Throw(Fault::E4));
    }
    let text = read_text(shared.alloc, text)?;
    match read_query(shared.alloc, &text) {
        Ok(query) => find_bunch(list, &query, shared, meter, widget),
        Err(QueryFault::BadQuery { .. }) => Ok(NativeOut::Throw(Fault::E9)),
        Err(QueryFault::Memory) => Err(Memory),
    }
}

// Whether a node has a parent and is not protected.
fn is_open(node: NodeId, w: u32, page: &Page, around: &Loop) -> bool
    requires { owns page.now w node ≡ true }
    ensures { (g : ℕ → ℕ) (s : State) → Shows page.now w g around.now s.own
        → result ≡ means.has_open_parent s (number page.now w node) }
{
    parent(page, w, node).is_some() && !is_protected(around, page, w, node)
}

// Whether each node has a parent and is not protected.
fn all_open(list: &[NodeId], w: u32, page: &Page, around: &Loop) -> bool
    requires { (n : ℕ) → has_number list.now n ≡ true → owns page.now w n ≡ true }
    ensures { (g : ℕ → ℕ) (s : State) → Shows page.now w g around.now s.own
        → result ≡ list_all (means.has_open_parent s) (map (number page.now w) list.now) }
{
    'each: for node in list {
        if !is_open(*node, w, page, around) {
            return false;
        }
    }
    true
}

// Marks a node, and tells whether it was not marked before.
fn mark_node(seen: &mut IndexSet<NodeId>, node: NodeId) -> Result<bool, Memory>
    ensures { IfOk result (λ new. (new ≡ not (has_number seen.old.keys node))
        × (seen.new.keys ≡ (if has_number seen.old.keys node then seen.old.keys else seen.old.keys ++ node ∷ []))) }
{
    Ok(seen.insert(node)?)
}

// Keeps a node that was not kept before.
fn keep_once(
    seen: &mut IndexSet<NodeId>,
    found: &mut Vec<NodeId>,
    node: NodeId,
) -> Result<(), Memory>
    requires { seen.old.keys ≡ found.old.items }
    ensures found { OnOk result (found.new.items
        ≡ (if has_number found.old.items node then found.old.items else found.old.items ++ node ∷ [])) }
    ensures same { OnOk result (seen.new.keys ≡ found.new.items) }
{
    if mark_node(seen, node)? {
        push(found, node)
    } else {
        Ok(())
    }
}

// Keeps the parent of a node, if it has one that was not kept before.
fn keep_parent(
    seen: &mut IndexSet<NodeId>,
    found: &mut Vec<NodeId>,
    node: NodeId,
    w: u32,
    page: &Page,
) -> Result<(), Memory>
    requires own { owns page.now w node ≡ true }
    requires same { seen.old.keys ≡ found.old.items }
    requires found { AreApart page.now w found.old.items }
    ensures image { (s : State) → s.own.forest ≡ forest page.now w
        → OnOk result (map (number page.now w) found.new.items
        ≡ added (map (number page.now w) found.old.items) (meaning_parent (number page.now w node) s.own.forest)) }
    ensures same { OnOk result (seen.new.keys ≡ found.new.items) }
    ensures found { OnOk result (AreApart page.now w found.new.items) }
{
    match parent(page, w, node) {
        Some(above) => keep_once(seen, found, above),
        None => Ok(()),
    }
}

// The parents of nodes, first seen first, each once.
fn parents(alloc: Global, list: &[NodeId], w: u32, page: &Page) -> Result<Vec<NodeId>, Memory>
    requires { (n : ℕ) → has_number list.now n ≡ true → owns page.now w n ≡ true }
    ensures image { (s : State) → s.own.forest ≡ forest page.now w → IfOk result (λ ns. map (number page.now w) ns.items
        ≡ once [] (filter_map (λ n. meaning_parent n s.own.forest) (map (number page.now w) list.now))) }
    ensures apart { IfOk result (λ ns. AreApart page.now w ns.items) }
{
    let mut seen = IndexSet::new(alloc);
    let mut found = Vec::new(alloc);
    'each: for node in list {
        keep_parent(&mut seen, &mut found, *node, w, page)?;
    }
    Ok(found)
}

/// `getParent()`.
pub(crate) fn get_parent(
    list: &[NodeId],
    shared: &mut Shared,
    meter: &mut Meter,
    widget: &Widget,
) -> Result<NativeOut, Memory>
    requires nodes { AreIts shared.old widget.now list.now }
    requires sound { IsSoundIn shared.old widget.now }
    ensures { Reads shared.old shared.new widget.now meter.old meter.new
        (λ d s. means.get_parent (numbers shared.old widget.now list.now) s) result }
{
    if !all_open(list, widget.id.index, &shared.page, &widget.around) {
        return Ok(NativeOut::Throw(Fault::E10));
    }
    match take(meter, list.len()) {
        Ok(()) => {
            let nodes = parents(shared.alloc, list, widget.id.index, &shared.page)?;
            give_bunch(
                shared.alloc,
                &mut shared.store,
                widget.id,
                &shared.page,
                nodes,
            )
        }
        Err(_) => Ok(NativeOut::OutOfFuel),
    }
}
