//! Finding the nodes of a query.
ghost use Rattle.std.specs.Prelude.{◌≡◌, ◌==◌, ◌%◌, if◌then◌else◌, ◌<◌, ◌++◌, [], ◌∷◌, true, false, length, OnOk, IfOk};
ghost use Rattle.std.specs.List.{filter, flat_map};
ghost use Rattle.code_units.specs.declared.owner.Owner.{Owner};
ghost use Rattle.page_tree.specs.Owners.{is_owner};
ghost use Rattle.page_tree.specs.Pages.{nodes, root};
ghost use Rattle.query_walks.specs.Nodes.{passes};
ghost use Rattle.query_walks.specs.Finds.{hunted, in_order, filtered, all_filtered, finds, AreOwned};
ghost use Rattle.query_grammar.specs.Finds.{at_places, sifted};
ghost use Rattle.query_grammar.specs.Spelled.{filters_of, AreFilters};
ghost use Rattle.query_walks.specs.Walks.{AreNodes};

use code_units::{Memory, Owner};
use page_tree::{NodeId, Page};
use query_grammar::{Filter, Filters, ListFilter, Query, QueryStep, StepFilter};
use query_text::first_filter;
use query_walks::failed::{is_needed, mark_all_failed};
use query_walks::hunt::hunt_in_order;
use query_walks::nodes::test;
use query_walks::once::{TriedFilters, behind, each_once};
use std::alloc::Global;

// The most units of a step's filters that are tried one by one.
const LONG: usize = 32;

// Keeps a node if it passes.
fn keep_one(
    page: &Page,
    focus: Option<NodeId>,
    by: &Filter<'_>,
    node: NodeId,
    kept: &mut Vec<NodeId>,
) -> Result<(), Memory>
    requires { node < length (nodes page.now) }
    ensures { OnOk result (kept.new.items
        ≡ kept.old.items ++ filter (passes (nodes page.now) focus by.now) (node ∷ [])) }
{
    if test(page, focus, node, by) {
        kept.push(node)?;
    }
    Ok(())
}

// The nodes that a filter keeps.
fn keep(
    alloc: Global,
    page: &Page,
    focus: Option<NodeId>,
    by: &Filter<'_>,
    list: &[NodeId],
) -> Result<Vec<NodeId>, Memory>
    requires { AreNodes page.now list.now }
    ensures { IfOk result (λ kept. kept.items ≡ filter (passes (nodes page.now) focus by.now) list.now) }
{
    let mut kept = Vec::new(alloc);
    'each: for node in list {
        keep_one(page, focus, by, *node, &mut kept)?;
    }
    Ok(kept)
}

// Keeps a node if its place has this rest.
fn place_one(place: usize, rest: usize, node: NodeId, kept: &mut Vec<NodeId>) -> Result<(), Memory>
    ensures { OnOk result (kept.new.items ≡ kept.old.items ++ (if place % 2 == rest then node ∷ [] else [])) }
{
    if place % 2 == rest {
        kept.push(node)?;
    }
    Ok(())
}

// The nodes at even places, for the rest 0, or at odd ones, for 1.
fn at_places(alloc: Global, rest: usize, list: &[NodeId]) -> Result<Vec<NodeId>, Memory>
    ensures { IfOk result (λ kept. kept.items ≡ at_places rest list.now) }
{
    let mut kept = Vec::new(alloc);
    'each: for (i, node) in list.iter().enumerate() {
        place_one(i, rest, *node, &mut kept)?;
    }
    Ok(kept)
}

// The nodes that a filter on lists keeps.
fn sift(alloc: Global, filter: ListFilter, mut list: Vec<NodeId>) -> Result<Vec<NodeId>, Memory>
    ensures { IfOk result (λ kept. kept.items ≡ sifted filter list.items) }
{
    match filter {
        ListFilter::First => {
            list.truncate(1);
            Ok(list)
        }
        ListFilter::Rest => Ok(list.iter().skip(1).copied().collect(alloc)?),
        ListFilter::Even => at_places(alloc, 0, &list),
        ListFilter::Odd => at_places(alloc, 1, &list),
    }
}

// The nodes that a filter keeps of the list so far.
fn filter_one(
    alloc: Global,
    page: &Page,
    focus: Option<NodeId>,
    filter: &StepFilter<'_>,
    list: Vec<NodeId>,
) -> Result<Vec<NodeId>, Memory>
    requires { AreNodes page.now list.items }
    ensures { IfOk result (λ kept. kept.items ≡ filtered (nodes page.now) focus filter.now list.items) }
{
    match filter {
        StepFilter::Node(by) => keep(alloc, page, focus, by, &list),
        StepFilter::List(filter) => sift(alloc, *filter, list),
    }
}

// The nodes that a filter keeps, which are all where it is not needed.
fn filter_needed(
    alloc: Global,
    page: &Page,
    focus: Option<NodeId>,
    filter: &StepFilter<'_>,
    needed: bool,
    list: Vec<NodeId>,
) -> Result<Vec<NodeId>, Memory>
    requires nodes { AreNodes page.now list.items }
    requires all { needed ≡ false → filtered (nodes page.now) focus filter.now list.items ≡ list.items }
    ensures { IfOk result (λ kept. kept.items ≡ filtered (nodes page.now) focus filter.now list.items) }
{
    if needed {
        return filter_one(alloc, page, focus, filter, list);
    }
    Ok(list)
}

// The nodes that many filters keep: of those on nodes only the first ones that nodes fail are tried.
fn filter_many(
    alloc: Global,
    page: &Page,
    focus: Option<NodeId>,
    filters: &TriedFilters<'_>,
    list: Vec<NodeId>,
) -> Result<Vec<NodeId>, Memory>
    requires { AreNodes page.now list.items }
    ensures { IfOk result (λ kept. kept.items ≡ all_filtered (nodes page.now) focus filters.now list.items) }
{
    let failed = mark_all_failed(alloc, page, focus, filters, &list)?;
    let mut kept = list;
    'each: for (i, filter) in filters.filters().iter().enumerate() {
        let needed = is_needed(&failed, i, filter);
        kept = filter_needed(alloc, page, focus, filter, needed, kept)?;
    }
    Ok(kept)
}

// The nodes that a few filters keep, one after the other.
fn filter_few(
    alloc: Global,
    page: &Page,
    focus: Option<NodeId>,
    units: &[u16],
    list: Vec<NodeId>,
) -> Result<Vec<NodeId>, Memory>
    requires nodes { AreNodes page.now list.items }
    requires filters { AreFilters units.now }
    ensures { IfOk result (λ kept. kept.items
        ≡ all_filtered (nodes page.now) focus (filters_of units.now) list.items) }
{
    let mut kept = list;
    let mut rest = units;
    'each: while let Some((filter, end)) = first_filter(rest) {
        kept = filter_one(alloc, page, focus, &filter, kept)?;
        rest = behind(rest, end);
    }
    Ok(kept)
}

// The nodes that filters keep. Of many each is tried once.
fn filter_all(
    alloc: Global,
    page: &Page,
    focus: Option<NodeId>,
    filters: &Filters,
    list: Vec<NodeId>,
) -> Result<Vec<NodeId>, Memory>
    requires { AreNodes page.now list.items }
    ensures { IfOk result (λ kept. kept.items ≡ all_filtered (nodes page.now) focus filters.now list.items) }
{
    if list.is_empty() {
        return Ok(list);
    }
    let units = filters.units();
    if units.len() > LONG {
        let once = each_once(alloc, page.keys(), units, list.len())?;
        return filter_many(alloc, page, focus, &once, list);
    }
    filter_few(alloc, page, focus, units, list)
}

// What a step finds from nodes of an owner.
fn take_step(
    alloc: Global,
    page: &Page,
    owner: Owner,
    focus: Option<NodeId>,
    step: &QueryStep,
    starts: &[NodeId],
) -> Result<Vec<NodeId>, Memory>
    requires owner { is_owner owner ≡ true }
    requires nodes { AreNodes page.now starts.now }
    ensures { IfOk result (λ found. found.items ≡ all_filtered (nodes page.now) focus step.now.filters
        (in_order (nodes page.now) (root page.now owner) owner
        (flat_map (hunted (nodes page.now) (root page.now owner) step.now.hunter) starts.now))) }
{
    let list = hunt_in_order(alloc, page, owner, &step.hunter, starts)?;
    filter_all(alloc, page, focus, &step.filters, list)
}

// What the steps find from nodes of an owner.
fn take_steps(
    alloc: Global,
    page: &Page,
    owner: Owner,
    focus: Option<NodeId>,
    steps: &[QueryStep],
    starts: &[NodeId],
) -> Result<Vec<NodeId>, Memory>
    requires owner { is_owner owner ≡ true }
    requires nodes { AreNodes page.now starts.now }
    ensures { IfOk result (λ found. found.items ≡ finds page.now owner focus starts.now steps.now) }
{
    let mut list = starts.to_vec(alloc)?;
    'each: for step in steps {
        list = take_step(alloc, page, owner, focus, step, &list)?;
    }
    Ok(list)
}

/// What a query finds from nodes of one widget, which has the focus at this node or nowhere: in
/// document order and without repeats. A widget's document order is that of its root's tree, and
/// then of its detached trees by the age of their tops.
pub fn find(
    alloc: Global,
    page: &Page,
    focus: Option<NodeId>,
    starts: &[NodeId],
    query: &Query,
) -> Result<Vec<NodeId>, Memory>
    requires { AreNodes page.now starts.now }
    ensures { (o : Owner) → AreOwned page.now o starts.now
        → IfOk result (λ found. found.items ≡ finds page.now o focus starts.now query.now) }
{
    match starts.first() {
        Some(first) => { take_steps(alloc, page, page.owner(*first), focus, &query.steps, starts) }
        None => Ok(Vec::new(alloc)),
    }
}
