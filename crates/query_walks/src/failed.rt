//! Many filters on a list of nodes: which of them keep a node out. The class of a node is read once,
//! and not again for nodes behind it that have the same.
ghost use Rattle.std.specs.Prelude.{◌≡◌, ◌<◌, ◌≤◌, ◌+◌, ◌||◌, ℕ, length, take, drop, map, true, false, not, codes, get_or, set, IfOk, OnOk};
ghost use Rattle.std.specs.List.{filter, list_any, position_or_len};
ghost use Rattle.std.specs.Str.{bytes_eq};
ghost use Rattle.page_tree.specs.Pages.{nodes};
ghost use Rattle.query_grammar.specs.Filters.{words, has_class};
ghost use Rattle.query_grammar.specs.Finds.{has_number};
ghost use Rattle.query_walks.specs.Classes.{class_word, class_words};
ghost use Rattle.query_walks.specs.Nodes.{look};
ghost use Rattle.query_walks.specs.FirstFailed.{fails, failed_at, is_on_list};
ghost use Rattle.query_walks.specs.Walks.{AreNodes};

use crate::nodes::{test, units_behind, word_end};
use crate::once::TriedFilters;
use crate::word::{Word, Words};
use code_units::Memory;
use page_tree::{NodeId, Page};
use query_grammar::{Filter, StepFilter};
use std::alloc::Global;

// The most filters that are tried on each node one by one.
const FEW: usize = 8;

// Marks a place, and tells how many are left without a mark.
fn mark(found: &mut Vec<bool>, place: usize, left: usize) -> usize
    requires inside { place < length found.old.items }
    requires left { left ≡ length (filter not found.old.items) }
    ensures marked { found.new.items ≡ set found.old.items place true }
    ensures left { result ≡ length (filter not found.new.items) }
{
    if found[place] {
        return left;
    }
    found[place] = true;
    left - 1
}

// Marks the place of a word, if it is wanted, and tells how many are left without a mark.
fn mark_word<'a>(wanted: &Words<'a>, word: &'a [u16], found: &mut Vec<bool>, left: usize) -> usize
    requires long { length found.old.items ≡ length wanted.now.keys }
    requires left { left ≡ length (filter not found.old.items) }
    ensures marked { found.new.items
        ≡ set found.old.items (position_or_len (bytes_eq word.now) wanted.now.keys) true }
    ensures left { result ≡ length (filter not found.new.items) }
{
    match wanted.get_index_of(&Word::new(word)) {
        Some(place) => mark(found, place, left),
        None => left,
    }
}

// Of each wanted word whether it stands between spaces.
fn found_words<'a>(alloc: Global, wanted: &Words<'a>, units: &'a [u16]) -> Result<Vec<bool>, Memory>
    ensures { IfOk result (λ found. found.items
        ≡ map (λ word. list_any (bytes_eq word) (words units.now)) wanted.now.keys) }
{
    let mut left = wanted.len();
    let mut found = vec![in alloc; false; left]?;
    let mut rest = units;
    'words: while left > 0 {
        let end = word_end(rest);
        left = mark_word(wanted, &rest[..end], &mut found, left);
        if end == rest.len() {
            return Ok(found);
        }
        rest = units_behind(rest, end);
    }
    Ok(found)
}

// Of each wanted word whether it is in a node's class.
fn found_classes<'a>(
    alloc: Global,
    page: &'a Page,
    node: NodeId,
    wanted: &Words<'a>,
) -> Result<Vec<bool>, Memory>
    requires { node < length (nodes page.now) }
    ensures { IfOk result (λ found. found.items
        ≡ map (has_class (look (nodes page.now) node)) wanted.now.keys) }
{
    match page.attr_of_word(node, b"class") {
        Some(classes) => found_words(alloc, wanted, classes.units()),
        None => Ok(vec![in alloc; false; wanted.len()]?),
    }
}

// Whether a node fails a filter of a step. The first mark tells whether it has the class that the
// filter asks for, if it asks for one.
fn fails(
    page: &Page,
    focus: Option<NodeId>,
    node: NodeId,
    found: &[bool],
    filter: &StepFilter<'_>,
) -> bool
    requires node { node < length (nodes page.now) }
    requires found { take (length (class_word filter.now)) found.now
        ≡ map (has_class (look (nodes page.now) node)) (class_word filter.now) }
    ensures { result ≡ fails (nodes page.now) focus node filter.now }
{
    match filter {
        StepFilter::Node(Filter::Class(_)) => !found[0],
        StepFilter::Node(by) => !test(page, focus, node, by),
        StepFilter::List(_) => false,
    }
}

// The marks behind that of a filter.
fn behind_filter<'a>(found: &'a [bool], filter: &StepFilter<'_>) -> &'a [bool]
    requires { length (class_word filter.now) ≤ length found.now }
    ensures { result.now ≡ drop (length (class_word filter.now)) found.now }
{
    match filter {
        StepFilter::Node(Filter::Class(_)) => &found[1..],
        _ => found,
    }
}

// The place of the first filter that a node fails, or their number. The marks tell of each filter on
// a class whether the node has it.
fn failed_at(
    page: &Page,
    focus: Option<NodeId>,
    node: NodeId,
    found: &[bool],
    filters: &[StepFilter<'_>],
) -> usize
    requires node { node < length (nodes page.now) }
    requires found { found.now ≡ map (has_class (look (nodes page.now) node)) (class_words filters.now) }
    ensures place { result ≡ failed_at (nodes page.now) focus filters.now node }
    ensures inside { result ≤ length filters.now }
{
    let mut left = found;
    'each: for (i, filter) in filters.iter().enumerate() {
        if fails(page, focus, node, left, filter) {
            return i;
        }
        left = behind_filter(left, filter);
    }
    filters.len()
}

// Whether two nodes have the same class, or both have none.
fn has_same_class(page: &Page, node: NodeId, other: NodeId) -> bool
    requires node { node < length (nodes page.now) }
    requires other { other < length (nodes page.now) }
    ensures { result ≡ true → (look (nodes page.now) node).attribute (codes "class")
        ≡ (look (nodes page.now) other).attribute (codes "class") }
{
    if node == other {
        return true;
    }
    match (
        page.attr_of_word(node, b"class"),
        page.attr_of_word(other, b"class"),
    ) {
        (Some(classes), Some(others)) => *classes == *others,
        (None, None) => true,
        _ => false,
    }
}

// Looks the words of a node's class up, if they are not the same as before, those of another node.
fn look_up<'a>(
    alloc: Global,
    page: &'a Page,
    node: NodeId,
    wanted: &Words<'a>,
    before: NodeId,
    found: &mut Vec<bool>,
) -> Result<(), Memory>
    requires node { node < length (nodes page.now) }
    requires before { before < length (nodes page.now) }
    requires found { found.old.items ≡ map (has_class (look (nodes page.now) before)) wanted.now.keys }
    ensures { OnOk result (found.new.items ≡ map (has_class (look (nodes page.now) node)) wanted.now.keys) }
{
    if has_same_class(page, before, node) {
        return Ok(());
    }
    *found = found_classes(alloc, page, node, wanted)?;
    Ok(())
}

// Marks the place of the first filter that a node fails.
fn mark_failed(
    page: &Page,
    focus: Option<NodeId>,
    node: NodeId,
    filters: &TriedFilters<'_>,
    found: &[bool],
    failed: &mut Vec<bool>,
)
    requires node { node < length (nodes page.now) }
    requires found { found.now ≡ map (has_class (look (nodes page.now) node)) (class_words filters.now) }
    requires long { length failed.old.items ≡ length filters.now + 1 }
    ensures { failed.new.items ≡ set failed.old.items (failed_at (nodes page.now) focus filters.now node) true }
{
    failed[failed_at(page, focus, node, found, filters.filters())] = true;
}

// The marks of all nodes of a list, of which this one is the first.
fn mark_each(
    alloc: Global,
    page: &Page,
    focus: Option<NodeId>,
    filters: &TriedFilters<'_>,
    first: NodeId,
    list: &[NodeId],
) -> Result<Vec<bool>, Memory>
    requires nodes { AreNodes page.now list.now }
    requires first { first < length (nodes page.now) }
    ensures long { IfOk result (λ failed. length failed.items ≡ length filters.now + 1) }
    ensures marked { IfOk result (λ failed. (n : ℕ) → has_number list.now n ≡ true
        → get_or failed.items (failed_at (nodes page.now) focus filters.now n) false ≡ true) }
{
    let mut failed = vec![in alloc; false; filters.filters().len() + 1]?;
    let mut before = first;
    let mut found = found_classes(alloc, &*page, first, filters.classes())?;
    'each: for node in list {
        look_up(alloc, &*page, *node, filters.classes(), before, &mut found)?;
        before = *node;
        mark_failed(page, focus, *node, filters, &found, &mut failed);
    }
    Ok(failed)
}

/// The places of filters of a step, and the place behind them, each with whether it is marked. That
/// of the first filter that a node of a list fails is, or the place behind them where it fails none.
/// Of a few filters all places are marked, and nothing is tried.
pub fn mark_all_failed(
    alloc: Global,
    page: &Page,
    focus: Option<NodeId>,
    filters: &TriedFilters<'_>,
    list: &[NodeId],
) -> Result<Vec<bool>, Memory>
    requires { AreNodes page.now list.now }
    ensures long { IfOk result (λ failed. length failed.items ≡ length filters.now + 1) }
    ensures marked { IfOk result (λ failed. (n : ℕ) → has_number list.now n ≡ true
        → get_or failed.items (failed_at (nodes page.now) focus filters.now n) false ≡ true) }
{
    let count = filters.filters().len();
    match list.first() {
        Some(first) if count > FEW => mark_each(alloc, page, focus, filters, *first, list),
        _ => Ok(vec![in alloc; true; count + 1]?),
    }
}

/// Whether a filter of a step is to be tried, where the places at which nodes fail first are marked:
/// it is on lists, or its place is marked.
pub fn is_needed(failed: &[bool], place: usize, filter: &StepFilter) -> bool
    requires { place < length failed.now }
    ensures { result ≡ (is_on_list filter.now || get_or failed.now place false) }
{
    match filter {
        StepFilter::Node(_) => failed[place],
        StepFilter::List(_) => true,
    }
}
