//! The filters of a step without those that keep all nodes: one on nodes that stood before, and one
//! that keeps the first node where there is no second one.
ghost use Rattle.std.specs.Prelude.{◌≡◌, ◌≤◌, [], ◌∷◌, ◌++◌, length, take, drop, true, if◌then◌else◌, IfOk, OnOk};
ghost use Rattle.query_grammar.specs.Queries.{SpellsFilter};
ghost use Rattle.query_grammar.specs.Spelled.{filters_of, AreFilters, IsFirst};
ghost use Rattle.query_walks.specs.Classes.{class_words};
ghost use Rattle.query_walks.specs.Thinned.{KeepSame, LeavesSame, keeps_again, most_left, is_tried, classes_after, seen_after};

use crate::word::{Word, Words};
use code_units::Memory;
use indexmap::IndexSet;
use keyed_names::Keys;
use query_grammar::{Filter, ListFilter, StepFilter};
use query_text::{alike_end, first_filter};
use std::alloc::Global;
use std::marker::Model;

/// Filters to be tried one after the other. The words of those on classes are a set too, in which the
/// words of a node's class are looked up.
#[derive(Drop)]
pub struct TriedFilters<'a> {
    filters: Vec<StepFilter<'a>>,
    classes: Words<'a>,
}

impl<'a> Model for TriedFilters<'a> {
    ghost use Rattle.std.specs.Prelude.{◌≡◌, List};
    ghost use Rattle.query_grammar.specs.declared.query.StepFilter.{StepFilter};
    ghost use Rattle.query_walks.specs.Classes.{class_words};

    ghost Value = { List StepFilter };

    ghost view = { λ t. t.filters.items };

    ghost invariant = { λ t. t.classes.keys ≡ class_words t.filters.items };
}

impl<'a> TriedFilters<'a> {
    /// The filters.
    pub fn filters(&self) -> &[StepFilter<'a>]
        ensures { result.now ≡ self.now }
    {
        &self.filters
    }

    // The words of those on classes, in order.
    pub(crate) fn classes(&self) -> &Words<'a>
        ensures { result.now.keys ≡ class_words self.now }
    {
        &self.classes
    }
}

// The units before a place.
fn front(units: &[u16], place: usize) -> &[u16]
    requires { place ≤ length units.now }
    ensures { result.now ≡ take place units.now }
{
    &units[..place]
}

/// The units from a place on.
pub fn behind(units: &[u16], place: usize) -> &[u16]
    requires { place ≤ length units.now }
    ensures { result.now ≡ drop place units.now }
{
    &units[place..]
}

// How many nodes a filter leaves at most.
fn most_left(filter: &StepFilter<'_>, most: usize) -> usize
    ensures { result ≡ most_left filter.now most }
{
    match filter {
        StepFilter::Node(_) => most,
        StepFilter::List(ListFilter::First) => most.min(1),
        StepFilter::List(ListFilter::Rest) => most.saturating_sub(1),
        StepFilter::List(ListFilter::Even) => most - most / 2,
        StepFilter::List(ListFilter::Odd) => most / 2,
    }
}

// Whether a filter keeps all that it left, where these are at most so many.
fn keeps_again(filter: &StepFilter<'_>, most: usize) -> bool
    ensures { result ≡ keeps_again filter.now most }
{
    match filter {
        StepFilter::Node(_) => true,
        StepFilter::List(ListFilter::First) => most <= 1,
        StepFilter::List(ListFilter::Rest) => false,
        StepFilter::List(ListFilter::Even) => most <= 1,
        StepFilter::List(ListFilter::Odd) => false,
    }
}

// The units behind the first filter, which leaves at most so many nodes, and behind those that are
// spelled as it is where these keep all.
fn behind_alike<'a>(units: &'a [u16], filter: &StepFilter<'a>, end: usize, most: usize) -> &'a [u16]
    requires filters { AreFilters units.now }
    requires first { IsFirst units.now filter.now end }
    requires spelled { SpellsFilter filter.now units.now (drop end units.now) }
    ensures { LeavesSame units.now filter.now most result.now }
{
    if keeps_again(filter, most) {
        return behind(units, alike_end(units, 0, end));
    }
    behind(units, end)
}

// Whether a filter is to be tried, where at most so many nodes are left.
fn is_tried<'a>(
    classes: &mut Words<'a>,
    seen: &mut Words<'a>,
    units: &'a [u16],
    filter: &StepFilter<'a>,
    most: usize,
) -> Result<bool, Memory>
    ensures tried { IfOk result (λ tried.
        tried ≡ is_tried filter.now most classes.old.keys seen.old.keys units.now) }
    ensures classes { OnOk result (classes.new.keys ≡ classes_after filter.now classes.old.keys) }
    ensures seen { OnOk result (seen.new.keys ≡ seen_after filter.now seen.old.keys units.now) }
{
    match filter {
        StepFilter::Node(Filter::Class(word)) => Ok(classes.insert(Word::new(word.units()))?),
        StepFilter::Node(_) => Ok(seen.insert(Word::new(units))?),
        StepFilter::List(ListFilter::First) => Ok(most > 1),
        StepFilter::List(ListFilter::Rest) => Ok(true),
        StepFilter::List(ListFilter::Even) => Ok(most > 1),
        StepFilter::List(ListFilter::Odd) => Ok(true),
    }
}

// Puts a filter behind others, if it is to be tried.
fn keep_one<'a>(
    filter: StepFilter<'a>,
    tried: bool,
    kept: &mut Vec<StepFilter<'a>>,
) -> Result<(), Memory>
    ensures { OnOk result (kept.new.items ≡ (if tried then kept.old.items ++ filter.entry ∷ [] else kept.old.items)) }
{
    if tried {
        kept.push(filter)?;
    }
    Ok(())
}

/// The filters that units spell, without those that keep all nodes in any case where there are at
/// most so many before them. The keys are those of a table of words.
pub fn each_once(
    alloc: Global,
    keys: Keys,
    units: &[u16],
    nodes: usize,
) -> Result<TriedFilters<'_>, Memory>
    requires { AreFilters units.now }
    ensures { IfOk result (λ filters. KeepSame nodes (filters_of units.now) filters) }
{
    let mut classes = IndexSet::with_hasher(alloc, keys);
    let mut seen = IndexSet::with_hasher(alloc, keys);
    let mut kept = Vec::new(alloc);
    let mut most = nodes;
    let mut rest = units;
    'filters: while let Some((filter, end)) = first_filter(rest) {
        if most == 0 {
            return Ok(TriedFilters {
                filters: kept,
                classes,
            });
        }
        let tried = is_tried(&mut classes, &mut seen, front(rest, end), &filter, most)?;
        most = most_left(&filter, most);
        rest = behind_alike(rest, &filter, end, most);
        keep_one(filter, tried, &mut kept)?;
    }
    Ok(TriedFilters {
        filters: kept,
        classes,
    })
}
