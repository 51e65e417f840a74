//! Words, names, runs and keywords among the units of a query.
ghost use Rattle.std.specs.Prelude.{◌≡◌, ◌+◌, ◌<◌, ◌≤◌, length, drop, slice_range, IfOk, MatchResult};
ghost use Rattle.query_grammar.specs.Queries.{is_lower, in_name, in_word};
ghost use Rattle.query_grammar.specs.Machine.{keyword_of, fits};
ghost use Rattle.query_text.specs.declared.QueryFault.TheVariants as fault;
ghost use Rattle.query_text.specs.Runs.{passes};
ghost use Rattle.query_text.specs.Reads.{is_first, IsRunAt, IsWordAt, IsNameAt, HasNone};

use super::QueryFault;
use code_units::{Memory, Text, begins_with, spells};
use query_grammar::{Filter, ListFilter, QueryWord, StepFilter};
use std::alloc::Global;

const CLOSE: u16 = 0x5D;

const SPACE: u16 = 0x20;

/// A class of units.
#[derive(Clone, Copy)]
pub enum Run {
    Name,
    Word,
    Value,
    Space,
}

fn is_lower(unit: u16) -> bool
    ensures { result ≡ is_lower unit }
{
    matches!(unit, 0x61..=0x7A)
}

fn in_name(unit: u16) -> bool
    ensures { result ≡ in_name unit }
{
    matches!(unit, 0x61..=0x7A | 0x30..=0x39)
}

/// Whether a unit goes on in a word.
pub fn in_word(unit: u16) -> bool
    ensures { result ≡ in_word unit }
{
    matches!(unit, 0x61..=0x7A | 0x41..=0x5A | 0x30..=0x39 | 0x5F | 0x2D)
}

fn passes(run: Run, unit: u16) -> bool
    ensures { result ≡ passes run unit }
{
    match run {
        Run::Name => in_name(unit),
        Run::Word => in_word(unit),
        Run::Value => unit != CLOSE,
        Run::Space => unit == SPACE,
    }
}

/// Whether the unit stands at a place.
pub fn stands(units: &[u16], at: usize, unit: u16) -> bool
    requires { at ≤ length units.now }
    ensures { result ≡ is_first unit (drop at units.now) }
{
    at < units.len() && units[at] == unit
}

/// The place behind the run at a place.
pub fn run_end(units: &[u16], at: usize, run: Run) -> usize
    requires { at ≤ length units.now }
    ensures { IsRunAt units.now (passes run) at result }
{
    let mut end = at;
    'run: while end < units.len() {
        if !passes(run, units[end]) {
            return end;
        }
        end += 1;
    }
    end
}

/// A text of the units between two places.
pub fn text_of(alloc: Global, units: &[u16], from: usize, to: usize) -> Result<Text, Memory>
    requires order { from ≤ to }
    requires inside { to ≤ length units.now }
    ensures { IfOk result (λ text. text ≡ slice_range units.now from to) }
{
    Text::from_units(alloc, units[from..to].to_vec(alloc)?)
}

/// The part between two places.
pub fn part_of(units: &[u16], from: usize, to: usize) -> QueryWord<'_>
    requires order { from ≤ to }
    requires inside { to ≤ length units.now }
    ensures { result ≡ slice_range units.now from to }
{
    QueryWord::new(&units[from..to])
}

/// The word at a place, as a part of the units, and the place behind it; or the place itself, where
/// none stands.
pub fn part_at(units: &[u16], at: usize) -> Result<(QueryWord<'_>, usize), usize>
    requires { at ≤ length units.now }
    ensures { MatchResult result
        (λ r. IsWordAt units.now at r.0 r.1)
        (λ place. HasNone units.now in_word at (fault.BadQuery place)) }
{
    let end = run_end(units, at, Run::Word);
    if end == at {
        return Err(at);
    }
    Ok((part_of(units, at, end), end))
}

/// The word at a place, and the place behind it.
pub fn word_at(alloc: Global, units: &[u16], at: usize) -> Result<(Text, usize), QueryFault>
    requires { at ≤ length units.now }
    ensures { MatchResult result
        (λ r. IsWordAt units.now at r.0 r.1)
        (λ e. HasNone units.now in_word at e) }
{
    let end = run_end(units, at, Run::Word);
    if end == at {
        return Err(QueryFault::BadQuery { at });
    }
    Ok((text_of(alloc, units, at, end)?, end))
}

/// The name at a place, and the place behind it.
pub fn name_at(alloc: Global, units: &[u16], at: usize) -> Result<(Text, usize), QueryFault>
    requires { at ≤ length units.now }
    ensures { MatchResult result
        (λ r. IsNameAt units.now at r.0 r.1)
        (λ e. HasNone units.now is_lower at e) }
{
    if at == units.len() {
        return Err(QueryFault::BadQuery { at });
    }
    if !is_lower(units[at]) {
        return Err(QueryFault::BadQuery { at });
    }
    let end = run_end(units, at + 1, Run::Name);
    Ok((text_of(alloc, units, at, end)?, end))
}

/// The filter of a keyword.
#[tactic(auto, unfolding(query_grammar::specs::Machine::keyword_of, query_grammar::specs::Machine::keywords))]
pub fn keyword_of(units: &[u16]) -> Option<StepFilter<'_>>
    ensures { result ≡ keyword_of units.now }
{
    if spells(units, b"checked") {
        return Some(StepFilter::Node(Filter::Checked));
    }
    if spells(units, b"unchecked") {
        return Some(StepFilter::Node(Filter::Unchecked));
    }
    if spells(units, b"enabled") {
        return Some(StepFilter::Node(Filter::Enabled));
    }
    if spells(units, b"disabled") {
        return Some(StepFilter::Node(Filter::Disabled));
    }
    if spells(units, b"focus") {
        return Some(StepFilter::Node(Filter::Focus));
    }
    if spells(units, b"first") {
        return Some(StepFilter::List(ListFilter::First));
    }
    if spells(units, b"rest") {
        return Some(StepFilter::List(ListFilter::Rest));
    }
    if spells(units, b"even") {
        return Some(StepFilter::List(ListFilter::Even));
    }
    if spells(units, b"odd") {
        return Some(StepFilter::List(ListFilter::Odd));
    }
    None
}

/// Whether some keyword begins with the units.
#[tactic(auto, unfolding(query_grammar::specs::Machine::fits, query_grammar::specs::Machine::keywords))]
pub fn fits(front: &[u16]) -> bool
    ensures { result ≡ fits front.now }
{
    begins_with(b"checked", front)
        || begins_with(b"unchecked", front)
        || begins_with(b"enabled", front)
        || begins_with(b"disabled", front)
        || begins_with(b"focus", front)
        || begins_with(b"first", front)
        || begins_with(b"rest", front)
        || begins_with(b"even", front)
        || begins_with(b"odd", front)
}
