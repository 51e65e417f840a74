//! Reading a query.
ghost use Rattle.std.specs.Prelude.{◌≡◌, ◌+◌, ◌<◌, ◌≤◌, true, false, List, [], length, drop, ◌==◌, MatchResult, MatchOption, IfOk, IfErr, IfSome};
ghost use Rattle.std.specs.Str.{byte};
ghost use Rattle.query_text.specs.declared.QueryFault.TheVariants as fault;
ghost use Rattle.query_grammar.specs.declared.query.Hunter.{Hunter as Found};
ghost use Rattle.query_grammar.specs.declared.query.StepFilter.{StepFilter as Sifter};
ghost use Rattle.query_grammar.specs.Steps.{Step};
ghost use Rattle.query_grammar.specs.Queries.{goes_on, is_mark, SpellsFilter, QuerySpells};
ghost use Rattle.query_grammar.specs.Machine.{Between, Inside, Attribute, Keyword};
ghost use Rattle.query_text.specs.Runs.{is_space};
ghost use Rattle.query_text.specs.Faults.{IsQueryFault};
ghost use Rattle.query_grammar.specs.Spelled.{filters_of, AreFilters, IsFirst};
ghost use Rattle.query_text.specs.Reads.{IsHunterAt, IsFilterBehind, IsFilterAt, AreFiltersAt, StandFilters, Refuses, HasRoom};

use super::QueryFault;
use crate::again::alike_end;
use crate::parts::{Run, fits, keyword_of, name_at, part_at, part_of, run_end, stands, word_at};
use code_units::Text;
use query_grammar::{Filter, Filters, Hunter, Query, QueryStep, StepFilter};
use std::alloc::Global;

/// The most steps of a query.
const MOST: usize = 32;

const HASH: u16 = 0x23;

const AMPERSAND: u16 = 0x26;

const STAR: u16 = 0x2A;

const PLUS: u16 = 0x2B;

const POINT: u16 = 0x2E;

const SLASH: u16 = 0x2F;

const COLON: u16 = 0x3A;

const EQUALS: u16 = 0x3D;

const GREATER: u16 = 0x3E;

const OPEN: u16 = 0x5B;

const CLOSE: u16 = 0x5D;

const LOW_LINE: u16 = 0x5F;

// Whether a filter begins with the unit.
fn is_mark(unit: u16) -> bool
    ensures { result ≡ is_mark unit }
{
    matches!(unit, POINT | AMPERSAND | LOW_LINE | OPEN | COLON)
}

// The hunter at a place, and the place behind it.
fn hunter_at(alloc: Global, units: &[u16], at: usize) -> Result<(Hunter, usize), QueryFault>
    requires inside { at < length units.now }
    requires first { goes_on is_space (drop at units.now) ≡ false }
    ensures { MatchResult result
        (λ r. IsHunterAt units.now at r.0 r.1)
        (λ e. (steps : List Step) → HasRoom steps → Refuses units.now (Between steps) at e) }
{
    match units[at] {
        HASH => {
            let (word, end) = word_at(alloc, units, at + 1)?;
            Ok((Hunter::Id(word), end))
        }
        GREATER => {
            let start = run_end(units, at + 1, Run::Space);
            let (name, end) = name_at(alloc, units, start)?;
            Ok((Hunter::Child(name), end))
        }
        PLUS => {
            let start = run_end(units, at + 1, Run::Space);
            let (name, end) = name_at(alloc, units, start)?;
            Ok((Hunter::Next(name), end))
        }
        SLASH => Ok((Hunter::Children, at + 1)),
        STAR => Ok((Hunter::All, at + 1)),
        _ => {
            let (name, end) = name_at(alloc, units, at)?;
            Ok((Hunter::Tag(name), end))
        }
    }
}

// The filter on an attribute, from behind its bracket, and the place behind it; or the place at which
// it is refused, as below.
fn attribute_at(units: &[u16], at: usize) -> Result<(StepFilter<'_>, usize), usize>
    requires { at ≤ length units.now }
    ensures { MatchResult result
        (λ r. IsFilterBehind units.now (byte "[") at r.0 r.1)
        (λ place. (steps : List Step) (hunter : Found) (filters : List Sifter)
        → Refuses units.now (Attribute steps hunter filters) at (fault.BadQuery place)) }
{
    let (word, end) = part_at(units, at)?;
    if stands(units, end, CLOSE) {
        return Ok((StepFilter::Node(Filter::Has(word)), end + 1));
    }
    if !stands(units, end, EQUALS) {
        return Err(end);
    }
    let close = run_end(units, end + 1, Run::Value);
    if close == units.len() {
        return Err(close);
    }
    let value = part_of(units, end + 1, close);
    Ok((StepFilter::Node(Filter::Equals(word, value)), close + 1))
}

// The filter of the letters and digits at a place, from behind their colon, and the place behind
// them, if they are a keyword.
fn whole_keyword_at(units: &[u16], at: usize) -> Option<(StepFilter<'_>, usize)>
    requires { at ≤ length units.now }
    ensures { IfSome result (λ r. IsFilterBehind units.now (byte ":") at r.0 r.1) }
{
    let end = run_end(units, at, Run::Name);
    if end == at {
        return None;
    }
    let filter = keyword_of(&units[at..end])?;
    Some((filter, end))
}

// The filter of a keyword, from behind its colon, and the place behind it, unit by unit.
fn keyword_by_units(units: &[u16], at: usize) -> Result<(StepFilter<'_>, usize), usize>
    requires { at ≤ length units.now }
    ensures { MatchResult result
        (λ r. IsFilterBehind units.now (byte ":") at r.0 r.1)
        (λ place. (steps : List Step) (hunter : Found) (filters : List Sifter)
        → Refuses units.now (Keyword steps hunter filters []) at (fault.BadQuery place)) }
{
    let mut end = at;
    'keyword: while end < units.len() {
        let front = &units[at..end + 1];
        if let Some(filter) = keyword_of(front) {
            return Ok((filter, end + 1));
        }
        if !fits(front) {
            return Err(end);
        }
        end += 1;
    }
    Err(end)
}

// The filter of a keyword, from behind its colon, and the place behind it. Letters may stand behind
// a keyword, which then begin the next step.
fn keyword_at(units: &[u16], at: usize) -> Result<(StepFilter<'_>, usize), usize>
    requires { at ≤ length units.now }
    ensures { MatchResult result
        (λ r. IsFilterBehind units.now (byte ":") at r.0 r.1)
        (λ place. (steps : List Step) (hunter : Found) (filters : List Sifter)
        → Refuses units.now (Keyword steps hunter filters []) at (fault.BadQuery place)) }
{
    match whole_keyword_at(units, at) {
        Some(found) => Ok(found),
        None => keyword_by_units(units, at),
    }
}

// The filter at a place, and the place behind it.
fn filter_at(units: &[u16], at: usize) -> Result<(StepFilter<'_>, usize), usize>
    requires inside { at < length units.now }
    requires mark { goes_on is_mark (drop at units.now) ≡ true }
    ensures { MatchResult result
        (λ r. IsFilterAt units.now at r.0 r.1)
        (λ place. (steps : List Step) (hunter : Found) (filters : List Sifter)
        → Refuses units.now (Inside steps hunter filters) at (fault.BadQuery place)) }
{
    let unit = units[at];
    if unit == OPEN {
        return attribute_at(units, at + 1);
    }
    if unit == COLON {
        return keyword_at(units, at + 1);
    }
    let (word, end) = part_at(units, at + 1)?;
    if unit == POINT {
        return Ok((StepFilter::Node(Filter::Class(word)), end));
    }
    if unit == AMPERSAND {
        return Ok((StepFilter::Node(Filter::Name(word)), end));
    }
    Ok((StepFilter::Node(Filter::Kind(word)), end))
}

// The place behind the filters at a place, of which none is kept.
fn filters_end(units: &[u16], at: usize) -> Result<usize, usize>
    requires { at ≤ length units.now }
    ensures { MatchResult result
        (λ end. StandFilters units.now at end)
        (λ place. (steps : List Step) (hunter : Found)
        → Refuses units.now (Inside steps hunter []) at (fault.BadQuery place)) }
{
    let mut place = at;
    'filters: while place < units.len() {
        if !is_mark(units[place]) {
            return Ok(place);
        }
        let (_, next) = filter_at(units, place)?;
        place = alike_end(units, place, next);
    }
    Ok(place)
}

// The filters at a place, and the place behind them.
fn filters_at(text: &Text, units: &[u16], at: usize) -> Result<(Filters, usize), QueryFault>
    requires inside { at ≤ length units.now }
    requires same { text.now ≡ units.now }
    ensures { MatchResult result
        (λ r. AreFiltersAt units.now at r.0 r.1)
        (λ e. (steps : List Step) (hunter : Found) → Refuses units.now (Inside steps hunter []) at e) }
{
    match filters_end(units, at) {
        Ok(end) => Ok((Filters::of(text, at, end)?, end)),
        Err(at) => Err(QueryFault::BadQuery { at }),
    }
}

// Whether there are as many steps as a query may have.
fn is_full(steps: &[QueryStep]) -> bool
    ensures { result ≡ (length steps.now == 32) }
{
    steps.len() == MOST
}

fn has_none(steps: &[QueryStep]) -> bool
    ensures { result ≡ (length steps.now == 0) }
{
    steps.is_empty()
}

// The query that the units of a text spell.
fn read_units(alloc: Global, text: &Text, units: &[u16]) -> Result<Query, QueryFault>
    requires { text.now ≡ units.now }
    ensures query { IfOk result (λ query. QuerySpells units.now query) }
    ensures only { (steps : List Step) → QuerySpells units.now steps
        → MatchResult result (λ query. query ≡ steps) (λ e. e ≡ fault.Memory) }
    ensures place { IfErr result (λ e. IsQueryFault units.now e) }
{
    let mut steps = Vec::new(alloc);
    let mut at = run_end(units, 0, Run::Space);
    'steps: while at < units.len() {
        if is_full(&steps) {
            return Err(QueryFault::BadQuery { at });
        }
        let (hunter, behind) = hunter_at(alloc, units, at)?;
        let (filters, end) = filters_at(text, units, behind)?;
        steps.push(QueryStep { hunter, filters })?;
        at = run_end(units, end, Run::Space);
    }
    if has_none(&steps) {
        return Err(QueryFault::BadQuery { at });
    }
    Ok(Query { steps })
}

/// The query of a text.
///
/// A query is 1 to 32 steps with spaces before, between and behind them. `BadQuery` tells that the
/// text is none, with the exact place; `Memory` that there was no memory for it. Memory is taken for
/// steps and their words, and none for filters.
pub fn read_query(alloc: Global, text: &Text) -> Result<Query, QueryFault>
    // The query is the one that the text spells.
    ensures query { IfOk result (λ query. QuerySpells text.now query) }
    // Where it spells one, it is read, unless memory runs out.
    ensures only { (steps : List Step) → QuerySpells text.now steps
        → MatchResult result (λ query. query ≡ steps) (λ e. e ≡ fault.Memory) }
    // The place of a refusal is exact.
    ensures place { IfErr result (λ e. IsQueryFault text.now e) }
{
    read_units(alloc, text, text.units())
}

/// The first of the filters that the units spell, and the place behind it.
pub fn first_filter(units: &[u16]) -> Option<(StepFilter<'_>, usize)>
    requires { AreFilters units.now }
    ensures first { MatchOption result (filters_of units.now ≡ []) (λ r. IsFirst units.now r.0 r.1) }
    ensures spelled { IfSome result (λ r. SpellsFilter r.0 units.now (drop r.1 units.now)) }
{
    if units.is_empty() {
        return None;
    }
    match filter_at(units, 0) {
        Ok(found) => Some(found),
        Err(_) => unreachable!(),
    }
}
