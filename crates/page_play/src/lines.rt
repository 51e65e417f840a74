//! Lines of lives.
ghost use Rattle.std.specs.Prelude.{◌≡◌, None, Option, Some, IfOk, option_map, string_bytes};
ghost use Rattle.trace_text.specs.Report.{state_name, line_text, refused_life};
ghost use Rattle.widget_meaning.specs.OwnState.{OwnState};
ghost use Rattle.slot_lives.specs.Lines.{life_line, short_line, state_word};
ghost use Rattle.widget_host.specs.Housed.{IsLineOf, meant_stop};

use code_units::{Memory, Text};
use js_image::StopCause;
use slot_check::Refusal;
use std::alloc::Global;
use trace_text::{Line, RunText, State};
use widget_host::{LifeStop, RunLine};

/// What a life did, under its name; `until` is the position of the swap that ended it, counted from 1.
pub fn run_text(name: Text, until: Option<u32>, line: RunLine) -> RunText
    ensures whole { (own : OwnState) → IsLineOf line own → line_text (Line.Ran result) ≡ life_line name until own }
    ensures short { (own : OwnState) → IsLineOf line own → until ≡ None
        → line_text (Line.Short result) ≡ short_line name own }
{
    RunText {
        name,
        until,
        state: state_of(line.stop),
        turns: line.turns,
        spent: line.spent,
        missed: line.missed,
        gone: line.gone,
        log: line.log,
        uncaught: line.uncaught,
    }
}

// How a life stands.
fn state_of(stop: Option<LifeStop>) -> State
    ensures { state_name result ≡ state_word (option_map meant_stop stop) }
{
    match stop {
        None => State::Live,
        Some(LifeStop::Fuel) => State::Fuel,
        Some(LifeStop::Limit(StopCause::Number)) => State::Number,
        Some(LifeStop::Limit(StopCause::Depth)) => State::Depth,
        Some(LifeStop::Limit(StopCause::Cells)) => State::Cells,
        Some(LifeStop::Limit(StopCause::Slots)) => State::Slots,
        Some(LifeStop::Limit(StopCause::Units)) => State::Units,
        Some(LifeStop::Limit(StopCause::LongText)) => State::LongText,
        Some(LifeStop::Limit(StopCause::Nodes)) => State::Nodes,
    }
}

/// The line of a life whose file breaks this rule first, under the name of its slot; `until` is the position of
/// the swap that ended it, counted from 1. The only error is want of memory.
pub fn refused_line(
    alloc: Global,
    name: &Text,
    until: Option<u32>,
    refusal: &Refusal,
) -> Result<Line, Memory>
    ensures { IfOk result (λ line. line_text line
        ≡ refused_life name.now until (string_bytes refusal.now.file) refusal.now.rule refusal.now.at) }
{
    Ok(Line::Refused {
        name: name.share()?,
        until,
        file: String::from_str(alloc, refusal.file.as_str())?,
        rule: refusal.rule,
        at: refusal.at,
    })
}
