//! The parts of a widget: its markup and its scripts.
ghost use Rattle.std.specs.Prelude.{◌≡◌, ◌<◌, All, IfOk, IfErr, OnOk, true};
ghost use Rattle.std.specs.List.{list_any};
ghost use Rattle.std.specs.Str.{bytes_eq};
ghost use Rattle.script_check.specs.Verdict.{IsAccepted};
ghost use Rattle.slot_check.specs.Slot.{IsIdClean};
ghost use Rattle.slot_check.specs.Slots.{IsSlot};
ghost use Rattle.slot_check.specs.Sources.{script_text};
ghost use Rattle.slot_check.specs.Verdicts.{source_of, sources_of, IsSmall, AreJudged, AreNamedClean, Refuses, IsMarkupRefusal, IsSpanRefusal, IsIdRefusal, IsNamedRefusal};

use crate::fault::{SlotFault, broken_in};
use crate::libraries::Libraries;
use crate::markup::{CheckMarkupFault, check_markup};
use crate::sources::SourceFile;
use adsafe_rules::{Accepted, Scope};
use code_units::Text;
use script_check::{ScriptFault, judge_script};
use std::alloc::Global;
use trace_text::Rule;
use widget_form::{Form, Span};

/// The form of a slot's file, by the names of the libraries.
pub fn judge_markup(
    alloc: Global,
    name: &Text,
    keys: &[Text],
    file: &SourceFile,
) -> Result<Form, SlotFault>
    requires { IsSmall file.now }
    ensures form { IfOk result (IsSlot name.now keys.now file.now.bytes.items) }
    ensures broken { IfErr result (Refuses (IsMarkupRefusal name.now keys.now (source_of file.now))) }
{
    match check_markup(alloc, name, keys, &file.bytes) {
        Ok(form) => Ok(form),
        Err(CheckMarkupFault::Broken { rule, at }) => {
            Err(broken_in(alloc, file, Rule::M(rule), at))
        }
        Err(CheckMarkupFault::Memory) => Err(SlotFault::Memory),
    }
}

/// Judges the `ADSAFE.id` script of a slot's file, where there is one.
pub fn judge_id(
    alloc: Global,
    name: &Text,
    file: &SourceFile,
    script: Option<Span>,
) -> Result<(), SlotFault>
    requires { IsSmall file.now }
    ensures clean { OnOk result (IsIdClean name.now file.now.bytes.items script) }
    ensures broken { IfErr result (Refuses (IsIdRefusal name.now (source_of file.now) script)) }
{
    let Some(span) = script else {
        return Ok(());
    };
    let scope = Scope::Id(name.share()?);
    judge_span(alloc, &scope, file, span)?;
    Ok(())
}

/// Judges the libraries of these names, in order; where they stand in the list.
pub fn judge_named(
    alloc: Global,
    names: &[Text],
    libs: &[SourceFile],
    judged: &mut Libraries,
) -> Result<Vec<usize>, SlotFault>
    requires listed { All (λ name. list_any (bytes_eq name) judged.old.keys.items ≡ true) names.now }
    requires small { All IsSmall libs.now }
    requires judged { AreJudged (sources_of libs.now) judged.old }
    ensures clean { IfOk result (λ places. AreNamedClean (sources_of libs.now) names.now places.items) }
    ensures broken { IfErr result (Refuses (IsNamedRefusal (sources_of libs.now) names.now)) }
    ensures judged { AreJudged (sources_of libs.now) judged.new }
{
    let mut places = Vec::new(alloc);
    'names: for name in names {
        let Some(place) = judged.place(name) else {
            unreachable!()
        };
        judged.judge(alloc, libs, place)?;
        places.push(place)?;
    }
    Ok(places)
}

/// Judges the script that stands there in a file.
#[tactic(auto, using(crate::proofs::Spans::shorter))]
pub fn judge_span(
    alloc: Global,
    scope: &Scope,
    file: &SourceFile,
    span: Span,
) -> Result<Accepted, SlotFault>
    requires { IsSmall file.now }
    ensures accepted { IfOk result (IsAccepted (script_text file.now.bytes.items span) scope.now) }
    ensures broken { IfErr result (Refuses (IsSpanRefusal (source_of file.now) span scope.now)) }
{
    match judge_script(alloc, scope, script_text(&file.bytes, span)) {
        Ok(accepted) => Ok(accepted),
        Err(ScriptFault::Broken(breach)) => {
            let at = span.from.saturating_add(breach.at);
            Err(broken_in(alloc, file, Rule::A(breach.rule), at))
        }
        Err(ScriptFault::Memory) => Err(SlotFault::Memory),
    }
}

// The text of a script in its file. What is past the end of the file is empty.
#[tactic(auto, using(crate::proofs::Spans::within_file))]
fn script_text(file: &[u8], span: Span) -> &[u8]
    ensures { result.now ≡ script_text file.now span }
{
    let from = span.from.min(file.len());
    let to = span.to.min(file.len()).max(from);
    &file[from..to]
}
