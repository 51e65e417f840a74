//! The lines of slots.
ghost use Rattle.std.specs.Prelude.{◌≡◌, ◌++◌, ◌||◌, true, false, None, All, length, IfOk, OnOk, string_bytes};
ghost use Rattle.trace_text.specs.Report.{accepted_slot, refused_life};
ghost use Rattle.slot_check.specs.Line.{IsSlotLine, AreSlotLines, slots_over};
ghost use Rattle.slot_check.specs.Verdicts.{sources_of, slot_of, IsSmall, AreJudged};

use crate::fault::{Refusal, SlotFault};
use crate::libraries::Libraries;
use crate::sources::SourceFile;
use crate::verdict::judge_slot;
use code_units::{Memory, Text};
use script_check::JudgedText;
use std::alloc::Global;
use trace_text::{Line, report_line};

/// What is written of slots.
pub type SlotText = JudgedText;

/// The lines of slots in order, by their names and files, over the libraries of their manifest
/// (docs/PROGRAM.md, "The line").
pub fn slot_lines(
    alloc: Global,
    names: &[Text],
    files: &[SourceFile],
    libs: &[SourceFile],
) -> Result<JudgedText, Memory>
    requires paired { length names.now ≡ length files.now }
    requires small { All IsSmall files.now }
    requires small_libs { All IsSmall libs.now }
    ensures { IfOk result (λ lines. AreSlotLines
        (slots_over (sources_of libs.now) names.now (sources_of files.now)) lines.refused lines.bytes.items) }
{
    let mut judged = Libraries::new(alloc, libs)?;
    let mut text = JudgedText {
        refused: false,
        bytes: Vec::new(alloc),
    };
    'slots: for (i, name) in names.iter().enumerate() {
        let line = slot_line(alloc, name, &files[i], libs, &mut judged)?;
        append(&mut text, &line)?;
    }
    Ok(text)
}

/// The line of a slot with its file, over the libraries of its manifest.
pub fn slot_line(
    alloc: Global,
    name: &Text,
    file: &SourceFile,
    libs: &[SourceFile],
    judged: &mut Libraries,
) -> Result<JudgedText, Memory>
    requires small { IsSmall file.now }
    requires small_libs { All IsSmall libs.now }
    requires judged { AreJudged (sources_of libs.now) judged.old }
    ensures line { IfOk result (λ line. IsSlotLine (slot_of name.now file.now libs.now) line.refused line.bytes.items) }
    ensures judged { AreJudged (sources_of libs.now) judged.new }
{
    match judge_slot(alloc, name, file, libs, judged) {
        Ok(widget) => {
            drop(widget);
            accepted_line(alloc, name, file.name.as_str())
        }
        Err(SlotFault::Broken(refusal)) => refused_line(alloc, name, refusal),
        Err(SlotFault::Memory) => Err(Memory),
    }
}

// Appends a line.
fn append(text: &mut JudgedText, line: &JudgedText) -> Result<(), Memory>
    ensures bytes { OnOk result (text.new.bytes.items ≡ text.old.bytes.items ++ line.now.bytes.items) }
    ensures refused { OnOk result (text.new.refused ≡ (text.old.refused || line.now.refused)) }
{
    text.bytes.extend_from_slice(&line.bytes)?;
    text.refused = text.refused || line.refused;
    Ok(())
}

// The line of a slot that breaks no rule.
fn accepted_line(alloc: Global, name: &Text, file: &str) -> Result<JudgedText, Memory>
    ensures line { IfOk result (λ text. text.bytes.items ≡ accepted_slot name.now file.now) }
    ensures clean { IfOk result (λ text. text.refused ≡ false) }
{
    let line = Line::Accepted {
        name: name.share()?,
        file: String::from_str(alloc, file)?,
    };
    let mut bytes = Vec::new(alloc);
    report_line(&line, &mut bytes)?;
    Ok(JudgedText {
        refused: false,
        bytes,
    })
}

// The line of a slot that breaks a rule.
fn refused_line(alloc: Global, name: &Text, refusal: Refusal) -> Result<JudgedText, Memory>
    ensures line { IfOk result
        (λ text. text.bytes.items ≡ refused_life name.now None (string_bytes refusal.file) refusal.rule refusal.at) }
    ensures refused { IfOk result (λ text. text.refused ≡ true) }
{
    let line = Line::Refused {
        name: name.share()?,
        until: None,
        file: refusal.file,
        rule: refusal.rule,
        at: refusal.at,
    };
    let mut bytes = Vec::new(alloc);
    report_line(&line, &mut bytes)?;
    Ok(JudgedText {
        refused: true,
        bytes,
    })
}
