//! What is told of slots and of a library: the refusals in order.
ghost use Rattle.std.specs.Prelude.{◌≡◌, ◌++◌, ◌||◌, ◌<◌, ◌^◌, length, All, IfOk, OnOk, decimal};
ghost use Rattle.trace_text.specs.Report.{rule_mark, rule_number};
ghost use Rattle.slot_check.specs.Verdicts.{sources_of, slot_of, IsSmall, AreJudged};
ghost use Rattle.slot_check.specs.Line.{slots_over};
ghost use Rattle.explain_run.specs.Text.{head, last_line, IsToldOfSlots, IsToldOfLibrary, AppendsRefusal, AppendsSlot, AppendsLibrary};

use crate::shown::push_source;
use crate::words::words_of;
use adsafe_rules::Scope;
use code_units::{Memory, Place, Text, place_in};
use itoa::Buffer;
use script_check::{ScriptFault, judge_script};
use slot_check::{Libraries, Refusal, SlotFault, SourceFile, judge_slot};
use std::alloc::Global;
use trace_text::Rule;

/// What is told, and whether a rule is broken.
#[derive(Drop)]
pub struct Told {
    pub refused: bool,
    pub bytes: Vec<u8>,
}

/// What is told of slots of these names with these files, over the libraries of their manifest.
pub fn tell_slots(
    alloc: Global,
    names: &[Text],
    files: &[SourceFile],
    libs: &[SourceFile],
) -> Result<Told, Memory>
    requires paired { length names.now ≡ length files.now }
    requires small { All IsSmall files.now }
    requires small_libs { All IsSmall libs.now }
    ensures { IfOk result (λ told. IsToldOfSlots
        (slots_over (sources_of libs.now) names.now (sources_of files.now)) told.refused told.bytes.items) }
{
    let mut judged = Libraries::new(alloc, libs)?;
    let mut bytes = Vec::new(alloc);
    let mut refused = false;
    'slots: for (i, name) in names.iter().enumerate() {
        let broken = tell_slot(alloc, name, &files[i], libs, &mut judged, &mut bytes)?;
        refused = either(refused, broken);
    }
    push_last(refused, &mut bytes)?;
    Ok(Told { refused, bytes })
}

// Whether one of two is so.
fn either(one: bool, other: bool) -> bool
    ensures { result ≡ (one || other) }
{
    one || other
}

// Appends what is told of a slot, and says whether it is refused.
fn tell_slot(
    alloc: Global,
    name: &Text,
    file: &SourceFile,
    libs: &[SourceFile],
    judged: &mut Libraries,
    out: &mut Vec<u8>,
) -> Result<bool, Memory>
    requires small { IsSmall file.now }
    requires small_libs { All IsSmall libs.now }
    requires judged { AreJudged (sources_of libs.now) judged.old }
    ensures text { IfOk result
        (λ refused. AppendsSlot (slot_of name.now file.now libs.now) refused out.old.items out.new.items) }
    ensures judged { AreJudged (sources_of libs.now) judged.new }
{
    match judge_slot(alloc, name, file, libs, judged) {
        Ok(widget) => {
            drop(widget);
            Ok(false)
        }
        Err(SlotFault::Broken(refusal)) => {
            let source = source_named(&refusal, file, libs);
            push_refusal(
                alloc,
                refusal.file.as_str(),
                refusal.rule,
                refusal.at,
                source,
                out,
            )?;
            Ok(true)
        }
        Err(SlotFault::Memory) => Err(Memory),
    }
}

// The bytes of the file that a refusal names: the slot's own, or a library's.
fn source_named<'a>(refusal: &Refusal, file: &'a SourceFile, libs: &'a [SourceFile]) -> &'a [u8] {
    if file.name == refusal.file {
        return &file.bytes;
    }
    'libs: for lib in libs {
        if lib.name == refusal.file {
            return &lib.bytes;
        }
    }
    &[]
}

/// What is told of a library under its name.
pub fn tell_library(alloc: Global, name: &str, library: &[u8]) -> Result<Told, Memory>
    requires { length library.now < 2 ^ 31 }
    ensures { IfOk result (λ told. IsToldOfLibrary name.now library.now told.refused told.bytes.items) }
{
    let mut bytes = Vec::new(alloc);
    let refused = tell_script(alloc, name, library, &mut bytes)?;
    push_last(refused, &mut bytes)?;
    Ok(Told { refused, bytes })
}

// Appends what is told of a library, and says whether it is refused.
fn tell_script(alloc: Global, name: &str, library: &[u8], out: &mut Vec<u8>) -> Result<bool, Memory>
    requires { length library.now < 2 ^ 31 }
    ensures { IfOk result (λ refused. AppendsLibrary name.now library.now refused out.old.items out.new.items) }
{
    match judge_script(alloc, &Scope::Lib, library) {
        Ok(accepted) => {
            drop(accepted);
            Ok(false)
        }
        Err(ScriptFault::Broken(breach)) => {
            let at = place_in(library, breach.at);
            push_refusal(alloc, name, Rule::A(breach.rule), at, library, out)?;
            Ok(true)
        }
        Err(ScriptFault::Memory) => Err(Memory),
    }
}

// Appends the line that ends the whole, where nothing is refused.
fn push_last(refused: bool, out: &mut Vec<u8>) -> Result<(), Memory>
    ensures { OnOk result (out.new.items ≡ out.old.items ++ last_line refused) }
{
    if refused {
        return Ok(());
    }
    Ok(out.extend_from_slice(b"no rule is broken\n")?)
}

// Appends the text of a refusal: its head and what the rule says, the source line with a mark below
// the place, and what to write instead.
fn push_refusal(
    alloc: Global,
    file: &str,
    rule: Rule,
    at: Place,
    source: &[u8],
    out: &mut Vec<u8>,
) -> Result<(), Memory>
    ensures { OnOk result (AppendsRefusal file.now rule at out.old.items out.new.items) }
{
    push_head(file, rule, at, out)?;
    let rest = rest_of(alloc, rule, at, source)?;
    Ok(out.extend_from_slice(&rest)?)
}

// Appends where a rule is broken, and which.
fn push_head(file: &str, rule: Rule, at: Place, out: &mut Vec<u8>) -> Result<(), Memory>
    ensures { OnOk result (out.new.items ≡ out.old.items ++ head file.now rule at) }
{
    out.extend_from_slice(file.as_bytes())?;
    out.extend_from_slice(b":")?;
    push_number(at.line, out)?;
    out.extend_from_slice(b":")?;
    push_number(at.column, out)?;
    out.extend_from_slice(b": ")?;
    out.extend_from_slice(mark(rule).as_bytes())?;
    push_number(u32::from(number(rule)), out)?;
    Ok(out.extend_from_slice(b": ")?)
}

// What stands behind the head.
fn rest_of(alloc: Global, rule: Rule, at: Place, source: &[u8]) -> Result<Vec<u8>, Memory> {
    let words = words_of(rule);
    let mut out = Vec::new(alloc);
    out.extend_from_slice(words.says.as_bytes())?;
    out.extend_from_slice(b"\n")?;
    push_source(alloc, source, at, &mut out)?;
    out.extend_from_slice(b"instead: ")?;
    out.extend_from_slice(words.instead.as_bytes())?;
    out.extend_from_slice(b"\n")?;
    Ok(out)
}

// What stands before the number of a rule: the letter, and a zero before a single digit.
fn mark(rule: Rule) -> &'static str
    ensures { result.now ≡ rule_mark rule }
{
    match rule {
        Rule::M(number) => { if number < 10 { "M0" } else { "M" } }
        Rule::A(number) => { if number < 10 { "A0" } else { "A" } }
    }
}

fn number(rule: Rule) -> u8
    ensures { result ≡ rule_number rule }
{
    match rule {
        Rule::M(number) | Rule::A(number) => number,
    }
}

/// Appends a number, in decimal digits.
pub fn push_number(n: u32, out: &mut Vec<u8>) -> Result<(), Memory>
    ensures { OnOk result (out.new.items ≡ out.old.items ++ decimal n) }
{
    let mut buffer = Buffer::new();
    Ok(out.extend_from_slice(buffer.format(n).as_bytes())?)
}
