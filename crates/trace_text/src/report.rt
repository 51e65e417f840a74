//! The lines of a report.
ghost use Rattle.std.specs.Prelude.{◌≡◌, ◌++◌, OnOk};
ghost use Rattle.trace_text.specs.Report.{line_text, lib_accepted, lib_refused, accepted_slot, refused_life, run_members, run_notes, short_life, ran_life, page_line, line_end, AppendsPart};

use crate::line::{Line, Rule, RunText};
use crate::pieces::Piece::{Escaped, Number, Plain, Texts, Units, Until};
use crate::pieces::push_pieces;
use code_units::{Memory, Place, Text};

/// Appends a line of a report: a JSON object without blanks, and a line feed (docs/TRACES.md,
/// "Lines of a report"). A refusal leaves a part of it appended.
pub fn report_line(line: &Line, out: &mut Vec<u8>) -> Result<(), Memory>
    ensures ok { OnOk result (out.new.items ≡ out.old.items ++ line_text line.now) }
    ensures part { AppendsPart out.old.items out.new.items (line_text line.now) }
{
    match line {
        Line::Ran(run) => push_ran(run, out),
        Line::Short(run) => push_short(run, out),
        Line::Refused {
            name,
            until,
            file,
            rule,
            at,
        } => push_refused_life(name, *until, file.as_str(), *rule, *at, out),
        Line::Accepted { name, file } => push_accepted_slot(name, file.as_str(), out),
        Line::LibAccepted { file } => push_accepted(file.as_str(), out),
        Line::LibRefused { file, rule, at } => push_refused(file.as_str(), *rule, *at, out),
        Line::Page { text } => push_page(text, out),
    }
}

fn push_accepted(file: &str, out: &mut Vec<u8>) -> Result<(), Memory>
    ensures ok { OnOk result (out.new.items ≡ out.old.items ++ lib_accepted file.now) }
    ensures part { AppendsPart out.old.items out.new.items (lib_accepted file.now) }
{
    let pieces = [
        Plain("{\"file\":\""),
        Escaped(file.as_bytes()),
        Plain("\",\"accepted\":true}\n"),
    ];
    push_pieces(&pieces, out)
}

fn push_refused(file: &str, rule: Rule, at: Place, out: &mut Vec<u8>) -> Result<(), Memory>
    ensures ok { OnOk result (out.new.items ≡ out.old.items ++ lib_refused file.now rule at) }
    ensures part { AppendsPart out.old.items out.new.items (lib_refused file.now rule at) }
{
    let pieces = [
        Plain("{\"file\":\""),
        Escaped(file.as_bytes()),
        Plain("\",\"refused\":\""),
        Plain(rule.mark()),
        Number(u64::from(rule.number())),
        Plain("\",\"at\":["),
        Number(u64::from(at.line)),
        Plain(","),
        Number(u64::from(at.column)),
        Plain("]}\n"),
    ];
    push_pieces(&pieces, out)
}

fn push_accepted_slot<'a>(name: &'a Text, file: &'a str, out: &mut Vec<u8>) -> Result<(), Memory>
    ensures ok { OnOk result (out.new.items ≡ out.old.items ++ accepted_slot name.now file.now) }
    ensures part { AppendsPart out.old.items out.new.items (accepted_slot name.now file.now) }
{
    let pieces = [
        Plain("{\"widget\":\""),
        Units(name),
        Plain("\",\"file\":\""),
        Escaped(file.as_bytes()),
        Plain("\",\"accepted\":true}\n"),
    ];
    push_pieces(&pieces, out)
}

fn push_refused_life<'a>(
    name: &'a Text,
    until: Option<u32>,
    file: &'a str,
    rule: Rule,
    at: Place,
    out: &mut Vec<u8>,
) -> Result<(), Memory>
    ensures ok { OnOk result (out.new.items ≡ out.old.items ++ refused_life name.now until file.now rule at) }
    ensures part { AppendsPart out.old.items out.new.items (refused_life name.now until file.now rule at) }
{
    let pieces = [
        Plain("{\"widget\":\""),
        Units(name),
        Plain("\""),
        Until(until),
        Plain(",\"file\":\""),
        Escaped(file.as_bytes()),
        Plain("\",\"refused\":\""),
        Plain(rule.mark()),
        Number(u64::from(rule.number())),
        Plain("\",\"at\":["),
        Number(u64::from(at.line)),
        Plain(","),
        Number(u64::from(at.column)),
        Plain("]}\n"),
    ];
    push_pieces(&pieces, out)
}

#[tactic(auto, unfolding(crate::specs::Report::run_members))]
fn push_run_members(run: &RunText, out: &mut Vec<u8>) -> Result<(), Memory>
    ensures ok { OnOk result (out.new.items ≡ out.old.items ++ run_members run.now) }
    ensures part { AppendsPart out.old.items out.new.items (run_members run.now) }
{
    let pieces = [
        Plain("{\"widget\":\""),
        Units(&run.name),
        Plain("\""),
        Until(run.until),
        Plain(",\"state\":\""),
        Plain(run.state.name()),
        Plain("\",\"turns\":"),
        Number(u64::from(run.turns)),
        Plain(",\"spent\":"),
        Number(run.spent),
        Plain(",\"missed\":"),
        Number(u64::from(run.missed)),
        Plain(",\"gone\":"),
        Number(u64::from(run.gone)),
    ];
    push_pieces(&pieces, out)
}

fn push_end(out: &mut Vec<u8>) -> Result<(), Memory>
    ensures ok { OnOk result (out.new.items ≡ out.old.items ++ line_end) }
    ensures part { AppendsPart out.old.items out.new.items line_end }
{
    Ok(out.extend_from_slice(b"}\n")?)
}

fn push_short(run: &RunText, out: &mut Vec<u8>) -> Result<(), Memory>
    ensures ok { OnOk result (out.new.items ≡ out.old.items ++ short_life run.now) }
    ensures part { AppendsPart out.old.items out.new.items (short_life run.now) }
{
    push_run_members(run, out)?;
    push_end(out)
}

#[tactic(auto, unfolding(crate::specs::Report::run_notes))]
fn push_notes<'a>(log: &'a [Text], uncaught: &'a [Text], out: &mut Vec<u8>) -> Result<(), Memory>
    ensures ok { OnOk result (out.new.items ≡ out.old.items ++ run_notes log.now uncaught.now) }
    ensures part { AppendsPart out.old.items out.new.items (run_notes log.now uncaught.now) }
{
    let pieces = [
        Plain(",\"log\":["),
        Texts(log),
        Plain("],\"uncaught\":["),
        Texts(uncaught),
        Plain("]"),
    ];
    push_pieces(&pieces, out)
}

fn push_ran_end(run: &RunText, out: &mut Vec<u8>) -> Result<(), Memory>
    ensures ok { OnOk result (out.new.items
        ≡ out.old.items ++ (run_notes run.now.log.items run.now.uncaught.items ++ line_end)) }
    ensures part { AppendsPart out.old.items out.new.items
        (run_notes run.now.log.items run.now.uncaught.items ++ line_end) }
{
    push_notes(&run.log, &run.uncaught, out)?;
    push_end(out)
}

fn push_ran(run: &RunText, out: &mut Vec<u8>) -> Result<(), Memory>
    ensures ok { OnOk result (out.new.items ≡ out.old.items ++ ran_life run.now) }
    ensures part { AppendsPart out.old.items out.new.items (ran_life run.now) }
{
    push_run_members(run, out)?;
    push_ran_end(run, out)
}

fn push_page(text: &[u8], out: &mut Vec<u8>) -> Result<(), Memory>
    ensures ok { OnOk result (out.new.items ≡ out.old.items ++ page_line text.now) }
    ensures part { AppendsPart out.old.items out.new.items (page_line text.now) }
{
    let pieces = [Plain("{\"page\":\""), Escaped(text), Plain("\"}\n")];
    push_pieces(&pieces, out)
}
