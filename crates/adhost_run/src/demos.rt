//! The report of `demo`: a page of 16 counters runs on made-up items.
ghost use Rattle.std.specs.Prelude.{◌≡◌, ◌≤◌, ◌<◌, ◌^◌, ◌++◌, ◌∷◌, [], List, Option, None, length, map, codes, IfOk, OnOk};
ghost use Rattle.std.specs.List.{flat_map};
ghost use Rattle.trace_reader.specs.Said.{said};
ghost use Rattle.code_units.specs.Utf8.{units_of};
ghost use Rattle.slot_check.specs.Verdicts.{source_of, sources_of};
ghost use Rattle.manifest_reader.specs.Page.{part_of, Widget, usual_fuel};
ghost use Rattle.widget_meaning.specs.OwnState.{OwnState};
ghost use Rattle.adhost_run.specs.Answer.{ending};
ghost use Rattle.run_steps.specs.Page.{parts};
ghost use Rattle.adhost_run.specs.Demo.{demo_items, demo_item, counter_text, counter_of, next_number, short_lines, AreAccepted, DemoAnswer};
ghost use Rattle.adhost_run.specs.Stage.{IsDemoStage};

use crate::playing::play_page;
use crate::reports::Report;
use code_units::{Memory, Text};
use manifest_reader::{Entry, Manifest};
use page_play::{Host, plays_come_to, run_text, some_refused};
use run_steps::slot_names;
use slot_check::SourceFile;
use std::alloc::Global;
use trace_reader::{Happening, TraceItem};
use trace_text::{Line, report_line};

/// The names of the slots.
const NAMES: [&str; 16] = [
    "WA_", "WB_", "WC_", "WD_", "WE_", "WF_", "WG_", "WH_", "WI_", "WJ_", "WK_", "WL_", "WM_",
    "WN_", "WO_", "WP_",
];

/// The pieces of the text of a counter behind each of which its slot's name stands, and the last one.
const PIECES: [&str; 6] = [
    "<div id=\"",
    "\">\n<p id=\"",
    "out\">0</p>\n<button id=\"",
    "add\" type=\"button\">Add</button>\n<script>\nADSAFE.go(\"",
    "\", function (dom, lib) {\n    \"use strict\";\n    var n = 0, out = dom.q(\"#",
    "out\");\n    dom.q(\"#",
];

const END: &str =
    "add\").on(\"click\", function (e) {\n        n += 1;\n        out.value(n).style(\"color\", \"red\");\n        ADSAFE.log(\"clicks \" + n);\n    });\n});\n</script>\n</div>";

/// The fuel of a turn.
const FUEL: u32 = 100_000;

/// The slice of a pick.
const SLICE: u32 = 50;

/// The report of `demo` with a number: the short lines of its slots.
pub fn demo(alloc: Global, count: u32) -> Result<Report, Memory>
    requires { count ≤ 4096 }
    ensures answer { IfOk result (λ r. DemoAnswer count (ending r.refused) r.bytes.items) }
    ensures stage { IfOk result (λ r. IsDemoStage count r.host) }
{
    plays_come_to();
    let manifest = demo_page(alloc, &NAMES)?;
    let sources = counters(alloc, &NAMES)?;
    let names = slot_names(alloc, &manifest.entries)?;
    let items = demo_items(alloc, count)?;
    let ran = play_page(alloc, manifest, &sources, names, items, &[], SLICE)?;
    // A counter breaks no rule.
    if some_refused(&ran.findings) {
        return Err(Memory);
    }
    let mut bytes = Vec::new(alloc);
    push_short_lines(alloc, &ran.findings.names, &ran.host, &mut bytes)?;
    Ok(Report {
        refused: false,
        bytes,
        host: Some(ran.host),
    })
}

// A page of slots of these names.
fn demo_page(alloc: Global, names: &[&str]) -> Result<Manifest, Memory>
    ensures parts { IfOk result (λ m. parts m ≡ map (λ n. Widget (units_of n.now) [] usual_fuel) names.now) }
    ensures libs { IfOk result (λ m. m.libs.items ≡ []) }
    ensures channels { IfOk result (λ m. m.channels.items ≡ []) }
{
    let mut entries = Vec::new(alloc);
    'names: for name in names {
        entries.push(demo_slot(alloc, name)?)?;
    }
    Ok(Manifest {
        entries,
        libs: Vec::new(alloc),
        channels: Vec::new(alloc),
    })
}

// A slot of this name.
fn demo_slot(alloc: Global, name: &str) -> Result<Entry, Memory>
    ensures { IfOk result (λ entry. part_of entry ≡ Widget (units_of name.now) [] usual_fuel) }
{
    Ok(Entry::Slot {
        name: Text::from_str(alloc, name)?,
        file: String::new(alloc),
        fuel: FUEL,
    })
}

// The files of slots of these names.
fn counters(alloc: Global, names: &[&str]) -> Result<Vec<SourceFile>, Memory>
    ensures { IfOk result (λ files. sources_of files.items ≡ map (λ n. counter_of n.now) names.now) }
{
    let mut files = Vec::new(alloc);
    'names: for name in names {
        files.push(counter(alloc, name)?)?;
    }
    Ok(files)
}

// The file of a slot of this name.
fn counter(alloc: Global, name: &str) -> Result<SourceFile, Memory>
    ensures { IfOk result (λ file. source_of file ≡ counter_of name.now) }
{
    Ok(SourceFile {
        name: String::new(alloc),
        bytes: counter_text(alloc, name)?,
    })
}

// The text of a counter in a slot of this name.
fn counter_text(alloc: Global, name: &str) -> Result<Vec<u8>, Memory>
    ensures { IfOk result (λ text. text.items ≡ counter_text name.now) }
{
    let mut text = Vec::new(alloc);
    push_pieces(&PIECES, name, &mut text)?;
    text.extend_from_slice(END.as_bytes())?;
    Ok(text)
}

// Appends pieces of a text, each with a name behind it.
fn push_pieces(pieces: &[&str], name: &str, text: &mut Vec<u8>) -> Result<(), Memory>
    ensures { OnOk result (text.new.items ≡ text.old.items ++ flat_map (λ p. p.now ++ name.now) pieces.now) }
{
    'pieces: for piece in pieces {
        push_piece(piece, name, text)?;
    }
    Ok(())
}

// Appends a piece of a text with a name behind it.
fn push_piece(piece: &str, name: &str, text: &mut Vec<u8>) -> Result<(), Memory>
    ensures { OnOk result (text.new.items ≡ text.old.items ++ (piece.now ++ name.now)) }
{
    text.extend_from_slice(piece.as_bytes())?;
    text.extend_from_slice(name.as_bytes())?;
    Ok(())
}

// The items of `demo` with a number.
fn demo_items(alloc: Global, count: u32) -> Result<Vec<TraceItem>, Memory>
    requires { count ≤ 4096 }
    ensures { IfOk result (λ items. map said items.items ≡ demo_items count) }
{
    let mut items = Vec::new(alloc);
    let mut x = u64::from(count);
    'items: for i in 0..count {
        x = next_number(x);
        items.push(demo_item(alloc, x, i + 1)?)?;
    }
    Ok(items)
}

// The number behind a number.
fn next_number(x: u64) -> u64
    requires { x < 2 ^ 31 }
    ensures value { result ≡ next_number x }
    ensures below { result < 2 ^ 31 }
{
    (x * 1_103_515_245 + 12_345) % 0x8000_0000
}

// The i-th item, with its number.
fn demo_item(alloc: Global, x: u64, i: u32) -> Result<TraceItem, Memory>
    requires { x < 2 ^ 31 }
    ensures { IfOk result (λ item. said item ≡ demo_item x i) }
{
    if i % 7 == 0 {
        return Ok(TraceItem::Advance(20));
    }
    Ok(TraceItem::Event {
        to: ((x / 65_536) % 16) as u32,
        event: click(alloc)?,
    })
}

// A click on the button of a counter.
fn click(alloc: Global) -> Result<Happening, Memory>
    ensures { IfOk result (λ e. (e.kind ≡ codes "click") × (e.path.items ≡ 3 ∷ []) × (e.value ≡ None)) }
{
    Ok(Happening {
        kind: Text::from_str(alloc, "click")?,
        path: vec![in alloc; 3]?,
        value: None,
    })
}

// Appends the short lines of slots of these names.
fn push_short_lines(
    alloc: Global,
    names: &[Text],
    host: &Host,
    out: &mut Vec<u8>,
) -> Result<(), Memory>
    requires few { length names.now < 2 ^ 32 }
    requires told { (owns : List (Option OwnState)) × AreAccepted names.now host.now owns }
    ensures { OnOk result ((owns : List (Option OwnState)) → AreAccepted names.now host.now owns →
        out.new.items ≡ out.old.items ++ short_lines names.now owns) }
{
    'names: for (i, name) in names.iter().enumerate() {
        let line = host.line(alloc, i as u32)?;
        report_line(&Line::Short(run_text(name.share()?, None, line)), out)?;
    }
    Ok(())
}
