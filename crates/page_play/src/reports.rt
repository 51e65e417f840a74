//! The report on a page that was played, and its certificate of reach.
ghost use Rattle.std.specs.Prelude.{◌≡◌, ◌++◌, ◌<◌, ℕ, List, [], Option, Some, None, IfOk, OnOk, map, length, slice_index_or, slice_get};
ghost use Rattle.trace_text.specs.Report.{line_text};
ghost use Rattle.trace_reader.specs.Said.{Said};
ghost use Rattle.slot_check.specs.Sources.{Source};
ghost use Rattle.life_laws.specs.Journal.{ready_from};
ghost use Rattle.life_laws.specs.Settled.{slot_flags};
ghost use Rattle.widget_meaning.specs.OwnState.{OwnState};
ghost use Rattle.manifest_reader.specs.Page.{Part};
ghost use Rattle.page_plan.specs.declared.PageSpec.{PageSpec};
ghost use Rattle.page_plan.specs.declared.SlotContent.{SlotContent};
ghost use Rattle.page_plan.specs.Pages.{PagePiece, page_of, piece_of, roots};
ghost use Rattle.page_check.specs.Runs.{SlotRun, pieces};
ghost use Rattle.slot_lives.specs.Outcome.{IsReport};
ghost use Rattle.widget_host.specs.Housed.{IsHoused, IsLaid, AreShown, chains, seens};
ghost use Rattle.reach_cert.specs.Certs.{Slot, cert_text};
ghost use Rattle.reach_cert.specs.Walks.{IsConfined};
ghost use Rattle.page_play.specs.declared.findings.Findings.{Findings as FindingsOf};
ghost use Rattle.page_play.specs.Findings.{AreFindings, found_after, found_refused, lasts_told, ended_told, lines_of, line_of};
ghost use Rattle.page_play.specs.Played.{IsPlayed};
ghost use Rattle.page_play.specs.Told.{AppendsPage, AreTold, IsAudit, IsFound, Reports};

use crate::findings::Findings;
use crate::laws::plays_come_to;
use crate::lines::{refused_line, run_text};
use code_units::Memory;
use reach_cert::print_cert;
use std::alloc::Global;
use trace_text::{Line, report_line};
use widget_host::Host;

/// The report on a page: the lines of the last lives of its slots, in order, those of the lives that swaps ended, in
/// the order of these swaps, and the page line.
pub fn report(alloc: Global, findings: &Findings, host: &Host) -> Result<Vec<u8>, Memory>
    requires { IsFound findings.now host.now }
    ensures { IfOk result (λ bytes. (spec : PageSpec) (swaps : List SlotContent) (items : List Said)
        (runs : List SlotRun) (files : List Source) (parts : List Part)
        → IsPlayed spec swaps items host.now → AreFindings spec swaps items runs files findings.now
        → map piece_of spec.pieces.items ≡ pieces parts
        → IsReport parts spec.channels.items runs files items (found_refused findings.now) bytes.items) }
{
    plays_come_to();
    report_of(alloc, findings, host)
}

/// The certificate of reach of a page: of each slot by its last life.
pub fn certificate(alloc: Global, host: &Host) -> Result<Vec<u8>, Memory>
    requires housed { IsHoused host.now }
    requires quiet { ready_from 0 (slot_flags (seens host.now) (chains host.now)) ≡ [] }
    ensures audit { IfOk result
        (λ bytes. (spec : PageSpec) (swaps : List SlotContent) (items : List Said) (runs : List SlotRun)
        (files : List Source) (f : FindingsOf)
        → IsPlayed spec swaps items host.now → AreFindings spec swaps items runs files f
        → IsAudit spec.channels.items runs files items (found_refused f) bytes.items) }
    ensures confined { IfOk result (λ bytes. (slots : List Slot) × (bytes.items ≡ cert_text slots) × IsConfined slots) }
{
    plays_come_to();
    let mut bytes = Vec::new(alloc);
    print_cert(&host.reach(alloc)?, &mut bytes)?;
    Ok(bytes)
}

/// The report on a page at any time, by what its lives show and what was found of their files: in the form of
/// `report`. The only error is want of memory.
pub fn report_of(alloc: Global, findings: &Findings, host: &Host) -> Result<Vec<u8>, Memory>
    requires told { (owns before : List (Option OwnState)) × AreTold findings.now host.now owns before }
    ensures { IfOk result (λ bytes. (owns before : List (Option OwnState)) (names : List (List ℕ))
        (pieces : List PagePiece)
        → AreTold findings.now host.now owns before → IsLaid host.now names pieces
        → Reports findings.now names pieces owns before bytes.items) }
{
    let mut bytes = Vec::new(alloc);
    push_lasts(alloc, findings, host, &mut bytes)?;
    push_ended(alloc, findings, host, &mut bytes)?;
    push_page(alloc, host, &mut bytes)?;
    Ok(bytes)
}

// Appends the lines of the last lives.
fn push_lasts(
    alloc: Global,
    findings: &Findings,
    host: &Host,
    out: &mut Vec<u8>,
) -> Result<(), Memory>
    requires told { (owns before : List (Option OwnState)) × AreTold findings.now host.now owns before }
    ensures { OnOk result ((owns before : List (Option OwnState)) → AreTold findings.now host.now owns before
        → out.new.items ≡ out.old.items ++ lines_of (lasts_told findings.now) owns) }
{
    'slots: for w in 0..findings.names.len() {
        let line = last_line(alloc, findings, host, w as u32)?;
        report_line(&line, out)?;
    }
    Ok(())
}

// Appends the lines of the lives that swaps ended.
fn push_ended(
    alloc: Global,
    findings: &Findings,
    host: &Host,
    out: &mut Vec<u8>,
) -> Result<(), Memory>
    requires told { (owns before : List (Option OwnState)) × AreTold findings.now host.now owns before }
    ensures { OnOk result ((owns before : List (Option OwnState)) → AreTold findings.now host.now owns before
        → out.new.items ≡ out.old.items ++ lines_of (ended_told findings.now) before) }
{
    'swaps: for i in 0..findings.swaps.slots.len() {
        let line = ended_line(alloc, findings, host, i as u32)?;
        report_line(&line, out)?;
    }
    Ok(())
}

/// The line of the last life of the slot with number w: what that life did, or the first rule that its file breaks. The
/// only error is want of memory.
pub fn last_line(alloc: Global, findings: &Findings, host: &Host, w: u32) -> Result<Line, Memory>
    requires told { (owns before : List (Option OwnState)) × AreTold findings.now host.now owns before }
    requires there { w < length findings.now.names.items }
    ensures { IfOk result (λ line. (owns before : List (Option OwnState)) (own : Option OwnState)
        → AreTold findings.now host.now owns before
        → slice_get owns w ≡ Some own
        → line_text line ≡ line_of (slice_index_or findings.now.names.items w []) None
        (found_after findings.now w (length findings.now.swaps.slots.items)) own) }
{
    let name = &findings.names[w as usize];
    match findings.last(w) {
        Some(refusal) => refused_line(alloc, name, None, refusal),
        None => {
            let line = host.line(alloc, w)?;
            Ok(Line::Ran(run_text(name.share()?, None, line)))
        }
    }
}

// The line of the life that the swap with a number ended.
fn ended_line(alloc: Global, findings: &Findings, host: &Host, i: u32) -> Result<Line, Memory>
    requires told { (owns before : List (Option OwnState)) × AreTold findings.now host.now owns before }
    requires there { i < length findings.now.swaps.slots.items }
    ensures { IfOk result (λ line. (owns before : List (Option OwnState)) (to : ℕ) (own : Option OwnState)
        → AreTold findings.now host.now owns before
        → slice_get findings.now.swaps.slots.items i ≡ Some to → slice_get before i ≡ Some own
        → line_text line ≡ line_of (slice_index_or findings.now.names.items to [])
        (Some (slice_index_or findings.now.swaps.positions.items i 0)) (found_after findings.now to i) own) }
{
    let to = findings.swaps.slots[i as usize];
    let until = Some(findings.swaps.positions[i as usize]);
    let name = &findings.names[to as usize];
    match findings.after(to, i as usize) {
        Some(refusal) => refused_line(alloc, name, until, refusal),
        None => {
            let line = host.retired(alloc, i)?;
            Ok(Line::Ran(run_text(name.share()?, until, line)))
        }
    }
}

// Appends the page line.
fn push_page(alloc: Global, host: &Host, out: &mut Vec<u8>) -> Result<(), Memory>
    requires { IsHoused host.now }
    ensures { OnOk result ((names : List (List ℕ)) (pieces : List PagePiece) (owns : List (Option OwnState))
        → IsLaid host.now names pieces →
        AreShown host.now (chains host.now) owns
        → AppendsPage (page_of pieces (roots names owns)) out.old.items out.new.items) }
{
    let mut text = Vec::new(alloc);
    host.print_page(alloc, &mut text)?;
    report_line(&Line::Page { text }, out)
}
