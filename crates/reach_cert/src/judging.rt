//! Judging the bytes of a certificate, of which no data are kept.
ghost use Rattle.std.specs.Prelude.{◌≡◌, ◌<◌, ◌≤◌, ◌+◌, ◌-◌, [], ℕ, List, None, false, map, length, nat_lt, codes, IfOk, IfErr, OnOk, MatchResult};
ghost use Rattle.std.specs.List.{flat_map};
ghost use Rattle.exact_refusals.specs.Judge.Outcome.{Read};
ghost use Rattle.reach_cert.specs.declared.fault.CertFault.TheVariants as fault;
ghost use Rattle.reach_cert.specs.Blocks.{words_of, IsBlock, IsWidget};
ghost use Rattle.reach_cert.specs.Certs.{Slot, Row, cert_text};
ghost use Rattle.reach_cert.specs.Judged.{IsLeak, AreCells, IsHeld};
ghost use Rattle.reach_cert.specs.Machine.{Start, Between, Inside, Over, Later, Refuses, goes, cell_text, text_is};
ghost use Rattle.reach_cert.specs.Shape.{lines_of, slot_name, IsCert, IsCertFault};
ghost use Rattle.reach_cert.specs.Walks.{slot_leaks, first_from, first_leak};

use crate::fault::CertFault;
use crate::first_line::{cell_text, take_name, text_behind, text_is};
use crate::lines::Lines;
use crate::needs::{refs_need, row_need};
use std::alloc::Global;

// What each line of a cell needs, up to the first line that is of none.
fn judge_cells(alloc: Global, own: &[u8], lines: &mut Lines) -> Result<Vec<u64>, CertFault>
    ensures cells { IfOk result (λ needs. AreCells own.now lines.old lines.new needs.items) }
    ensures none { IfOk result (λ needs. cell_text (length needs.items) lines.new.lines ≡ None) }
    ensures fault { IfErr result (λ e. (slots : List Slot) → Refuses (Inside slots own.now []) lines.old e) }
{
    let mut needs = Vec::new(alloc);
    'each: while let Some(text) = cell_text(needs.len(), lines) {
        let Some(need) = row_need(own, text) else {
            return Err(lines.fault());
        };
        needs.push(need)?;
        lines.advance();
    }
    Ok(needs)
}

// What the line needs of what a widget holds, where it is no line of its next cell.
fn judge_held(own: &[u8], lines: &mut Lines) -> Result<u64, CertFault>
    ensures held { IfOk result (IsHeld own.now lines.old lines.new) }
    ensures fault { IfErr result (λ e. (slots : List Slot) (rows : List Row)
        → cell_text (length rows) lines.old.lines ≡ None →
        Refuses (Inside slots own.now rows) lines.old e) }
{
    let Some(text) = text_behind(b"held", lines) else {
        return Err(lines.fault());
    };
    let Some(need) = refs_need(own, text) else {
        return Err(lines.fault());
    };
    lines.advance();
    Ok(need)
}

// The first of the lines before a line that need more than `count` cells.
fn first_over(count: u64, needs: &[u64], after: u32) -> Option<u32>
    requires { length needs.now ≤ after }
    ensures { result ≡ first_from (after - length needs.now) (map (nat_lt count) needs.now) }
{
    let mut line = after - needs.len() as u32;
    'each: for need in needs {
        if count < *need {
            return Some(line);
        }
        line += 1;
    }
    None
}

// The first line that leaks of those of a widget behind the one with its name.
fn judge_shown(alloc: Global, own: &[u8], lines: &mut Lines) -> Result<Option<u32>, CertFault>
    ensures shown { IfOk result (λ leak. (first : ℕ) → lines.old.number ≡ first + 1 →
        (slot : Slot) × IsWidget own.now lines.old lines.new slot
        × IsLeak first lines.new.number (slot_leaks slot) leak) }
    ensures fault { IfErr result (λ e. (slots : List Slot) → Refuses (Inside slots own.now []) lines.old e) }
{
    let mut needs = judge_cells(alloc, own, lines)?;
    let count = needs.len() as u64;
    needs.push(judge_held(own, lines)?)?;
    Ok(first_over(count, &needs, lines.number()))
}

// The first line that leaks of the block that begins with the first line, where that is not `end`.
fn judge_block<'a>(
    alloc: Global,
    names: &mut Vec<&'a [u8]>,
    lines: &mut Lines<'a>,
) -> Result<Option<u32>, CertFault>
    requires { text_is (codes "end") lines.old.lines ≡ false }
    ensures block { IfOk result (λ leak. (slot : Slot)
        × IsBlock (words_of names.old.items) (words_of names.new.items) lines.old lines.new slot
        × IsLeak lines.old.number lines.new.number (slot_leaks slot) leak) }
    ensures fault { IfErr result (λ e. (slots : List Slot) → words_of names.old.items ≡ map slot_name slots
        → Refuses (Between slots) lines.old e) }
{
    if let Some(word) = text_behind(b"refused ", lines) {
        take_name(names, word, lines)?;
        return Ok(None);
    }
    let Some(word) = text_behind(b"widget ", lines) else {
        return Err(lines.fault());
    };
    take_name(names, word, lines)?;
    judge_shown(alloc, word, lines)
}

// The first line that leaks of the blocks, where the line `end` stands behind them.
fn judge_blocks(alloc: Global, lines: &mut Lines) -> Result<Option<u32>, CertFault>
    ensures read { IfOk result
        (λ leak. (slots : List Slot) × (leak ≡ first_from lines.old.number (flat_map slot_leaks slots)) ×
        (goes (Between []) lines.old.lines ≡ goes (Over slots) lines.new.lines)) }
    ensures later { OnOk result (Later lines.old lines.new) }
    ensures fault { IfErr result (Refuses (Between []) lines.old) }
{
    let mut names = Vec::new(alloc);
    let mut leak = None;
    'each: while !text_is(b"end", lines) {
        let found = judge_block(alloc, &mut names, lines)?;
        leak = leak.or(found);
    }
    lines.advance();
    Ok(leak)
}

fn judge_all(alloc: Global, bytes: &[u8]) -> Result<Option<u32>, CertFault>
    requires { length bytes.now < 4294967295 }
    ensures read { IfOk result
        (λ leak. (slots : List Slot) × (leak ≡ first_leak slots) × (goes Start (lines_of bytes.now) ≡ Read slots)) }
    ensures fault { IfErr result (Refuses Start (record { number = 1; lines = lines_of bytes.now })) }
{
    let mut lines = Lines::new(bytes);
    if !text_is(b"reach 1", &lines) {
        return Err(lines.fault());
    }
    lines.advance();
    let leak = judge_blocks(alloc, &mut lines)?;
    if !lines.is_empty() {
        return Err(lines.fault());
    }
    Ok(leak)
}

/// The first line that leaks of the certificate that the bytes spell, for fewer than 4,294,967,295
/// bytes: the first, counted from 1, with a reference that is neither `host` nor a cell line of its own
/// widget; `None` where the certificate is confined (docs/CERTIFICATES.md, "What it shows").
///
/// It is what `confined` gives on what `read_cert` gives, and no certificate is made: it keeps eight
/// bytes a line. `BadCert` tells that the bytes spell none, with the exact line; `Memory` that there was
/// no memory for these.
pub fn judge(alloc: Global, bytes: &[u8]) -> Result<Option<u32>, CertFault>
    requires { length bytes.now < 4294967295 }
    // The bytes are the text of a certificate, and it is judged.
    ensures judged { IfOk result
        (λ leak. (slots : List Slot) × IsCert slots × (cert_text slots ≡ bytes.now) × (leak ≡ first_leak slots)) }
    // The text of any certificate is judged, unless memory runs out.
    ensures back { (slots : List Slot) → IsCert slots → cert_text slots ≡ bytes.now →
        MatchResult result (λ leak. leak ≡ first_leak slots) (λ e. e ≡ fault.Memory) }
    // The line of a refusal is exact.
    ensures line { IfErr result (IsCertFault bytes.now) }
{
    judge_all(alloc, bytes)
}
