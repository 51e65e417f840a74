//! Reading a certificate, line by line.

ghost use Rattle.std.specs.Prelude.{◌≡◌, ◌<◌, ◌≤◌, ◌++◌, ◌∷◌, [], ℕ, List, None, false, map, length, codes, IfOk, IfErr, OnOk, MatchResult};
ghost use Rattle.exact_refusals.specs.Judge.Outcome.{Read};
ghost use Rattle.reach_cert.specs.declared.fault.CertFault.TheVariants as fault;
ghost use Rattle.reach_cert.specs.Blocks.{words_of, IsBlock, IsWidget};
ghost use Rattle.reach_cert.specs.Certs.{Row, Slot, Shown, row_of, slot_of, plain, cert_lines, cert_text};
ghost use Rattle.reach_cert.specs.Machine.{Start, Between, Inside, Over, Later, Fewer, Refuses, goes, cell_text, text_is};
ghost use Rattle.reach_cert.specs.Shape.{lines_of, slot_name, IsCert, IsCertFault};

use crate::cert::{Block, CellRow, Cert, Ref};
use crate::fault::CertFault;
use crate::first_line::{cell_text, take_name, text_behind, text_is};
use crate::lines::Lines;
use crate::words::{read_refs, read_row, text_of};
use code_units::Text;
use std::alloc::Global;

// The lines of cells, up to the first that is none. `others` are names that are shared.
fn read_cells(
    alloc: Global,
    own: &Text,
    others: &mut Vec<Text>,
    lines: &mut Lines,
) -> Result<Vec<CellRow>, CertFault>
    ensures read { IfOk result (λ cells. (slots : List Slot) →
        goes (Inside slots own.now []) lines.old.lines
        ≡ goes (Inside slots own.now (map row_of cells.items)) lines.new.lines) }
    ensures none { IfOk result (λ cells. cell_text (length (map row_of cells.items)) lines.new.lines ≡ None) }
    ensures later { OnOk result (Later lines.old lines.new) }
    ensures fault { IfErr result (λ e. (slots : List Slot) → Refuses (Inside slots own.now []) lines.old e) }
{
    let mut cells = Vec::new(alloc);
    'each: while let Some(text) = cell_text(cells.len(), lines) {
        let Some(row) = read_row(alloc, own, others, text)? else {
            return Err(lines.fault());
        };
        cells.push(row)?;
        lines.advance();
    }
    Ok(cells)
}

// The line of what a widget holds, where it is no line of its next cell.
fn read_held(
    alloc: Global,
    own: &Text,
    others: &mut Vec<Text>,
    lines: &mut Lines,
) -> Result<Vec<Ref>, CertFault>
    ensures read { IfOk result (λ held. (slots : List Slot) (name : List ℕ) (rows : List Row)
        → cell_text (length rows) lines.old.lines ≡ None →
        goes (Inside slots name rows) lines.old.lines
        ≡ goes (Between (slots ++ Shown name rows held.items ∷ [])) lines.new.lines) }
    ensures later { OnOk result (Fewer lines.old lines.new) }
    ensures fault { IfErr result (λ e. (slots : List Slot) (name : List ℕ) (rows : List Row)
        → cell_text (length rows) lines.old.lines ≡ None →
        Refuses (Inside slots name rows) lines.old e) }
{
    let Some(text) = text_behind(b"held", lines) else {
        return Err(lines.fault());
    };
    let Some(held) = read_refs(alloc, own, others, text)? else {
        return Err(lines.fault());
    };
    lines.advance();
    Ok(held)
}

fn read_shown(alloc: Global, name: Text, lines: &mut Lines) -> Result<Block, CertFault>
    ensures widget { IfOk result (λ block. IsWidget name lines.old lines.new (slot_of block)) }
    ensures fault { IfErr result (λ e. (slots : List Slot) → Refuses (Inside slots name []) lines.old e) }
{
    let mut others = Vec::new(alloc);
    let cells = read_cells(alloc, &name, &mut others, lines)?;
    let held = read_held(alloc, &name, &mut others, lines)?;
    Ok(Block::Rows { name, cells, held })
}

// The block that begins with the first line, where that is not `end`.
fn read_block<'a>(
    alloc: Global,
    names: &mut Vec<&'a [u8]>,
    lines: &mut Lines<'a>,
) -> Result<Block, CertFault>
    requires { text_is (codes "end") lines.old.lines ≡ false }
    ensures block { IfOk result
        (λ block. IsBlock (words_of names.old.items) (words_of names.new.items) lines.old lines.new (slot_of block)) }
    ensures fault { IfErr result (λ e. (slots : List Slot) → words_of names.old.items ≡ map slot_name slots
        → Refuses (Between slots) lines.old e) }
{
    if let Some(word) = text_behind(b"refused ", lines) {
        take_name(names, word, lines)?;
        return Ok(Block::Refused(text_of(alloc, word)?));
    }
    let Some(word) = text_behind(b"widget ", lines) else {
        return Err(lines.fault());
    };
    take_name(names, word, lines)?;
    read_shown(alloc, text_of(alloc, word)?, lines)
}

// The blocks, and the line `end` behind them.
fn read_blocks(alloc: Global, lines: &mut Lines) -> Result<Vec<Block>, CertFault>
    ensures read { IfOk result
        (λ blocks. goes (Between []) lines.old.lines ≡ goes (Over (map slot_of blocks.items)) lines.new.lines) }
    ensures later { OnOk result (Later lines.old lines.new) }
    ensures fault { IfErr result (Refuses (Between []) lines.old) }
{
    let mut names = Vec::new(alloc);
    let mut blocks = Vec::new(alloc);
    'each: while !text_is(b"end", lines) {
        let block = read_block(alloc, &mut names, lines)?;
        blocks.push(block)?;
    }
    lines.advance();
    Ok(blocks)
}

fn read_all(alloc: Global, bytes: &[u8]) -> Result<Cert, CertFault>
    requires { length bytes.now < 4294967295 }
    ensures read { IfOk result (λ cert. goes Start (lines_of bytes.now) ≡ Read (plain cert)) }
    ensures fault { IfErr result (Refuses Start (record { number = 1; lines = lines_of bytes.now })) }
{
    let mut lines = Lines::new(bytes);
    if !text_is(b"reach 1", &lines) {
        return Err(lines.fault());
    }
    lines.advance();
    let blocks = read_blocks(alloc, &mut lines)?;
    if !lines.is_empty() {
        return Err(lines.fault());
    }
    Ok(Cert { blocks })
}

/// The certificate that the bytes spell, for fewer than 4,294,967,295 bytes (docs/CERTIFICATES.md,
/// "How it is written").
///
/// `BadCert` tells that they spell none, with the exact line; `Memory` that there was no memory for
/// the certificate.
pub fn read_cert(alloc: Global, bytes: &[u8]) -> Result<Cert, CertFault>
    requires { length bytes.now < 4294967295 }
    // The certificate has the stated shape, and the bytes are its text.
    ensures shape { IfOk result (λ cert. IsCert (plain cert)) }
    ensures text { IfOk result (λ cert. cert_text (plain cert) ≡ bytes.now) }
    // It has no more lines than there are bytes.
    ensures lines { IfOk result (λ cert. length (cert_lines (plain cert)) ≤ length bytes.now) }
    // Where a certificate of the shape is printed as these bytes, it is read, unless memory runs out.
    ensures back { (slots : List Slot) → IsCert slots → cert_text slots ≡ bytes.now →
        MatchResult result (λ cert. plain cert ≡ slots) (λ e. e ≡ fault.Memory) }
    // The line of a refusal is exact.
    ensures line { IfErr result (IsCertFault bytes.now) }
{
    read_all(alloc, bytes)
}
