//! The text of a certificate.
ghost use Rattle.std.specs.Prelude.{◌≡◌, ◌++◌, map, decimal, OnOk, OnErr};
ghost use Rattle.std.specs.List.{flat_map};
ghost use Rattle.reach_cert.specs.Appended.{Grows};
ghost use Rattle.reach_cert.specs.Certs.{RefusedLine, WidgetLine, CellLine, HeldLine, Shown, kind_word, ref_word, spaced_ref, refs_text, row_of, slot_of, plain, line_text, cell_lines, slot_lines, cert_text};

use crate::cert::{Block, CellRow, Cert, Ref, RowKind};
use code_units::{Memory, Text, push_utf8};
use itoa::Buffer;

// The word for a kind.
fn kind_word(kind: RowKind) -> &'static [u8]
    ensures { result.now ≡ kind_word kind }
{
    match kind {
        RowKind::Object => b"object",
        RowKind::Array => b"array",
        RowKind::Function => b"function",
        RowKind::Bunch => b"bunch",
    }
}

fn push_bytes(bytes: &[u8], out: &mut Vec<u8>) -> Result<(), Memory>
    ensures ok { OnOk result (out.new.items ≡ out.old.items ++ bytes.now) }
    ensures err { OnErr result (Grows out.old.items out.new.items) }
{
    Ok(out.extend_from_slice(bytes)?)
}

fn push_number(n: u64, out: &mut Vec<u8>) -> Result<(), Memory>
    ensures ok { OnOk result (out.new.items ≡ out.old.items ++ decimal n) }
    ensures err { OnErr result (Grows out.old.items out.new.items) }
{
    push_bytes(Buffer::new().format(n).as_bytes(), out)
}

fn push_ref(target: &Ref, out: &mut Vec<u8>) -> Result<(), Memory>
    ensures ok { OnOk result (out.new.items ≡ out.old.items ++ ref_word target.now) }
    ensures err { OnErr result (Grows out.old.items out.new.items) }
{
    match target {
        Ref::Host => push_bytes(b"host", out),
        Ref::Raw => push_bytes(b"raw", out),
        Ref::Global => push_bytes(b"global", out),
        Ref::Cell { name, number } => push_cell(name, *number, out),
    }
}

fn push_cell(name: &Text, number: u32, out: &mut Vec<u8>) -> Result<(), Memory>
    ensures ok { OnOk result (out.new.items ≡ out.old.items ++ ref_word (Ref.Cell name.now number)) }
    ensures err { OnErr result (Grows out.old.items out.new.items) }
{
    push_utf8(name, out)?;
    push_bytes(b":", out)?;
    push_number(u64::from(number), out)
}

fn push_spaced(target: &Ref, out: &mut Vec<u8>) -> Result<(), Memory>
    ensures ok { OnOk result (out.new.items ≡ out.old.items ++ spaced_ref target.now) }
    ensures err { OnErr result (Grows out.old.items out.new.items) }
{
    push_bytes(b" ", out)?;
    push_ref(target, out)
}

fn push_refs(refs: &[Ref], out: &mut Vec<u8>) -> Result<(), Memory>
    ensures ok { OnOk result (out.new.items ≡ out.old.items ++ refs_text refs.now) }
    ensures err { OnErr result (Grows out.old.items out.new.items) }
{
    'each: for target in refs {
        push_spaced(target, out)?;
    }
    Ok(())
}

fn push_row(number: usize, row: &CellRow, out: &mut Vec<u8>) -> Result<(), Memory>
    ensures ok { OnOk result (out.new.items ≡ out.old.items ++ line_text (CellLine number (row_of row.now))) }
    ensures err { OnErr result (Grows out.old.items out.new.items) }
{
    push_bytes(b"c ", out)?;
    push_number(number as u64, out)?;
    push_bytes(b" ", out)?;
    push_bytes(kind_word(row.kind), out)?;
    push_refs(&row.refs, out)?;
    push_bytes(b"\n", out)
}

fn push_rows(rows: &[CellRow], out: &mut Vec<u8>) -> Result<(), Memory>
    ensures ok { OnOk result (out.new.items
        ≡ out.old.items ++ flat_map line_text (cell_lines 0 (map row_of rows.now))) }
    ensures err { OnErr result (Grows out.old.items out.new.items) }
{
    'each: for (i, row) in rows.iter().enumerate() {
        push_row(i, row, out)?;
    }
    Ok(())
}

fn push_refused(name: &Text, out: &mut Vec<u8>) -> Result<(), Memory>
    ensures ok { OnOk result (out.new.items ≡ out.old.items ++ line_text (RefusedLine name.now)) }
    ensures err { OnErr result (Grows out.old.items out.new.items) }
{
    push_bytes(b"refused ", out)?;
    push_utf8(name, out)?;
    push_bytes(b"\n", out)
}

fn push_widget(name: &Text, out: &mut Vec<u8>) -> Result<(), Memory>
    ensures ok { OnOk result (out.new.items ≡ out.old.items ++ line_text (WidgetLine name.now)) }
    ensures err { OnErr result (Grows out.old.items out.new.items) }
{
    push_bytes(b"widget ", out)?;
    push_utf8(name, out)?;
    push_bytes(b"\n", out)
}

fn push_held(held: &[Ref], out: &mut Vec<u8>) -> Result<(), Memory>
    ensures ok { OnOk result (out.new.items ≡ out.old.items ++ line_text (HeldLine held.now)) }
    ensures err { OnErr result (Grows out.old.items out.new.items) }
{
    push_bytes(b"held", out)?;
    push_refs(held, out)?;
    push_bytes(b"\n", out)
}

fn push_shown(name: &Text, cells: &[CellRow], held: &[Ref], out: &mut Vec<u8>) -> Result<(), Memory>
    ensures ok { OnOk result (out.new.items ≡ out.old.items
        ++ flat_map line_text (slot_lines (Shown name.now (map row_of cells.now) held.now))) }
    ensures err { OnErr result (Grows out.old.items out.new.items) }
{
    push_widget(name, out)?;
    push_rows(cells, out)?;
    push_held(held, out)
}

fn push_block(block: &Block, out: &mut Vec<u8>) -> Result<(), Memory>
    ensures ok { OnOk result (out.new.items ≡ out.old.items ++ flat_map line_text (slot_lines (slot_of block.now))) }
    ensures err { OnErr result (Grows out.old.items out.new.items) }
{
    match block {
        Block::Refused(name) => push_refused(name, out),
        Block::Rows { name, cells, held } => push_shown(name, cells, held, out),
    }
}

fn push_blocks(blocks: &[Block], out: &mut Vec<u8>) -> Result<(), Memory>
    ensures ok { OnOk result (out.new.items ≡ out.old.items
        ++ flat_map line_text (flat_map slot_lines (map slot_of blocks.now))) }
    ensures err { OnErr result (Grows out.old.items out.new.items) }
{
    'each: for block in blocks {
        push_block(block, out)?;
    }
    Ok(())
}

#[tactic(auto, unfolding(crate::specs::Certs::cert_text))]
fn push_cert(cert: &Cert, out: &mut Vec<u8>) -> Result<(), Memory>
    ensures ok { OnOk result (out.new.items ≡ out.old.items ++ cert_text (plain cert.now)) }
    ensures err { OnErr result (Grows out.old.items out.new.items) }
{
    push_bytes(b"reach 1\n", out)?;
    push_blocks(&cert.blocks, out)?;
    push_bytes(b"end\n", out)
}

/// Appends the text of the certificate. A refusal leaves `out` as it was.
pub fn print_cert(cert: &Cert, out: &mut Vec<u8>) -> Result<(), Memory>
    ensures ok { OnOk result (out.new.items ≡ out.old.items ++ cert_text (plain cert.now)) }
    ensures err { OnErr result (out.new.items ≡ out.old.items) }
{
    let before = out.len();
    match push_cert(cert, out) {
        Ok(()) => Ok(()),
        Err(_) => {
            out.truncate(before);
            Err(Memory)
        }
    }
}
