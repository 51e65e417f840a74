//! Whether a certificate is confined.
ghost use Rattle.std.specs.Prelude.{◌≡◌, ℕ, ◌+◌, ◌<◌, ◌^◌, List, map, length, MatchResult, OnOk, Some};
ghost use Rattle.reach_cert.specs.declared.cert.Ref.{Ref};
ghost use Rattle.reach_cert.specs.Certs.{Shown, plain, row_of, slot_of, cert_lines};
ghost use Rattle.reach_cert.specs.Walks.{leaves, some_leaves, slot_leaks, first_from, first_leak, IsConfined, Leads, IsOwn};

use crate::cert::{Block, CellRow, Cert, Ref};
use code_units::Text;

// Whether the reference is neither `host` nor one of the `count` cells of the widget.
fn leaves(name: &Text, count: usize, target: &Ref) -> bool
    ensures { result ≡ leaves name.now count target.now }
{
    match target {
        Ref::Host => false,
        Ref::Raw => true,
        Ref::Global => true,
        Ref::Cell {
            name: other,
            number,
        } => !(other == name && (*number as usize) < count),
    }
}

fn some_leaves(name: &Text, count: usize, refs: &[Ref]) -> bool
    ensures { result ≡ some_leaves name.now count refs.now }
{
    refs.iter().any(|target| leaves(name, count, target))
}

// The first line of cells with a reference that leaves, where these lines are counted from `first`.
fn row_leak(name: &Text, count: usize, rows: &[CellRow], first: u32) -> Option<u32>
    requires { first + length rows.now < 2 ^ 32 }
    ensures { result ≡ first_from first (map (λ row. some_leaves name.now count row.refs) (map row_of rows.now)) }
{
    let mut line = first;
    'each: for row in rows {
        if some_leaves(name, count, &row.refs) {
            return Some(line);
        }
        line += 1;
    }
    None
}

// The same of the lines of a block.
fn block_leak(block: &Block, first: u32) -> Option<u32>
    requires { first + length (slot_leaks (slot_of block.now)) < 2 ^ 32 }
    ensures { result ≡ first_from first (slot_leaks (slot_of block.now)) }
{
    match block {
        Block::Refused(_) => None,
        Block::Rows { name, cells, held } => shown_leak(name, cells, held, first),
    }
}

fn shown_leak(name: &Text, cells: &[CellRow], held: &[Ref], first: u32) -> Option<u32>
    requires { first + length (slot_leaks (Shown name.now (map row_of cells.now) held.now)) < 2 ^ 32 }
    ensures { result ≡ first_from first (slot_leaks (Shown name.now (map row_of cells.now) held.now)) }
{
    if let Some(line) = row_leak(name, cells.len(), cells, first + 1) {
        return Some(line);
    }
    if some_leaves(name, cells.len(), held) {
        return Some(first + 1 + cells.len() as u32);
    }
    None
}

// How many lines a block has.
fn line_count(block: &Block) -> usize
    requires { length (slot_leaks (slot_of block.now)) < 2 ^ 32 }
    ensures { result ≡ length (slot_leaks (slot_of block.now)) }
{
    match block {
        Block::Refused(_) => 1,
        Block::Rows { cells, .. } => cells.len() + 2,
    }
}

/// Whether a certificate of fewer than 4,294,967,295 lines is confined. The error is the first line,
/// counted from 1, with a reference that is neither `host` nor a cell line of its own widget. It
/// takes no memory.
///
/// Of a confined certificate each walk from a widget's `held` line stays on `host` and on that
/// widget's own cell lines.
pub fn confined(cert: &Cert) -> Result<(), u32>
    requires { length (cert_lines (plain cert.now)) < 4294967295 }
    ensures line { MatchResult result (λ _. IsConfined (plain cert.now))
        (λ line. first_leak (plain cert.now) ≡ Some line) }
    ensures walks { OnOk result ((name : List ℕ) (target : Ref) →
        Leads (plain cert.now) name target → IsOwn (plain cert.now) name target) }
{
    let mut line = 2;
    'each: for block in &cert.blocks {
        if let Some(leak) = block_leak(block, line) {
            return Err(leak);
        }
        line += line_count(block) as u32;
    }
    Ok(())
}
