//! What the first line is, and the name of the block that it begins.
ghost use Rattle.std.specs.Prelude.{◌≡◌, ◌++◌, ◌∷◌, [], List, true, map, IfErr, OnOk};
ghost use Rattle.std.specs.List.{list_any};
ghost use Rattle.std.specs.Str.{bytes_eq};
ghost use Rattle.reach_cert.specs.Blocks.{words_of};
ghost use Rattle.reach_cert.specs.Certs.{Slot};
ghost use Rattle.reach_cert.specs.Machine.{State, Between, Refuses, behind_first, is_free, named, cell_text, step_first, text_behind, text_is};
ghost use Rattle.reach_cert.specs.Shape.{slot_name};
ghost use Rattle.reach_cert.specs.Words.{IsSlice};

use crate::fault::CertFault;
use crate::lines::Lines;
use crate::words::{behind, cell_behind, is_name};

// The most slots that a certificate has.
const MOST_SLOTS: usize = 16;

/// Whether the first line is this one.
pub fn text_is(word: &[u8], lines: &Lines) -> bool
    ensures { result ≡ text_is word.now lines.now.lines }
{
    match lines.text() {
        Some(text) => text == word,
        None => false,
    }
}

/// What stands in the first line behind a front, where it begins with it.
pub fn text_behind<'a>(front: &[u8], lines: &Lines<'a>) -> Option<&'a [u8]>
    ensures { IsSlice (text_behind front.now lines.now.lines) result }
{
    behind(front, lines.text()?)
}

/// What stands in the first line behind the number of a cell, where it is the line of this cell.
pub fn cell_text<'a>(number: usize, lines: &Lines<'a>) -> Option<&'a [u8]>
    ensures { IsSlice (cell_text number lines.now.lines) result }
{
    cell_behind(number, lines.text()?)
}

fn is_used(names: &[&[u8]], word: &[u8]) -> bool
    ensures { result ≡ list_any (λ name. bytes_eq name word.now) (words_of names.now) }
{
    'each: for name in names {
        if *name == word {
            return true;
        }
    }
    false
}

// Whether a block may have the name, behind those of these names.
fn is_free(names: &[&[u8]], word: &[u8]) -> bool
    ensures { (slots : List Slot) → words_of names.now ≡ map slot_name slots → result ≡ is_free slots word.now }
{
    if !is_name(word) {
        return false;
    }
    if names.len() >= MOST_SLOTS {
        return false;
    }
    !is_used(names, word)
}

/// Takes the first line, where this is the name in it, and a block may have it.
pub fn take_name<'a>(
    names: &mut Vec<&'a [u8]>,
    word: &'a [u8],
    lines: &mut Lines<'a>,
) -> Result<(), CertFault>
    ensures kept { OnOk result (words_of names.new.items ≡ words_of names.old.items ++ word.now ∷ []) }
    ensures free { OnOk result ((slots : List Slot) → words_of names.old.items ≡ map slot_name slots
        → is_free slots word.now ≡ true) }
    ensures taken { OnOk result (lines.new ≡ behind_first lines.old) }
    ensures fault { IfErr result (λ e. (slots : List Slot) (next : State)
        → words_of names.old.items ≡ map slot_name slots →
        step_first (Between slots) lines.old.lines ≡ named slots word.now next → Refuses (Between slots) lines.old e) }
{
    if !is_free(names, word) {
        return Err(lines.fault());
    }
    names.push(word)?;
    lines.advance();
    Ok(())
}
