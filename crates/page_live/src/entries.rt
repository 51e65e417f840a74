//! What is written for the slots of a page that lives.
ghost use Rattle.std.specs.Prelude.{◌≡◌, ◌≢◌, ◌<◌, ◌++◌, ◌∷◌, [], List, Option, Some, length, map, slice_get, IfOk, OnOk, true, false};
ghost use Rattle.widget_meaning.specs.OwnState.{OwnState};
ghost use Rattle.page_plan.specs.Pages.{PagePiece};
ghost use Rattle.live_text.specs.Answer.{shown};
ghost use Rattle.page_live.specs.Page.{AreEntries, AreRenewed, IsEntryLine, IsEntryRoot, IsRenewed, IsShowing, Shows, is_at, picked, told_at};

use crate::page::LivePage;
use code_units::Memory;
use live_text::{Entry, line_object, object_of_line, root_value};
use page_play::last_line;
use std::alloc::Global;

/// What is to be written for each slot, in order.
pub fn entries(alloc: Global, page: &LivePage) -> Result<Vec<Entry>, Memory>
    requires showing { IsShowing page.now }
    ensures { IfOk result (λ all. (pieces : List PagePiece) (owns : List (Option OwnState)) → Shows page.now pieces owns
        → AreEntries page.now.findings owns (map shown all.items)) }
{
    let mut all = Vec::new(alloc);
    'slots: for w in 0..page.findings.names.len() {
        let line = entry_line(alloc, page, w as u32)?;
        let root = entry_root(alloc, page, w as u32)?;
        all.push(Entry { line, root })?;
    }
    Ok(all)
}

// The line of a slot.
fn entry_line(alloc: Global, page: &LivePage, w: u32) -> Result<Vec<u8>, Memory>
    requires showing { IsShowing page.now }
    requires there { w < length page.now.findings.names.items }
    ensures { IfOk result (λ line. (pieces : List PagePiece) (owns : List (Option OwnState)) (own : Option OwnState)
        → Shows page.now pieces owns
        → slice_get owns w ≡ Some own → IsEntryLine (told_at page.now.findings w) own line.items) }
{
    let line = last_line(alloc, &page.findings, &page.host, w)?;
    object_of_line();
    line_object(alloc, &line)
}

// The text of what stands in a slot.
fn entry_root(alloc: Global, page: &LivePage, w: u32) -> Result<Vec<u8>, Memory>
    requires showing { IsShowing page.now }
    requires there { w < length page.now.findings.names.items }
    ensures { IfOk result (λ root. (pieces : List PagePiece) (owns : List (Option OwnState)) (own : Option OwnState)
        → Shows page.now pieces owns
        → slice_get owns w ≡ Some own → IsEntryRoot (told_at page.now.findings w) own root.items) }
{
    let mut text = Vec::new(alloc);
    page.host.print_slot(alloc, w, &mut text)?;
    root_value(alloc, text)
}

/// What was written for slots becomes what is to be written now; of each slot whether it is another. What stands in
/// a slot is looked at where its line is another, and in the slot to which alone something was given.
pub fn renew(
    alloc: Global,
    page: &LivePage,
    touched: Option<u32>,
    written: &mut Vec<Entry>,
) -> Result<Vec<bool>, Memory>
    requires showing { IsShowing page.now }
    requires many { length written.old.items ≡ length page.now.findings.names.items }
    ensures renewed { IfOk result (λ flags. (pieces : List PagePiece) (owns : List (Option OwnState))
        → Shows page.now pieces owns
        → AreRenewed page.now.findings owns touched (map shown written.old.items)
        (map shown written.new.items) flags.items) }
    ensures many { length written.new.items ≡ length written.old.items }
    ensures flags { IfOk result (λ flags. length flags.items ≡ length written.old.items) }
{
    let mut flags = Vec::new(alloc);
    'slots: for w in 0..written.len() {
        let looks = is_at(touched, w as u32);
        let flag = renew_one(alloc, page, w as u32, looks, &mut written[w])?;
        flags.push(flag)?;
    }
    Ok(flags)
}

// Whether something was given to this slot alone.
fn is_at(touched: Option<u32>, w: u32) -> bool
    ensures { result ≡ is_at touched w }
{
    match touched {
        None => false,
        Some(v) => v == w,
    }
}

// What was written for a slot becomes what is to be written now; whether it is another.
fn renew_one(
    alloc: Global,
    page: &LivePage,
    w: u32,
    looks: bool,
    entry: &mut Entry,
) -> Result<bool, Memory>
    requires showing { IsShowing page.now }
    requires there { w < length page.now.findings.names.items }
    ensures { IfOk result (λ flag. (pieces : List PagePiece) (owns : List (Option OwnState)) (own : Option OwnState)
        → Shows page.now pieces owns
        → slice_get owns w ≡ Some own
        → IsRenewed (told_at page.now.findings w) own looks (shown entry.old) (shown entry.new) flag) }
{
    let line = entry_line(alloc, page, w)?;
    if !looks && same(&line, &entry.line) {
        return Ok(false);
    }
    let root = entry_root(alloc, page, w)?;
    Ok(replace(entry, Entry { line, root }))
}

// What was written for a slot becomes this; whether it is another.
fn replace(old: &mut Entry, new: Entry) -> bool
    ensures other { result ≡ true → (shown old.new ≡ shown new) × (shown new ≢ shown old.old) }
    ensures same { result ≡ false → (shown old.new ≡ shown old.old) × (shown new ≡ shown old.old) }
{
    if same(&new.line, &old.line) && same(&new.root, &old.root) {
        return false;
    }
    *old = new;
    true
}

// Whether two texts are the same.
fn same(a: &[u8], b: &[u8]) -> bool
    ensures yes { result ≡ true → a.now ≡ b.now }
    ensures no { result ≡ false → a.now ≢ b.now }
{
    a == b
}

/// The entries that are flagged.
pub fn flagged<'a>(
    alloc: Global,
    entries: &'a [Entry],
    flags: &[bool],
) -> Result<Vec<&'a Entry>, Memory>
    requires { length flags.now ≡ length entries.now }
    ensures { IfOk result (λ some. map (λ e. shown e.now) some.items ≡ picked flags.now (map shown entries.now)) }
{
    let mut some = Vec::new(alloc);
    'entries: for i in 0..entries.len() {
        let flag = flags[i];
        let entry = &entries[i];
        push_flagged(flag, entry, &mut some)?;
    }
    Ok(some)
}

// Appends an entry that is flagged.
fn push_flagged<'a>(flag: bool, entry: &'a Entry, some: &mut Vec<&'a Entry>) -> Result<(), Memory>
    ensures { OnOk result (map (λ e. shown e.now) some.new.items
        ≡ map (λ e. shown e.now) some.old.items ++ picked (flag ∷ []) (shown entry.now ∷ [])) }
{
    if flag {
        some.push(entry)?;
    }
    Ok(())
}
