//! A page that lives, with what was written of it.
ghost use Rattle.std.specs.Prelude.{◌≡◌, ◌<◌, ◌++◌, ◌∷◌, [], ℕ, List, Option, length, map, IfOk, OnOk};
ghost use Rattle.std.specs.List.{flat_map};
ghost use Rattle.trace_reader.specs.Said.{Said, a_swap};
ghost use Rattle.manifest_reader.specs.Page.{Part};
ghost use Rattle.slot_check.specs.Sources.{Source};
ghost use Rattle.slot_check.specs.Verdicts.{source_of, IsSmall};
ghost use Rattle.widget_meaning.specs.OwnState.{OwnState};
ghost use Rattle.page_plan.specs.Pages.{PagePiece, page_of, roots};
ghost use Rattle.page_check.specs.Runs.{SlotRun};
ghost use Rattle.page_play.specs.Housed.{IsItem};
ghost use Rattle.page_play.specs.Settled.{said_of};
ghost use Rattle.page_play.specs.Told.{AppendsPage};
ghost use Rattle.live_text.specs.Answer.{shown, slot_text};
ghost use Rattle.page_live.specs.Page.{AppendsAnswer, AppendsFirst, IsAlive, IsShowing, Lives, Shows, touched_by};

use crate::entries::{entries, flagged, renew};
use crate::page::LivePage;
use code_units::Memory;
use live_text::{Entry, push_answer, push_slot};
use page_play::HostItem;
use slot_check::SourceFile;
use std::alloc::Global;
use trace_text::{Line, report_line};

/// A page that lives, and what was written for each of its slots last.
#[derive(Drop)]
pub struct Session {
    pub page: LivePage,
    pub written: Vec<Entry>,
}

impl Session {
    /// Begins with a page that was loaded: a line for each slot, and the page line are appended.
    pub fn begin(alloc: Global, page: LivePage, out: &mut Vec<u8>) -> Result<Session, Memory>
        requires alive { IsAlive page }
        ensures page { IfOk result (λ s. s.page ≡ page) }
        ensures many { IfOk result (λ s. length s.written.items ≡ length page.findings.names.items) }
        ensures first { IfOk result (λ s. (pieces : List PagePiece) (owns : List (Option OwnState))
            → Shows page pieces owns
            → AppendsFirst page.findings owns pieces (map shown s.written.items) out.old.items out.new.items) }
    {
        let written = entries(alloc, &page)?;
        push_slots(&written, out)?;
        push_page(alloc, &page, out)?;
        Ok(Session { page, written })
    }

    /// The page takes an event or an advance, and the answer is appended.
    pub fn take(&mut self, alloc: Global, item: HostItem, out: &mut Vec<u8>) -> Result<(), Memory>
        requires alive { IsAlive self.old.page }
        requires many { length self.old.written.items ≡ length self.old.page.findings.names.items }
        requires room { self.old.page.taken < 4096 }
        requires shape { IsItem item (length self.old.page.findings.names.items) }
        ensures lives { OnOk result
            ((parts : List Part) (pairs : List (ℕ
            × ℕ)) (runs : List SlotRun) (files : List Source) (items : List Said)
            → Lives parts pairs runs files items self.old.page
            → Lives parts pairs runs files (items ++ said_of item ∷ []) self.new.page) }
        ensures answer { OnOk result ((pieces : List PagePiece) (owns : List (Option OwnState))
            → Shows self.new.page pieces owns
            → AppendsAnswer self.new.page.findings owns (touched_by (said_of item)) self.new.page.taken
            (map shown self.old.written.items) (map shown self.new.written.items) out.old.items out.new.items) }
        ensures many { OnOk result (length self.new.written.items ≡ length self.new.page.findings.names.items) }
    {
        let touched = touched_by(&item);
        self.page.take(alloc, item)?;
        tell(alloc, &self.page, touched, &mut self.written, out)?;
        Ok(())
    }

    /// The page takes a swap of a slot that brings this file, and the answer is appended.
    pub fn swap(
        &mut self,
        alloc: Global,
        to: u32,
        file: &SourceFile,
        out: &mut Vec<u8>,
    ) -> Result<(), Memory>
        requires alive { IsAlive self.old.page }
        requires many { length self.old.written.items ≡ length self.old.page.findings.names.items }
        requires room { self.old.page.taken < 4096 }
        requires there { to < length self.old.page.findings.names.items }
        requires few { length self.old.page.findings.swaps.slots.items < 4 }
        requires small { IsSmall file.now }
        ensures lives { OnOk result
            ((parts : List Part) (pairs : List (ℕ
            × ℕ)) (runs : List SlotRun) (files : List Source) (items : List Said) (name : List ℕ)
            → Lives parts pairs runs files items self.old.page
            → Lives parts pairs runs (files ++ source_of file.now ∷ [])
            (items ++ a_swap to name ∷ []) self.new.page) }
        ensures answer { OnOk result ((pieces : List PagePiece) (owns : List (Option OwnState)) (name : List ℕ)
            → Shows self.new.page pieces owns
            → AppendsAnswer self.new.page.findings owns (touched_by (a_swap to name)) self.new.page.taken
            (map shown self.old.written.items) (map shown self.new.written.items) out.old.items out.new.items) }
        ensures many { OnOk result (length self.new.written.items ≡ length self.new.page.findings.names.items) }
    {
        self.page.swap(alloc, to, file)?;
        tell(alloc, &self.page, Some(to), &mut self.written, out)?;
        Ok(())
    }
}

// The slot to which alone an item gives something.
fn touched_by(item: &HostItem) -> Option<u32>
    ensures { result ≡ touched_by (said_of item.now) }
{
    match item {
        HostItem::Event { to, .. } => Some(*to),
        HostItem::Advance(_) => None,
    }
}

// Appends the answer to the last item.
fn tell(
    alloc: Global,
    page: &LivePage,
    touched: Option<u32>,
    written: &mut Vec<Entry>,
    out: &mut Vec<u8>,
) -> Result<(), Memory>
    requires showing { IsShowing page.now }
    requires many { length written.old.items ≡ length page.now.findings.names.items }
    ensures answer { OnOk result ((pieces : List PagePiece) (owns : List (Option OwnState)) → Shows page.now pieces owns
        → AppendsAnswer page.now.findings owns touched page.now.taken (map shown written.old.items)
        (map shown written.new.items) out.old.items out.new.items) }
    ensures many { length written.new.items ≡ length written.old.items }
{
    let flags = renew(alloc, page, touched, written)?;
    let some = flagged(alloc, written, &flags)?;
    push_answer(page.taken, &some, out)?;
    Ok(())
}

// Appends the lines of slots.
fn push_slots(entries: &[Entry], out: &mut Vec<u8>) -> Result<(), Memory>
    ensures { OnOk result (out.new.items ≡ out.old.items ++ flat_map slot_text (map shown entries.now)) }
{
    'entries: for entry in entries {
        push_slot(entry, out)?;
    }
    Ok(())
}

// Appends the page line.
fn push_page(alloc: Global, page: &LivePage, out: &mut Vec<u8>) -> Result<(), Memory>
    requires showing { IsShowing page.now }
    ensures { OnOk result ((pieces : List PagePiece) (owns : List (Option OwnState)) → Shows page.now pieces owns
        → AppendsPage (page_of pieces (roots page.now.findings.names.items owns)) out.old.items out.new.items) }
{
    let mut text = Vec::new(alloc);
    page.host.print_page(alloc, &mut text)?;
    report_line(&Line::Page { text }, out)?;
    Ok(())
}
