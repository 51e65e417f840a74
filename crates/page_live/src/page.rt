//! A page that lives: it is loaded, and takes its items one after the other.
ghost use Rattle.std.specs.Prelude.{◌≡◌, ◌≤◌, ◌<◌, ◌++◌, ◌∷◌, [], ℕ, List, All, length, IfOk, OnOk};
ghost use Rattle.trace_reader.specs.Said.{Said, a_swap};
ghost use Rattle.manifest_reader.specs.Page.{Part};
ghost use Rattle.slot_check.specs.Sources.{Source};
ghost use Rattle.slot_check.specs.Verdicts.{source_of, sources_of, IsSmall};
ghost use Rattle.page_check.specs.Fits.{IsFit};
ghost use Rattle.page_check.specs.Runs.{SlotRun};
ghost use Rattle.slot_lives.specs.Outcome.{IsReport};
ghost use Rattle.page_play.specs.Housed.{IsItem};
ghost use Rattle.page_play.specs.Findings.{found_refused};
ghost use Rattle.page_play.specs.Settled.{said_of};
ghost use Rattle.page_live.specs.Page.{IsAlive, IsLiveReport, Lives, names_in, parts_in, runs_of};

use crate::hosting::{give_item, give_swap, load_page};
use code_units::{Memory, Text};
use keyed_names::Keys;
use manifest_reader::Manifest;
use page_check::{JudgedPage, Later, judge_page};
use page_play::{Findings, Host, HostItem, Swaps, report_of};
use slot_check::{Refusal, SourceFile};
use std::alloc::Global;

/// A page that has done with its items, and takes more of them.
#[derive(Drop)]
pub struct LivePage {
    pub host: Host,
    pub findings: Findings,
    /// The files of its slots, and the libraries behind them.
    pub sources: Vec<SourceFile>,
    /// What was found of the libraries, for the files of swaps to come.
    pub later: Later,
    /// The units of a pick.
    pub slice: u32,
    /// How many items it took.
    pub taken: u32,
}

impl LivePage {
    /// The page of a manifest, whose slots have these names, with the files that it names: loaded, with rounds of posts
    /// to their end. The only error is want of memory.
    pub fn load(
        alloc: Global,
        manifest: Manifest,
        sources: Vec<SourceFile>,
        names: Vec<Text>,
        slice: u32,
    ) -> Result<LivePage, Memory>
        requires some { 1 ≤ slice }
        requires fit { IsFit manifest }
        requires named { names.items ≡ names_in manifest }
        requires many { length names.items ≤ length sources.items }
        requires small { All IsSmall sources.items }
        ensures { IfOk result (Lives (parts_in manifest) manifest.channels.items
            (runs_of manifest (sources_of sources.items)) [] []) }
    {
        let (files, libs) = sources.split_at(names.len());
        let page = judge_page(alloc, manifest, files, libs, &[], &[])?;
        let keys = keys_of(alloc, &sources)?;
        let JudgedPage {
            spec,
            refusals,
            later,
            ..
        } = page;
        let host = load_page(alloc, keys, spec, slice)?;
        let findings = first_findings(alloc, names, refusals);
        Ok(LivePage {
            host,
            findings,
            sources,
            later,
            slice,
            taken: 0,
        })
    }

    /// The page takes an event or an advance: it is given, and rounds of posts follow to their end. The only error is
    /// want of memory; then the page is of no use any more.
    pub fn take(&mut self, alloc: Global, item: HostItem) -> Result<(), Memory>
        requires alive { IsAlive self.old }
        requires room { self.old.taken < 4096 }
        requires shape { IsItem item (length self.old.findings.names.items) }
        ensures { OnOk result ((parts : List Part) (pairs : List (ℕ
            × ℕ)) (runs : List SlotRun) (files : List Source) (items : List Said)
            → Lives parts pairs runs files items self.old
            → Lives parts pairs runs files (items ++ said_of item ∷ []) self.new) }
    {
        give_item(alloc, &mut self.host, item, self.slice)?;
        self.taken += 1;
        Ok(())
    }

    /// The page takes a swap of a slot that brings this file: it is judged, given as the next life of the slot,
    /// and rounds of posts follow to their end. The error is as that of `take`.
    pub fn swap(&mut self, alloc: Global, to: u32, file: &SourceFile) -> Result<(), Memory>
        requires alive { IsAlive self.old }
        requires room { self.old.taken < 4096 }
        requires there { to < length self.old.findings.names.items }
        requires few { length self.old.findings.swaps.slots.items < 4 }
        requires small { IsSmall file.now }
        ensures { OnOk result ((parts : List Part) (pairs : List (ℕ
            × ℕ)) (runs : List SlotRun) (files : List Source) (items : List Said) (name : List ℕ)
            → Lives parts pairs runs files items self.old
            → Lives parts pairs runs (files ++ source_of file.now ∷ []) (items ++ a_swap to name ∷ []) self.new) }
    {
        let (_, libs) = self.sources.split_at(self.findings.names.len());
        let name = &self.findings.names[to as usize];
        let one = self.later.judge(alloc, name, file, libs)?;
        give_swap(alloc, &mut self.host, to, one.content, self.slice)?;
        self.taken += 1;
        self.findings.swaps.slots.push(to)?;
        self.findings.swaps.positions.push(self.taken)?;
        self.findings.brought.push(one.refusal)?;
        Ok(())
    }

    /// The report on the items so far. On a page without channels it is what a replay of them writes; on one with
    /// channels posts were delivered between items (`LivesOn`). The only error is want of memory.
    pub fn report(&self, alloc: Global) -> Result<Vec<u8>, Memory>
        requires alive { IsAlive self.now }
        ensures live { IfOk result
            (λ bytes. (parts : List Part) (pairs : List (ℕ
            × ℕ)) (runs : List SlotRun) (files : List Source) (items : List Said)
            → Lives parts pairs runs files items self.now → IsLiveReport parts pairs runs files items bytes.items) }
        ensures replayed { IfOk result
            (λ bytes. (parts : List Part) (runs : List SlotRun) (files : List Source) (items : List Said)
            → Lives parts [] runs files items self.now
            → IsReport parts [] runs files items (found_refused self.now.findings) bytes.items) }
    {
        let bytes = report_of(alloc, &self.findings, &self.host)?;
        Ok(bytes)
    }
}

// What was found of the files of slots, before any swap.
fn first_findings(alloc: Global, names: Vec<Text>, refusals: Vec<Option<Refusal>>) -> Findings
    ensures names { result.names ≡ names }
    ensures refusals { result.refusals ≡ refusals }
    ensures slots { result.swaps.slots.items ≡ [] }
    ensures positions { result.swaps.positions.items ≡ [] }
    ensures brought { result.brought.items ≡ [] }
{
    Findings {
        names,
        refusals,
        swaps: Swaps {
            slots: Vec::new(alloc),
            positions: Vec::new(alloc),
        },
        brought: Vec::new(alloc),
    }
}

// The keys of the host's tables, from the files that were read.
fn keys_of(alloc: Global, sources: &[SourceFile]) -> Result<Keys, Memory> {
    let mut files = Vec::new(alloc);
    'sources: for source in sources {
        files.push(source.bytes.as_slice())?;
    }
    Ok(Keys::of_files(&files))
}
