//! The page of a manifest, and what the swaps of a trace bring.
ghost use Rattle.std.specs.Prelude.{◌≡◌, ◌+◌, ◌<◌, ◌∷◌, [], All, length, map, IfOk, OnOk};
ghost use Rattle.std.specs.List.{zip};
ghost use Rattle.manifest_reader.specs.Page.{part_of};
ghost use Rattle.slot_check.specs.Verdicts.{sources_of, IsSmall};
ghost use Rattle.page_plan.specs.Pages.{piece_of};
ghost use Rattle.page_plan.specs.Loadable.{IsLoadable, AreLoadableSwaps, names_of};
ghost use Rattle.page_check.specs.Runs.{named, slots_named, pieces_from, pieces};
ghost use Rattle.page_check.specs.Fits.{IsFit};
ghost use Rattle.page_check.specs.Judged.{IsJudgedPage, JudgesOver};

use crate::libraries::{Later, accept_libraries};
use crate::slots::judge_slots;
use crate::swaps::{JudgedSwaps, judge_swaps};
use code_units::Memory;
use manifest_reader::{Entry, Manifest};
use page_plan::{PageSpec, Piece};
use slot_check::{Refusal, SourceFile};
use std::alloc::Global;

/// The page of a manifest for a host, and the first rule that each slot breaks, where it breaks one; the same of
/// the swaps of a trace; and what was found of the libraries, for the files of later swaps.
#[derive(Drop)]
pub struct JudgedPage {
    pub spec: PageSpec,
    pub refusals: Vec<Option<Refusal>>,
    pub swaps: JudgedSwaps,
    pub later: Later,
}

/// Judges the slots of a manifest with their files, over its libraries, and the files of swaps, each
/// for the slot of its number and over the same libraries. A host may load the page and what the
/// swaps bring. Files of later swaps can be judged over these libraries.
pub fn judge_page(
    alloc: Global,
    manifest: Manifest,
    files: &[SourceFile],
    libs: &[SourceFile],
    swap_slots: &[u32],
    swap_files: &[SourceFile],
) -> Result<JudgedPage, Memory>
    requires fit { IsFit manifest }
    requires paired { length (slots_named (map part_of manifest.entries.items)) ≡ length files.now }
    requires small { All IsSmall files.now }
    requires small_libs { All IsSmall libs.now }
    requires swaps { length swap_slots.now ≡ length swap_files.now }
    requires there { All (λ to. to < length files.now) swap_slots.now }
    requires small_swaps { All IsSmall swap_files.now }
    ensures page { IfOk result
        (IsJudgedPage manifest (sources_of files.now) (sources_of libs.now)
        (zip swap_slots.now (sources_of swap_files.now))) }
    ensures loadable { IfOk result (λ page. IsLoadable page.spec) }
    ensures swaps { IfOk result
        (λ page. AreLoadableSwaps (length page.spec.libs.items)
        (names_of page.spec) swap_slots.now page.swaps.contents.items) }
    ensures later { IfOk result (λ page. JudgesOver (sources_of libs.now) page.spec.libs.items page.later) }
{
    let all = accept_libraries(alloc, libs)?;
    let accepted = all.accepted;
    let mut later = all.later;
    let slots = judge_slots(alloc, &manifest.entries, files, libs, &mut later)?;
    let swaps = judge_swaps(
        alloc,
        &slots.slots,
        swap_slots,
        swap_files,
        libs,
        &mut later,
    )?;
    let spec = PageSpec {
        pieces: pieces_of(alloc, manifest.entries)?,
        libs: accepted,
        slots: slots.slots,
        channels: manifest.channels,
    };
    Ok(JudgedPage {
        spec,
        refusals: slots.refusals,
        swaps,
        later,
    })
}

// The pieces of a page, its slots numbered in order.
fn pieces_of(alloc: Global, entries: Vec<Entry>) -> Result<Vec<Piece>, Memory>
    ensures { IfOk result (λ all. map piece_of all.items ≡ pieces (map part_of entries.items)) }
{
    let mut all = Vec::with_capacity(alloc, entries.len())?;
    let mut slots = 0;
    'entries: for entry in entries {
        all.push(next_piece(entry, &mut slots)?)?;
    }
    Ok(all)
}

// The piece of an entry behind so many slots, of which it may be one more.
fn next_piece(entry: Entry, slots: &mut u32) -> Result<Piece, Memory>
    ensures piece { IfOk result (λ piece. piece_of piece ∷ [] ≡ pieces_from slots.old (part_of entry ∷ [])) }
    ensures slots { OnOk result (slots.new ≡ slots.old + length (named (part_of entry))) }
{
    match entry {
        Entry::Html(content) => Ok(Piece::Html(content)),
        Entry::Slot { .. } => {
            // No memory holds so many slots.
            if *slots == u32::MAX {
                return Err(Memory);
            }
            let number = *slots;
            *slots += 1;
            Ok(Piece::Slot(number))
        }
    }
}
