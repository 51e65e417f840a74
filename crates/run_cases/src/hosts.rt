//! Hosts of cases. A case is a JSON object (crate `part_cases`):
//!
//! - `files`: the text of each file by its name, among them the manifest `m.json` of the page
//! - `swap`: a slot, and the file that a swap brings into it
ghost use Rattle.std.specs.Prelude.{◌≡◌, ◌<◌, All, length, IfOk, IfSome};
ghost use Rattle.slot_check.specs.Verdicts.{IsSmall};
ghost use Rattle.page_check.specs.Fits.{IsFit};
ghost use Rattle.run_steps.specs.Page.{files_named, slot_names};
ghost use Rattle.run_cases.specs.Ready.{IsLoading, IsReady};

use crate::commands::mem_files;
use adhost_run::Host;
use code_units::{Memory, Text};
use host_io::MemFiles;
use keyed_names::Keys;
use manifest_reader::Manifest;
use page_check::{judge_page, read_manifests_fit};
use page_plan::{PageSpec, SlotContent};
use part_cases::list_at;
use run_steps::{FILE_LIMIT, files_of, manifest_in, read_file, slot_names};
use serde_json::Value;
use slot_check::SourceFile;
use std::alloc::Global;

/// A host on which calls are made: how many slots it has and how many items it was given; and a swap that it
/// was not given yet, the slot and what comes into it.
#[derive(Drop)]
pub struct Hosted {
    pub host: Host,
    pub slots: u32,
    pub given: u32,
    pub to: u32,
    pub left: Option<SlotContent>,
}

/// A page, and what a swap brings.
#[derive(Drop)]
pub struct Loading {
    pub spec: PageSpec,
    pub swap: Option<SlotContent>,
}

/// The host of the page of a case.
pub fn host_of(alloc: Global, case: &Value) -> Option<Hosted>
    ensures { IfSome result IsReady }
{
    let swap = list_at(case, "swap")?;
    let to = number_at(swap, 0)?;
    let file = swap.get(1)?.as_str()?;
    let loading = loading_of(alloc, &mut mem_files(alloc, case)?, to, file)?;
    load_host(alloc, loading, to)
}

/// The number at a place of a list.
pub fn number_at(list: &[Value], at: usize) -> Option<u32> {
    u32::try_from(list.get(at)?.as_u64()?).ok()
}

// The host of a page, and the swap that is left for it.
fn load_host(alloc: Global, loading: Loading, to: u32) -> Option<Hosted>
    requires { IsLoading to loading }
    ensures { IfSome result IsReady }
{
    let slots = u32::try_from(loading.spec.slots.len()).ok()?;
    match Host::load(alloc, Keys::of_files(&[]), loading.spec) {
        Ok(host) => Some(Hosted {
            host,
            slots,
            given: 0,
            to,
            left: loading.swap,
        }),
        Err(Memory) => return None,
    }
}

// The page of the manifest among these files, and what a swap of a slot brings that has one of them.
fn loading_of(alloc: Global, files: &mut MemFiles, to: u32, file: &str) -> Option<Loading>
    ensures { IfSome result (IsLoading to) }
{
    read_manifests_fit();
    let Ok(manifest) = manifest_in(alloc, "m.json", files) else {
        return None;
    };
    let Ok(sources) = files_of(alloc, &manifest, files) else {
        return None;
    };
    let swap = source_of(alloc, file, files)?;
    let Ok(names) = slot_names(alloc, &manifest.entries) else {
        return None;
    };
    if to as usize >= names.len() {
        return None;
    }
    match judged(alloc, manifest, &sources, &names, to, &swap) {
        Ok(loading) => Some(loading),
        Err(Memory) => return None,
    }
}

// A file, alone.
fn source_of(alloc: Global, file: &str, files: &mut MemFiles) -> Option<Vec<SourceFile>>
    ensures one { IfSome result (λ sources. length sources.items ≡ 1) }
    ensures small { IfSome result (λ sources. All IsSmall sources.items) }
{
    let Ok(bytes) = read_file(alloc, file, FILE_LIMIT, files) else {
        return None;
    };
    let name = String::from_str(alloc, file).ok()?;
    vec![in alloc; SourceFile { name, bytes }].ok()
}

// The page of a manifest with its files, and what a swap brings.
fn judged(
    alloc: Global,
    manifest: Manifest,
    sources: &[SourceFile],
    names: &[Text],
    to: u32,
    swap: &[SourceFile],
) -> Result<Loading, Memory>
    requires fit { IsFit manifest }
    requires many { length sources.now ≡ length (files_named manifest) }
    requires small { All IsSmall sources.now }
    requires named { names.now ≡ slot_names manifest.entries.items }
    requires there { to < length names.now }
    requires one { length swap.now ≡ 1 }
    requires small_swap { All IsSmall swap.now }
    ensures { IfOk result (IsLoading to) }
{
    let (files, libs) = sources.split_at(names.len());
    let page = judge_page(alloc, manifest, files, libs, &[to], swap)?;
    let spec = page.spec;
    let swaps = page.swaps;
    let mut contents = swaps.contents;
    Ok(Loading {
        spec,
        swap: contents.pop(),
    })
}
