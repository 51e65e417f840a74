//! The trees of the scripts of each slot: those of the libraries that it names, which stand once for all slots, and
//! that of its own.
ghost use Rattle.std.specs.Prelude.{◌≡◌, ◌++◌, [], ◌∷◌, IfOk, Some, map, slice_get};
ghost use Rattle.adsafe_rules.specs.Accepts.{tree_of};
ghost use Rattle.js_names.specs.Code.{tree_in};
ghost use Rattle.page_load.specs.Starts.{AreScripts, AreScriptsAt, AreStarts, IsStart};

use adsafe_rules::Accepted;
use code_units::Memory;
use js_names::Code;
use page_plan::{SlotContent, SlotSpec};
use std::alloc::Global;
use std::collections::VecDeque;

/// The trees of the scripts of a widget: of the libraries that it names, in their order, and of its last script.
#[derive(Drop)]
pub(crate) struct Scripts {
    pub(crate) libs: Vec<Code>,
    pub(crate) script: Code,
}

/// A slot whose page was made: its scripts, none where it was refused.
#[derive(Drop)]
pub(crate) struct Start {
    pub(crate) fuel: u32,
    pub(crate) scripts: Option<Scripts>,
}

// The tree of a script, with its names.
fn code_of(alloc: Global, script: Accepted) -> Result<Code, Memory>
    ensures { IfOk result (λ code. tree_in code ≡ tree_of script) }
{
    let fun = script.fun();
    Code::new(alloc, script.into_tree(), fun)
}

/// The trees of the libraries, in their order.
pub(crate) fn library_codes(alloc: Global, libs: Vec<Accepted>) -> Result<Vec<Code>, Memory>
    ensures { IfOk result (λ codes. map tree_in codes.items ≡ map tree_of libs.items) }
{
    let mut codes = Vec::with_capacity(alloc, libs.len())?;
    'libs: for lib in libs {
        codes.push(code_of(alloc, lib)?)?;
    }
    Ok(codes)
}

// The library at a place, for one more widget.
fn library_at(libs: &[Code], place: u32) -> Result<Code, Memory>
    ensures { IfOk result (λ code. slice_get (map tree_in libs.now) place ≡ Some (tree_in code)) }
{
    match libs.get(place as usize) {
        Some(code) => code.share(),
        None => Err(Memory),
    }
}

// The libraries at these places.
fn libraries_at(alloc: Global, libs: &[Code], places: &[u32]) -> Result<Vec<Code>, Memory>
    ensures { IfOk result (λ codes. map (λ c. Some (tree_in c)) codes.items
        ≡ map (slice_get (map tree_in libs.now)) places.now) }
{
    let mut codes = Vec::with_capacity(alloc, places.len())?;
    'places: for place in places {
        codes.push(library_at(libs, *place)?)?;
    }
    Ok(codes)
}

/// The scripts of a widget, over the libraries of its page.
pub(crate) fn scripts_with(
    alloc: Global,
    libs: &[Code],
    places: &[u32],
    script: Accepted,
) -> Result<Scripts, Memory>
    ensures { IfOk result (AreScriptsAt (map tree_in libs.now) places.now script) }
{
    let libs = libraries_at(alloc, libs, places)?;
    let script = code_of(alloc, script)?;
    Ok(Scripts { libs, script })
}

// The scripts of a slot, over the libraries of its page.
fn scripts_of(alloc: Global, libs: &[Code], content: SlotContent) -> Result<Option<Scripts>, Memory>
    ensures { IfOk result (AreScripts (map tree_in libs.now) content) }
{
    match content {
        SlotContent::Runs {
            libs: places,
            script,
            ..
        } => {
            let scripts = scripts_with(alloc, libs, &places, script)?;
            Ok(Some(scripts))
        }
        SlotContent::Refused => Ok(None),
    }
}

// A slot with its scripts.
fn start_of(alloc: Global, libs: &[Code], slot: SlotSpec) -> Result<Start, Memory>
    ensures { IfOk result (IsStart (map tree_in libs.now) slot) }
{
    let scripts = scripts_of(alloc, libs, slot.content)?;
    Ok(Start {
        fuel: slot.fuel,
        scripts,
    })
}

/// The slots with their scripts, over the libraries of the page.
pub(crate) fn starts_of(
    alloc: Global,
    libs: &[Code],
    slots: Vec<SlotSpec>,
) -> Result<VecDeque<Start>, Memory>
    ensures { IfOk result (λ starts. AreStarts (map tree_in libs.now) slots.items starts.items) }
{
    let mut starts = VecDeque::new(alloc);
    'slots: for slot in slots {
        starts.push_back(start_of(alloc, libs, slot)?)?;
    }
    Ok(starts)
}

/// The trees of all scripts of a widget, in their order.
pub(crate) fn all_codes(scripts: Scripts) -> Result<Vec<Code>, Memory>
    ensures { IfOk result (λ codes. codes.items ≡ scripts.libs.items ++ scripts.script ∷ []) }
{
    let mut codes = scripts.libs;
    codes.push(scripts.script)?;
    Ok(codes)
}
