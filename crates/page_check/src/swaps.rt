//! What the files of swaps bring.
ghost use Rattle.std.specs.Prelude.{◌≡◌, ◌<◌, All, List, length, map, IfOk, OnOk};
ghost use Rattle.std.specs.List.{zip};
ghost use Rattle.adsafe_rules.specs.declared.accepted.Accepted.{Accepted};
ghost use Rattle.slot_check.specs.Sources.{Source};
ghost use Rattle.slot_check.specs.Verdicts.{sources_of, IsSmall};
ghost use Rattle.page_plan.specs.Loadable.{AreLoadableSwaps};
ghost use Rattle.page_check.specs.Runs.{runs_over, swap_runs};
ghost use Rattle.page_check.specs.Judged.{JudgesOn, JudgesOver, AreJudgedSwaps, name_of, key_of};

use crate::libraries::Later;
use code_units::Memory;
use page_plan::{SlotContent, SlotSpec};
use slot_check::{Refusal, SourceFile};
use std::alloc::Global;

/// What each swap brings into its slot, and the first rule that it breaks there, where it breaks one.
#[derive(Drop)]
pub struct JudgedSwaps {
    pub contents: Vec<SlotContent>,
    pub refusals: Vec<Option<Refusal>>,
}

/// Judges the files of swaps, each for the slot of its number among these, over the libraries of
/// their manifest.
pub fn judge_swaps(
    alloc: Global,
    specs: &[SlotSpec],
    slots: &[u32],
    files: &[SourceFile],
    libs: &[SourceFile],
    later: &mut Later,
) -> Result<JudgedSwaps, Memory>
    requires paired { length slots.now ≡ length files.now }
    requires there { All (λ to. to < length specs.now) slots.now }
    requires small { All IsSmall files.now }
    requires small_libs { All IsSmall libs.now }
    requires over { (accepted : List Accepted) × JudgesOver (sources_of libs.now) accepted later.old }
    ensures judged { IfOk result (λ all. (accepted : List Accepted)
        → JudgesOver (sources_of libs.now) accepted later.old
        → (own : List Source) → length own ≡ length specs.now → AreJudgedSwaps accepted
        (swap_runs (runs_over (sources_of libs.now) (map name_of specs.now) own)
        (zip slots.now (sources_of files.now))) all.contents.items all.refusals.items) }
    ensures loadable { IfOk result (λ all. (accepted : List Accepted)
        → JudgesOver (sources_of libs.now) accepted later.old
        → AreLoadableSwaps (length accepted) (map key_of specs.now) slots.now all.contents.items) }
    ensures stays { OnOk result (JudgesOn (sources_of libs.now) later.old later.new) }
{
    let mut contents = Vec::new(alloc);
    let mut refusals = Vec::new(alloc);
    'swaps: for (i, to) in slots.iter().enumerate() {
        let slot = &specs[*to as usize];
        let one = later.judge(alloc, &slot.name, &files[i], libs)?;
        contents.push(one.content)?;
        refusals.push(one.refusal)?;
    }
    Ok(JudgedSwaps { contents, refusals })
}
