//! The slots of a page, each with its widget or the first rule that it breaks.
ghost use Rattle.std.specs.Prelude.{◌≡◌, All, List, length, map, IfOk, OnOk};
ghost use Rattle.adsafe_rules.specs.declared.accepted.Accepted.{Accepted};
ghost use Rattle.manifest_reader.specs.Page.{part_of};
ghost use Rattle.slot_check.specs.Verdicts.{sources_of, IsSmall};
ghost use Rattle.page_plan.specs.declared.SlotSpec.{SlotSpec as SlotSpecOf};
ghost use Rattle.page_plan.specs.Loadable.{IsSwapLoadable};
ghost use Rattle.page_check.specs.Runs.{slots_named, runs_over};
ghost use Rattle.page_check.specs.Judged.{JudgesOn, JudgesOver, name_of, AreJudgedSlots};

use crate::libraries::Later;
use code_units::Memory;
use manifest_reader::Entry;
use page_plan::SlotSpec;
use slot_check::{Refusal, SourceFile};
use std::alloc::Global;

/// The slots of a page for a host, and the first rule that each breaks, where it breaks one.
#[derive(Drop)]
pub struct JudgedSlots {
    pub slots: Vec<SlotSpec>,
    pub refusals: Vec<Option<Refusal>>,
}

/// Judges the slots of a manifest with these files, over its libraries.
pub fn judge_slots(
    alloc: Global,
    entries: &[Entry],
    files: &[SourceFile],
    libs: &[SourceFile],
    later: &mut Later,
) -> Result<JudgedSlots, Memory>
    requires paired { length (slots_named (map part_of entries.now)) ≡ length files.now }
    requires small { All IsSmall files.now }
    requires small_libs { All IsSmall libs.now }
    requires over { (accepted : List Accepted) × JudgesOver (sources_of libs.now) accepted later.old }
    ensures names { IfOk result (λ all. map name_of all.slots.items ≡ slots_named (map part_of entries.now)) }
    ensures slots { IfOk result (λ all. (accepted : List Accepted) → JudgesOver (sources_of libs.now) accepted later.old
        → AreJudgedSlots accepted (runs_over (sources_of libs.now) (map name_of all.slots.items) (sources_of files.now))
        all.slots.items all.refusals.items) }
    ensures loadable { IfOk result (λ all. (accepted : List Accepted)
        → JudgesOver (sources_of libs.now) accepted later.old
        → All (λ (s : SlotSpecOf). IsSwapLoadable (length accepted) s.name s.content) all.slots.items) }
    ensures stays { OnOk result (JudgesOn (sources_of libs.now) later.old later.new) }
{
    let mut slots = Vec::new(alloc);
    let mut refusals = Vec::new(alloc);
    'entries: for entry in entries {
        match entry {
            Entry::Html(_) => {}
            Entry::Slot { name, fuel, .. } => {
                let key = name.share()?;
                let one = later.judge(alloc, name, &files[slots.len()], libs)?;
                slots.push(SlotSpec {
                    name: key,
                    fuel: *fuel,
                    content: one.content,
                })?;
                refusals.push(one.refusal)?;
            }
        }
    }
    Ok(JudgedSlots { slots, refusals })
}
