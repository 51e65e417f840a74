//! What the file of a slot brings: its widget, or the first rule that it breaks.
ghost use Rattle.std.specs.Prelude.{◌≡◌, ◌<◌, ◌^◌, All, List, Some, length, map, get_or, IfOk, OnOk};
ghost use Rattle.adsafe_rules.specs.declared.accepted.Accepted.{Accepted};
ghost use Rattle.slot_check.specs.Verdicts.{sources_of, slot_of, IsSmall, IsAcceptedWidget};
ghost use Rattle.slot_check.specs.Sources.{Slot};
ghost use Rattle.page_plan.specs.declared.SlotContent.TheVariants as slot;
ghost use Rattle.page_plan.specs.Contents.{content_of};
ghost use Rattle.page_plan.specs.Loadable.{IsSwapLoadable};
ghost use Rattle.page_check.specs.Judged.{JudgesOn, JudgesOver, KeepsLibraries, content_in, IsJudged};

use crate::libraries::Later;
use code_units::{Memory, Text};
use page_plan::SlotContent;
use slot_check::{Refusal, SlotFault, SourceFile, Widget, judge_slot};
use std::alloc::Global;

/// A content for a host, and the first rule that its file breaks, where it breaks one.
#[derive(Drop)]
pub struct JudgedContent {
    pub content: SlotContent,
    pub refusal: Option<Refusal>,
}

/// No memory holds as many scripts of one file.
const MOST_SCRIPTS: usize = 0x8000_0000;

impl Later {
    /// Judges a file for the slot of this name, over the libraries of its manifest: it brings its widget, or the first
    /// rule that it breaks. A host that has loaded the page may be given what it brings. Other files can be judged
    /// afterwards, also where memory was wanted.
    pub fn judge(
        &mut self,
        alloc: Global,
        name: &Text,
        file: &SourceFile,
        libs: &[SourceFile],
    ) -> Result<JudgedContent, Memory>
        requires small { IsSmall file.now }
        requires small_libs { All IsSmall libs.now }
        requires over { (accepted : List Accepted) × JudgesOver (sources_of libs.now) accepted self.old }
        ensures is { IfOk result (λ one. (accepted : List Accepted) → JudgesOver (sources_of libs.now) accepted self.old
            → IsJudged (slot_of name.now file.now libs.now) (content_of accepted one.content) one.refusal) }
        ensures loadable { IfOk result (λ one. (accepted : List Accepted)
            → JudgesOver (sources_of libs.now) accepted self.old
            → IsSwapLoadable (length accepted) name.now one.content) }
        ensures stays { JudgesOn (sources_of libs.now) self.old self.new }
    {
        match judge_slot(alloc, name, file, libs, &mut self.judged) {
            Ok(widget) => {
                let content = runs(alloc, widget, self)?;
                Ok(JudgedContent {
                    content,
                    refusal: None,
                })
            }
            Err(SlotFault::Broken(refusal)) => Ok(refused(refusal)),
            Err(SlotFault::Memory) => Err(Memory),
        }
    }
}

// The content of a file that breaks a rule first.
fn refused(refusal: Refusal) -> JudgedContent
    ensures { result ≡ record { content = slot.Refused; refusal = Some refusal } }
{
    JudgedContent {
        content: SlotContent::Refused,
        refusal: Some(refusal),
    }
}

// What a host runs of a widget.
fn runs(alloc: Global, widget: Widget, later: &Later) -> Result<SlotContent, Memory>
    requires { All (λ place. place < length later.now.places.items) widget.libs.items }
    ensures content { IfOk result (λ content. (accepted : List Accepted)
        → content_of accepted content ≡ Some (content_in accepted later.now.places.items widget)) }
    ensures loadable { IfOk result (λ content. (s : Slot) (accepted : List Accepted)
        → KeepsLibraries s.libs accepted later.now.places.items
        → IsAcceptedWidget s widget → IsSwapLoadable (length accepted) s.name content) }
{
    let Widget { form, libs, script } = widget;
    let libs = places_of(alloc, &libs, &later.places)?;
    Ok(SlotContent::Runs {
        body: form.body,
        libs,
        script,
    })
}

// The places of these libraries among those that were accepted.
fn places_of(alloc: Global, libs: &[usize], places: &[u32]) -> Result<Vec<u32>, Memory>
    requires { All (λ lib. lib < length places.now) libs.now }
    ensures places { IfOk result (λ all. all.items ≡ map (λ lib. get_or places.now lib 0) libs.now) }
    ensures few { OnOk result (length libs.now < 2 ^ 31) }
{
    if libs.len() >= MOST_SCRIPTS {
        return Err(Memory);
    }
    let mut all = Vec::with_capacity(alloc, libs.len())?;
    'libs: for lib in libs {
        all.push(places[*lib])?;
    }
    Ok(all)
}
