//! The libraries of a manifest, each read once.
ghost use Rattle.std.specs.Prelude.{ℕ, List, All, IfOk, OnOk};
ghost use Rattle.slot_check.specs.Verdicts.{sources_of, IsSmall, IsLibraryJudged, AreJudged};
ghost use Rattle.page_check.specs.Judged.{KeepsLibraries, KeepsOne};

use adsafe_rules::Accepted;
use code_units::Memory;
use first_breach::Breach;
use slot_check::{Libraries, SourceFile};
use std::alloc::Global;

/// What was found of the libraries of a manifest, so that files can be judged over them: what is known of each, and
/// its place among those that were accepted. The place of one that breaks a rule says nothing.
#[derive(Drop)]
pub struct Later {
    pub(crate) judged: Libraries,
    pub(crate) places: Vec<u32>,
}

/// The libraries of a manifest that break no rule, and what was found of all.
#[derive(Drop)]
pub struct Accepting {
    pub accepted: Vec<Accepted>,
    pub later: Later,
}

/// Judges the libraries of a manifest.
pub fn accept_libraries(alloc: Global, libs: &[SourceFile]) -> Result<Accepting, Memory>
    requires { All IsSmall libs.now }
    ensures judged { IfOk result (λ all. AreJudged (sources_of libs.now) all.later.judged) }
    ensures kept { IfOk result (λ all. KeepsLibraries (sources_of libs.now) all.accepted.items all.later.places.items) }
{
    let mut judged = Libraries::new(alloc, libs)?;
    let mut accepted = Vec::new(alloc);
    let mut places = Vec::new(alloc);
    'libs: for at in 0..libs.len() {
        // No memory holds so many libraries.
        if accepted.len() > u32::MAX as usize {
            return Err(Memory);
        }
        places.push(accepted.len() as u32)?;
        let one = judged.accept(alloc, libs, at)?;
        keep(one, &mut accepted)?;
    }
    Ok(Accepting {
        accepted,
        later: Later { judged, places },
    })
}

// What was accepted of a library is kept behind the others.
fn keep(one: Result<Accepted, Breach>, accepted: &mut Vec<Accepted>) -> Result<(), Memory>
    ensures { OnOk result ((library : List ℕ) → IsLibraryJudged library one
        → KeepsOne library accepted.old.items accepted.new.items) }
{
    match one {
        Ok(script) => {
            accepted.push(script)?;
            Ok(())
        }
        Err(_) => Ok(()),
    }
}
