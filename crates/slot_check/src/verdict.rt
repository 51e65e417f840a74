//! The verdict on a slot.
ghost use Rattle.std.specs.Prelude.{All, IfOk, IfErr};
ghost use Rattle.slot_check.specs.Verdicts.{sources_of, slot_of, IsSmall, AreJudged, IsAcceptedWidget, IsRefused, Refuses};

use crate::fault::SlotFault;
use crate::libraries::Libraries;
use crate::parts::{judge_id, judge_markup, judge_named, judge_span};
use crate::sources::SourceFile;
use adsafe_rules::{Accepted, Scope};
use code_units::Text;
use std::alloc::Global;
use widget_form::Form;

/// The widget of a slot that breaks no rule.
#[derive(Drop)]
pub struct Widget {
    /// The form of its file, which has its subtree.
    pub form: Form,
    /// The places of its libraries among those of the manifest, in the order of its scripts.
    pub libs: Vec<usize>,
    /// Its last script.
    pub script: Accepted,
}

/// Judges a slot with its file, over the libraries of its manifest. The first part that breaks a
/// rule decides: the markup of the file, its `ADSAFE.id` script, its libraries in order, its last
/// script.
///
/// # Errors
/// `Broken` exactly where a rule is broken, with the first of them.
pub fn judge_slot(
    alloc: Global,
    name: &Text,
    file: &SourceFile,
    libs: &[SourceFile],
    judged: &mut Libraries,
) -> Result<Widget, SlotFault>
    requires small { IsSmall file.now }
    requires smalls { All IsSmall libs.now }
    requires judged { AreJudged (sources_of libs.now) judged.old }
    ensures accepted { IfOk result (IsAcceptedWidget (slot_of name.now file.now libs.now)) }
    ensures refused { IfErr result (Refuses (IsRefused (slot_of name.now file.now libs.now))) }
    ensures judged { AreJudged (sources_of libs.now) judged.new }
{
    let form = judge_markup(alloc, name, &judged.keys, file)?;
    judge_id(alloc, name, file, form.id_script)?;
    let places = judge_named(alloc, &form.libs, libs, judged)?;
    let scope = Scope::Go(name.share()?);
    let script = judge_span(alloc, &scope, file, form.script)?;
    Ok(Widget {
        form,
        libs: places,
        script,
    })
}
