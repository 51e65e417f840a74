//! What the definitions mean: the functions do nothing, and their contracts are the laws.
ghost use Rattle.std.specs.Prelude.{◌≡◌, ℕ, List};
ghost use Rattle.manifest_reader.specs.declared.entry.Manifest.{Manifest};
ghost use Rattle.manifest_reader.specs.Manifest.{ReadsManifest};
ghost use Rattle.trace_text.specs.declared.line.Rule.{Rule};
ghost use Rattle.slot_check.specs.Sources.{Source, Slot};
ghost use Rattle.slot_check.specs.Slot.{SlotFirst, IsCleanSlot};
ghost use Rattle.widget_meaning.specs.Alone.{Content};
ghost use Rattle.page_check.specs.Fits.{IsFit};
ghost use Rattle.page_check.specs.Widgets.{HasWidget};

/// A slot has at most one widget, and none where it breaks a rule first.
pub fn one_widget()
    ensures widget { (slot : Slot) (x y : Content) → HasWidget slot x → HasWidget slot y → x ≡ y }
    ensures refused { (slot : Slot) (x : Content) (rule : Rule) (file : Source) (at : ℕ) → HasWidget slot x →
        ¬ SlotFirst slot rule file at }
    ensures clean { (slot : Slot) → IsCleanSlot slot → ¬ ((x : Content) → ¬ HasWidget slot x) }
{}

/// The page of each manifest that is read is one that a host may load.
pub fn read_manifests_fit()
    ensures { (bytes : List ℕ) (manifest : Manifest) → ReadsManifest bytes manifest → IsFit manifest }
{}
