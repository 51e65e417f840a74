//! The laws of tidied libraries.
ghost use Rattle.std.specs.Prelude.{◌≡◌, ◌↔◌, ℕ, List, Option, Bool};
ghost use Rattle.trace_text.specs.declared.line.Rule.{Rule};
ghost use Rattle.trace_reader.specs.Said.{Said};
ghost use Rattle.manifest_reader.specs.Page.{Part};
ghost use Rattle.slot_check.specs.Sources.{Source, Slot};
ghost use Rattle.slot_check.specs.Slot.{SlotFirst, IsCleanSlot};
ghost use Rattle.widget_meaning.specs.OwnState.{OwnState};
ghost use Rattle.widget_meaning.specs.Items.{Item};
ghost use Rattle.widget_meaning.specs.Alone.{Content};
ghost use Rattle.place_laws.specs.Bare.{bare_content};
ghost use Rattle.page_plan.specs.Pages.{root_of};
ghost use Rattle.page_check.specs.Runs.{SlotRun, runs_over};
ghost use Rattle.page_check.specs.Widgets.{HasWidget};
ghost use Rattle.slot_lives.specs.Lives.{Life};
ghost use Rattle.slot_lives.specs.Ends.{IsLine};
ghost use Rattle.slot_lives.specs.EndLaws.{IsEnd};
ghost use Rattle.slot_lives.specs.Outcome.{IsReport};
ghost use Rattle.slot_lives.specs.Tidied.{AreTidied, slot_over, run_over, life_over};

/// With the tidied text of libraries in their place a slot is accepted or refused as before, for the same rule at
/// the same byte of the same file, and its widget is the same, but for the places of tokens.
pub fn tidied_slots()
    ensures accepted { (slot : Slot) (libs : List Source) → AreTidied slot.libs libs →
        IsCleanSlot slot ↔ IsCleanSlot (slot_over libs slot) }
    ensures refused { (slot : Slot) (libs : List Source) (rule : Rule) (file : Source) (at : ℕ)
        → AreTidied slot.libs libs →
        SlotFirst slot rule file at ↔ SlotFirst (slot_over libs slot) rule file at }
    ensures widget { (slot : Slot) (libs : List Source) (x y : Content) → AreTidied slot.libs libs → HasWidget slot x →
        HasWidget (slot_over libs slot) y → bare_content x ≡ bare_content y }
{}

/// A slot's line and its subtree are then the same, whatever it is given.
pub fn tidied_lives()
    ensures line { (life : Life SlotRun) (libs : List Source) (items : List Item) (e f : Option OwnState)
        (a b : List ℕ) →
        AreTidied life.runs.slot.libs libs → IsEnd life.runs items e → IsEnd (run_over libs life.runs) items f →
        IsLine life e a → IsLine (life_over libs life) f b → a ≡ b }
    ensures subtree { (run : SlotRun) (libs : List Source) (items : List Item) (e f : Option OwnState) →
        AreTidied run.slot.libs libs → IsEnd run items e → IsEnd (run_over libs run) items f →
        root_of run.slot.name e ≡ root_of run.slot.name f }
{}

/// And the report on a page has the same bytes.
pub fn tidied_page()
    ensures { (libs tidied : List Source) (parts : List Part) (channels : List (ℕ × ℕ)) (slots : List (List ℕ × ℕ))
        (files swapped : List Source) (items : List Said) (refused : Bool) (bytes : List ℕ) → AreTidied libs tidied →
        IsReport parts channels (runs_over libs slots files) swapped items refused bytes
        ↔ IsReport parts channels (runs_over tidied slots files) swapped items refused bytes }
{}
