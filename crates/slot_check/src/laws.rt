//! Laws above the definitions.
ghost use Rattle.std.specs.Prelude.{◌≡◌, ◌↔◌, ℕ, List, Bool};
ghost use Rattle.trace_text.specs.declared.line.Rule.{Rule};
ghost use Rattle.widget_form.specs.declared.form.Form.{Form};
ghost use Rattle.slot_check.specs.Slots.{FirstOfSlot, IsSlot};
ghost use Rattle.slot_check.specs.Sources.{Source, Slot};
ghost use Rattle.slot_check.specs.Slot.{SlotFirst, IsCleanSlot};
ghost use Rattle.slot_check.specs.Line.{IsSlotLine, AreSlotLines};

/// A slot breaks at most one rule first, in one file, at one byte, and is clean exactly where it
/// breaks none first; a slot has one line, as slots have one list of lines.
pub fn one_slot()
    ensures first { (slot : Slot) (r q : Rule) (a b : Source) (x y : ℕ) → SlotFirst slot r a x → SlotFirst slot q b y
        → (r ≡ q) × (a ≡ b) × (x ≡ y) }
    ensures clean { (slot : Slot) → IsCleanSlot slot ↔ ((r : Rule) (a : Source) (x : ℕ) → ¬ SlotFirst slot r a x) }
    ensures line { (slot : Slot) (r q : Bool) (b c : List ℕ) → IsSlotLine slot r b → IsSlotLine slot q c
        → (r ≡ q) × (b ≡ c) }
    ensures some_line { (slot : Slot) → ¬ ((r : Bool) (b : List ℕ) → ¬ IsSlotLine slot r b) }
    ensures lines { (slots : List Slot) (r q : Bool) (b c : List ℕ) → AreSlotLines slots r b → AreSlotLines slots q c
        → (r ≡ q) × (b ≡ c) }
{}

/// A widget file has one first broken markup rule at most, and one that has a form has none.
pub fn one_markup_rule()
    ensures first { (name : List ℕ) (libs : List (List ℕ)) (bytes : List ℕ) (rule at other place : ℕ)
        → FirstOfSlot name libs bytes rule at → FirstOfSlot name libs bytes other place
        → (rule ≡ other) × (at ≡ place) }
    ensures good { (name : List ℕ) (libs : List (List ℕ)) (bytes : List ℕ) (rule at : ℕ) (form : Form)
        → FirstOfSlot name libs bytes rule at → ¬ IsSlot name libs bytes form }
{}
