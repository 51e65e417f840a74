//! Laws of the definitions.
ghost use Rattle.std.specs.Prelude.{◌≡◌, ℕ, false, true, List, length, Bool, Option};
ghost use Rattle.trace_reader.specs.Said.{Said};
ghost use Rattle.manifest_reader.specs.Page.{Part};
ghost use Rattle.slot_check.specs.Sources.{Source};
ghost use Rattle.widget_meaning.specs.OwnState.{OwnState};
ghost use Rattle.page_check.specs.Runs.{SlotRun};
ghost use Rattle.slot_lives.specs.Lives.{Life, is_swap, swaps_in};
ghost use Rattle.slot_lives.specs.LifeLaws.{LifeLaws, swaps};
ghost use Rattle.slot_lives.specs.OtherSlots.{OtherSlotLaws};
ghost use Rattle.slot_lives.specs.Names.{SameDelivered};
ghost use Rattle.slot_lives.specs.Ends.{IsLine};
ghost use Rattle.slot_lives.specs.Outcome.{ComeTo, IsReport, Outcome};
ghost use Rattle.slot_lives.specs.EndLaws.{EndLaws, OtherEnds};
ghost use Rattle.slot_lives.specs.TwoPages.{TwoPages};

/// How the lives of a slot grow with the items of a trace: the last life takes each item that is for its slot,
/// a swap of the slot ends it and begins another, and nothing else does.
pub fn lives<Runs>()
    ensures { (first : Runs) (others : List Runs) (w : ℕ) → LifeLaws first others w }
{}

/// Where a swap is left out of a trace, and what it brings out of what swaps bring, every other slot has the
/// same lives.
pub fn other_slots<Runs>()
    ensures { (first x : Runs) (before after : List Runs) (front back : List Said) (i : Said) (w : ℕ) →
        is_swap i ≡ true → swaps w i ≡ false → length before ≡ swaps_in front →
        OtherSlotLaws first x before after front back i w }
{}

/// Where no two slots have one name, what is delivered to a name is what is given to the slot's number.
pub fn delivered()
    ensures { SameDelivered }
{}

/// A page comes to one outcome, and has one report.
pub fn one_outcome()
    ensures line { (life : Life SlotRun) (end : Option OwnState) (a b : List ℕ) → IsLine life end a
        → IsLine life end b →
        a ≡ b }
    ensures last { (channels : List (ℕ × ℕ)) (lasts : List (Life SlotRun)) (e f : List (Option OwnState)) →
        ComeTo channels lasts e → ComeTo channels lasts f → e ≡ f }
    ensures outcome { (channels : List (ℕ × ℕ)) (runs : List SlotRun) (files : List Source) (items : List Said)
        (r q : Bool) (e f : List (Option OwnState)) (a b : List ℕ) → Outcome channels runs files items r e a →
        Outcome channels runs files items q f b → (r ≡ q) × ((e ≡ f) × (a ≡ b)) }
    ensures report { (parts : List Part) (channels : List (ℕ × ℕ)) (runs : List SlotRun) (files : List Source)
        (items : List Said) (r q : Bool) (a b : List ℕ) → IsReport parts channels runs files items r a →
        IsReport parts channels runs files items q b → (r ≡ q) × (a ≡ b) }
{}

/// Each life comes to what its widget comes to by itself on what it was given: an ended one on the items of the
/// trace alone, a last one also on what rounds of posts give it, which without channels is nothing.
pub fn ends()
    ensures { (channels : List (ℕ × ℕ)) (lives : List (Life SlotRun)) (ends : List (Option OwnState)) →
        EndLaws channels lives ends }
{}

/// Lives of two pages whose slots agree in name, fuel, file and used libraries, and to which the same is given, come
/// to the same and have the same line, where both are accepted, whatever else stands on their pages.
pub fn two_pages()
    ensures { TwoPages }
{}

/// Without channels a swap changes nothing of the last lives of the other slots, and of what they come to.
pub fn other_ends()
    ensures { OtherEnds }
{}
