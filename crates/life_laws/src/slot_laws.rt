//! Laws of the definitions.
ghost use Rattle.std.specs.Prelude.{ℕ, List};
ghost use Rattle.life_laws.specs.Life.{Seen};
ghost use Rattle.life_laws.specs.declared.entry.PickEntry.{PickEntry};
ghost use Rattle.life_laws.specs.declared.entry.Picked.{Picked};
ghost use Rattle.life_laws.specs.SlotLaws.{ItemLaws, PassLaws, SlotLaws, SlotsLaws, SwapLaws};

/// A pick of a slot goes from life to life, until one begins a turn or none waits.
#[tactic(auto, using(crate::proofs::SlotsHold::pass_laws))]
pub fn passes()
    ensures { (k : ℕ) → PassLaws k }
{}

/// What a pick of a slot keeps of the others.
#[tactic(auto, using(crate::proofs::SlotsHold::slot_laws))]
pub fn slots()
    ensures { (homes : List ℕ) (born w k : ℕ) (r : Picked) (cs ds : List (List ℕ)) (old new : List Seen)
        (js ks : List PickEntry)
        → SlotLaws homes born w k r cs ds old new js ks }
{}

/// What is given to a slot goes to its last life, and is due there.
#[tactic(auto, using(crate::proofs::SlotsHold::item_laws))]
pub fn items()
    ensures { (homes : List ℕ) (born : ℕ) (cs : List (List ℕ)) (ss : List Seen) → ItemLaws homes born cs ss }
{}

/// A life that is born waits behind those of its slot, and no other life changes.
#[tactic(auto, using(crate::proofs::SlotsHold::swap_laws))]
pub fn swaps()
    ensures { (homes : List ℕ) (born to : ℕ) (cs : List (List ℕ)) (ss : List Seen) (x : Seen)
        → SwapLaws homes born to cs ss x }
{}

/// Picks of slots one after the other, with their asks, until no slot is ready.
#[tactic(auto, using(crate::proofs::SlotsHold::slots_laws))]
pub fn slots_settle()
    ensures { (k : ℕ) (homes : List ℕ) → SlotsLaws k homes }
{}
