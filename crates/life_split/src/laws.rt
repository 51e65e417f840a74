//! Laws of the cut.
ghost use Rattle.std.specs.Prelude.{ℕ, List};
ghost use Rattle.life_split.specs.declared.items.LifeItem.{LifeItem};
ghost use Rattle.life_split.specs.CutLaws.{CutLaws};

/// The lives of a slot and the swaps that end them are all items, in order; each item lies in one life.
pub fn cuts()
    ensures { (w : ℕ) (items : List LifeItem) → CutLaws w items }
{}
