//! Laws of what the lives of slots were given: from a page that was loaded, over items and swaps.
ghost use Rattle.std.specs.Prelude.{◌≡◌, ◌<◌, ◌++◌, ◌∷◌, [], List, Option, false, length, map, slice_index_or, ℕ};
ghost use Rattle.adsafe_rules.specs.declared.accepted.Accepted.{Accepted};
ghost use Rattle.adsafe_rules.specs.Accepts.{tree_of};
ghost use Rattle.page_plan.specs.declared.PageSpec.{PageSpec};
ghost use Rattle.page_plan.specs.declared.SlotContent.{SlotContent};
ghost use Rattle.page_plan.specs.Contents.{content_of};
ghost use Rattle.life_laws.specs.Fed.{Fed};
ghost use Rattle.life_laws.specs.RoundLaws.{fed_at};
ghost use Rattle.widget_host.specs.declared.host.Host.{Host};
ghost use Rattle.widget_host.specs.declared.items.HostItem.{HostItem};
ghost use Rattle.widget_host.specs.Given.{AreEnded, begins, begun, with_item, with_swap};
ghost use Rattle.widget_host.specs.Housed.{GivesItem, GivesSwap, IsHoused, IsItem, Loads, chains, ends, fuels, libraries, marked, swaps};
ghost use Rattle.widget_host.specs.Rounds.{AreFed};

/// In a page that was loaded the last life of each slot is its first one, and was given nothing yet.
pub fn loaded_lives()
    ensures last { (spec : PageSpec) (h : Host) → Loads spec h → AreFed h (begun spec.libs.items spec.slots.items) }
    ensures ended { (spec : PageSpec) (h : Host) → Loads spec h → AreEnded h (ends h) [] }
{}

/// An item is given to the last life of the slot that it is for, an advance to that of each slot, and to no life that
/// a swap ends.
pub fn given_lives()
    ensures last { (i : HostItem) (old new : Host) (fs : List (Option Fed)) → IsHoused old → marked old ≡ false
        → IsItem i (length (chains old))
        → GivesItem i old new → AreFed old fs → AreFed new (with_item i 0 fs) }
    ensures ended { (i : HostItem) (old new : Host) (es : List (Option Fed)) → IsHoused old → marked old ≡ false
        → IsItem i (length (chains old))
        → GivesItem i old new → AreEnded old (ends old) es → AreEnded new (ends new) es }
{}

/// A swap begins the last life of its slot anew; the life that it ends has what it was given until then.
pub fn swapped_lives()
    ensures last { (libs : List Accepted) (to : ℕ) (content : SlotContent) (old new : Host) (fs : List (Option Fed))
        → IsHoused old → marked old ≡ false
        → to < length (chains old) → swaps old < 4 → libraries old ≡ map tree_of libs → GivesSwap to content old new
        → AreFed old fs → AreFed new
        (with_swap to (begins (slice_index_or (fuels old) to 0) (content_of libs content)) 0 fs) }
    ensures ended { (to : ℕ) (content : SlotContent) (old new : Host) (fs es : List (Option Fed)) → IsHoused old
        → marked old ≡ false
        → to < length (chains old) → swaps old < 4 → GivesSwap to content old new
        → AreFed old fs → AreEnded old (ends old) es → AreEnded new (ends new) (es ++ fed_at fs to ∷ []) }
{}
