//! Own states of last lives.
ghost use Rattle.std.specs.Prelude.{◌≡◌, List, Option};
ghost use Rattle.std.specs.List.{zip};
ghost use Rattle.slot_picks.specs.declared.lives.Lives.{Lives};
ghost use Rattle.slot_picks.specs.declared.slots.Slot.{Slot};
ghost use Rattle.slot_reach.specs.Lasts.{AreLast, names_of, states};
ghost use Rattle.widget_meaning.specs.OwnState.{OwnState};

/// A law: where the last lives of slots show these own states, they are what a certificate is told by, each under its
/// slot's name.
pub fn lasts_are_told()
    ensures { (c : Lives) (ss : List Slot) (ends : List (Option OwnState)) → AreLast c ss ends
        → states c ss ≡ zip (names_of ss) ends }
{}
