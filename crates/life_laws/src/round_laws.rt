//! Laws of rounds.
ghost use Rattle.std.specs.Prelude.{ℕ, List, Option};
ghost use Rattle.life_laws.specs.Fed.{Fed};
ghost use Rattle.life_laws.specs.RoundLaws.{ChannelLaws, LifeLaws, RoundLaws};

/// A round gives each last life the events of the posts to it, and takes each post once; so its own state is
/// that of its
/// widget by itself on what it was given and these events.
pub fn lives()
    ensures { (channels : List (ℕ × ℕ)) (names : List (List ℕ)) (fs : List (Option Fed)) → LifeLaws channels names fs }
{}

/// The rounds end, and in one way; without channels nothing is delivered.
pub fn rounds()
    ensures { (channels : List (ℕ × ℕ)) (names : List (List ℕ)) (fs : List (Option Fed)) → RoundLaws channels names fs }
{}

/// What a slot comes to depends on itself and on the posts of its listed senders alone, and on none of the slots from
/// which no path of channels leads to it.
#[tactic(auto, using(crate::proofs::RoundsHold::channel_laws))]
pub fn channels()
    ensures { (channels : List (ℕ × ℕ)) (names : List (List ℕ)) (fs : List (Option Fed))
        → ChannelLaws channels names fs }
{}
