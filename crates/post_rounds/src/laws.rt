//! Laws of a round.
ghost use Rattle.std.specs.Prelude.{ℕ, List};
ghost use Rattle.post_rounds.specs.declared.posts.Post.{Post};
ghost use Rattle.post_rounds.specs.RoundLaws.{CountLaws, DropLaws, EventLaws, SenderLaws};

/// What a slot gets depends on the posts of its listed senders alone; where no channel leads to it,
/// it gets nothing.
#[tactic(auto, using(crate::proofs::LawsHold::sender_laws))]
pub fn senders()
    ensures { (w : ℕ) (channels : List (ℕ × ℕ)) (names : List (List ℕ)) (fresh : List (List Post))
        → SenderLaws w channels names fresh }
{}

/// Each fresh post of a listed sender is an event, and each event is one of these.
#[tactic(auto, using(crate::proofs::LawsHold::event_laws))]
pub fn events()
    ensures { (w : ℕ) (channels : List (ℕ × ℕ)) (names : List (List ℕ)) (fresh : List (List Post))
        → EventLaws w channels names fresh }
{}

/// A post to a name that no slot has is dropped.
#[tactic(auto, using(crate::proofs::LawsHold::drop_laws))]
pub fn drops()
    ensures { (w : ℕ) (channels : List (ℕ
        × ℕ)) (names : List (List ℕ)) (before after : List (List Post)) (sooner later : List Post) (post : Post)
        → DropLaws w channels names before after sooner later post }
{}

/// A round has at most one event for each fresh post.
#[tactic(auto, using(crate::proofs::LawsHold::count_laws))]
pub fn counts()
    ensures { (channels : List (ℕ × ℕ)) (names : List (List ℕ)) (fresh : List (List Post))
        → CountLaws channels names fresh }
{}
