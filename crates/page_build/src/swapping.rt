//! What stands in a slot is exchanged.
ghost use Rattle.std.specs.Prelude.{◌≡◌, ◌≢◌, ◌<◌, ℕ};
ghost use Rattle.page_image.specs.Image.{forest};
ghost use Rattle.page_image.specs.Stays.{KeepsNodes};
ghost use Rattle.page_build.specs.Standing.{Exchanges, IsSpare, IsStanding};

use page_tree::{NodeId, Page};

/// A tree that stands under nothing comes in the place of a node under `body`, which then stands under nothing.
/// Nothing else changes. It takes no memory.
pub fn swap_stands(page: &mut Page, old: NodeId, new: NodeId)
    requires standing { IsStanding page.old old }
    requires spare { IsSpare page.old new }
    ensures exchanged { Exchanges page.old page.new old new }
    ensures nodes { KeepsNodes page.old page.new }
    ensures trees { (v : ℕ) → v < 32 → forest page.new v ≡ forest page.old v }
    ensures standing { IsStanding page.new new }
    ensures spare { IsSpare page.new old }
    ensures others_stand { (x : ℕ) → x ≢ old → IsStanding page.old x → IsStanding page.new x }
    ensures others_spare { (x : ℕ) → x ≢ new → IsSpare page.old x → IsSpare page.new x }
{
    page.swap_root(old, new);
}
