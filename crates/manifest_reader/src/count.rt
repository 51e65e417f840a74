//! Counts the nodes of plain trees.
ghost use Rattle.std.specs.Prelude.{◌≡◌, ◌<◌, ◌+◌, MatchOption};
ghost use Rattle.plain_tree.specs.Trees.{size};
ghost use Rattle.plain_tree.specs.Plains.{placed_all};

use plain_tree::Plain;
use widget_form::room_after;

/// How much room is left when the nodes of plain trees have taken theirs, none exactly where there
/// is too little.
pub fn room_after_all(content: &[Plain], room: u32) -> Option<u32>
    ensures { MatchOption result
        (room < size (placed_all content.now))
        (λ left. left + size (placed_all content.now) ≡ room) }
{
    let mut left = room;
    'each: for plain in content {
        match room_after(plain, left) {
            Some(rest) => left = rest,
            None => return None,
        }
    }
    Some(left)
}
