//! Elements without content.
ghost use Rattle.std.specs.Prelude.{◌≡◌};
ghost use Rattle.plain_tree.specs.Names.{is_void};

use code_units::{Text, is_word};

/// Whether an element with this tag has neither content nor an end tag: `br hr img input`.
#[tactic(auto, unfolding(crate::specs::Names::is_void))]
pub fn is_void(tag: &Text) -> bool
    ensures { result ≡ is_void tag.now }
{
    is_word(tag, b"br") || is_word(tag, b"hr") || is_word(tag, b"img") || is_word(tag, b"input")
}
