//! Which names a script may use.
ghost use Rattle.std.specs.Prelude.{◌≡◌};
ghost use Rattle.code_units.specs.Permitted.{is_banned, has_edge_underscore, is_permitted};

use crate::text::Text;
use crate::word::is_word;

const LOW_LINE: u16 = 0x5F;

/// Whether the name is one of the ten banned names.
#[tactic(auto, unfolding(crate::specs::Permitted::is_banned))]
pub fn is_banned(name: &Text) -> bool
    ensures { result ≡ is_banned name.now }
{
    is_word(name, b"arguments")
        || is_word(name, b"callee")
        || is_word(name, b"caller")
        || is_word(name, b"constructor")
        || is_word(name, b"eval")
        || is_word(name, b"prototype")
        || is_word(name, b"stack")
        || is_word(name, b"unwatch")
        || is_word(name, b"valueOf")
        || is_word(name, b"watch")
}

/// Whether the name begins or ends with `_`.
#[tactic(auto, unfolding(crate::specs::Permitted::has_edge_underscore))]
pub fn has_edge_underscore(name: &Text) -> bool
    ensures { result ≡ has_edge_underscore name.now }
{
    let units = name.units();
    units.starts_with(&[LOW_LINE]) || units.ends_with(&[LOW_LINE])
}

/// Whether a script may use the name: it is not banned and neither begins nor ends with `_`.
/// The empty name is permitted.
pub fn permitted(name: &Text) -> bool
    ensures { result ≡ is_permitted name.now }
{
    !is_banned(name) && !has_edge_underscore(name)
}
