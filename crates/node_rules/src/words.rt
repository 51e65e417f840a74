//! Texts that the rules name.
ghost use Rattle.std.specs.Prelude.{◌≡◌, ◌||◌};
ghost use Rattle.std.specs.List.{list_all};
ghost use Rattle.node_rules.specs.Words.{is_global, is_callable, is_reaching, is_letter, is_digit, is_library_name};

pub use code_units::is_word;
use code_units::{Text, is_banned};

/// Whether the name is a listed global.
#[tactic(auto, unfolding(crate::specs::Words::is_global))]
pub fn is_global(name: &Text) -> bool
    ensures { result ≡ is_global name.now }
{
    is_word(name, b"ADSAFE")
        || is_word(name, b"Boolean")
        || is_word(name, b"isFinite")
        || is_word(name, b"isNaN")
        || is_word(name, b"Math")
        || is_word(name, b"Number")
        || is_word(name, b"parseInt")
        || is_word(name, b"String")
        || is_word(name, b"undefined")
        || is_word(name, b"NaN")
}

/// Whether a script may call this name of `ADSAFE`.
#[tactic(auto, unfolding(crate::specs::Words::is_callable))]
pub fn is_callable(name: &Text) -> bool
    ensures { result ≡ is_callable name.now }
{
    is_word(name, b"create")
        || is_word(name, b"fromJson")
        || is_word(name, b"get")
        || is_word(name, b"has")
        || is_word(name, b"isArray")
        || is_word(name, b"keys")
        || is_word(name, b"later")
        || is_word(name, b"log")
        || is_word(name, b"post")
        || is_word(name, b"remove")
        || is_word(name, b"set")
        || is_word(name, b"toJson")
}

/// Whether the name is `arguments` or `eval`.
#[tactic(auto, unfolding(crate::specs::Words::is_reaching))]
pub fn is_reaching(name: &Text) -> bool
    ensures { result ≡ is_reaching name.now }
{
    is_word(name, b"arguments") || is_word(name, b"eval")
}

#[tactic(auto, unfolding(crate::specs::Words::is_letter))]
fn is_letter(unit: u16) -> bool
    ensures { result ≡ is_letter unit }
{
    (65 <= unit && unit <= 90) || (97 <= unit && unit <= 122)
}

#[tactic(auto, unfolding(crate::specs::Words::is_digit))]
pub fn is_digit(unit: u16) -> bool
    ensures { result ≡ is_digit unit }
{
    48 <= unit && unit <= 57
}

fn is_alphanumeric(unit: u16) -> bool
    ensures { result ≡ (is_letter unit || is_digit unit) }
{
    is_letter(unit) || is_digit(unit)
}

fn are_alphanumeric(units: &[u16]) -> bool
    ensures { result ≡ list_all (λ u. is_letter u || is_digit u) units.now }
{
    units.iter().all(|u| is_alphanumeric(*u))
}

/// Whether a library may have this name.
#[tactic(auto, unfolding(crate::specs::Words::is_library_name))]
pub fn is_library_name(name: &Text) -> bool
    ensures { result ≡ is_library_name name.now }
{
    let units = name.units();
    if units.is_empty() {
        return false;
    }
    if units.len() > 64 {
        return false;
    }
    if !is_letter(units[0]) {
        return false;
    }
    are_alphanumeric(units) && !is_banned(name)
}
