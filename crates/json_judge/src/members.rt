//! The members of an object, as they come: the last one with a name is the one that stays.
ghost use Rattle.std.specs.Prelude.{◌≡◌, true, false};
ghost use Rattle.code_units.specs.Permitted.{is_permitted};
ghost use Rattle.code_units.specs.Utf8.{units_of};
ghost use Rattle.serde_json.specs.Data.{Data, Members, put};
ghost use Rattle.json_judge.specs.Names.{AreRefused, has_names, members_have_names};

use code_units::{Text, permitted};
use std::alloc::Global;
use std::collections::BTreeSet;

/// The names that are refused, but those with a low line at an end.
const REFUSED: [&str; 10] = [
    "arguments",
    "callee",
    "caller",
    "constructor",
    "eval",
    "prototype",
    "stack",
    "unwatch",
    "valueOf",
    "watch",
];

/// Whether a name is refused. One that looks permitted is not made a text.
pub(crate) fn is_refused(alloc: Global, name: &str) -> bool
    ensures { result ≡ true → is_permitted (units_of name.now) ≡ false }
{
    if !looks_refused(name) {
        return false;
    }
    match Text::from_str(alloc, name) {
        Ok(text) => !permitted(&text),
        Err(_) => false,
    }
}

fn looks_refused(name: &str) -> bool {
    name.starts_with('_') || name.ends_with('_') || REFUSED.iter().any(|word| *word == name)
}

/// The names of the members so far whose values have a refused name.
pub(crate) type Held<'a> = BTreeSet<&'a str>;

/// One more member: what its name had before is written over. Where there is no memory for a name it is
/// not held.
pub(crate) fn hold<'a>(held: &mut Held<'a>, name: &'a str, refused: bool)
    ensures { (found : Members) (d : Data) → (refused ≡ true → has_names d ≡ false)
        → AreRefused held.old found → AreRefused held.new (put name.now d found) }
{
    if !refused {
        held.remove(name);
        return;
    }
    match held.insert(name) {
        Ok(_) => {}
        Err(_) => {}
    }
}

/// Whether a name is held.
pub(crate) fn is_held(held: &Held<'_>) -> bool
    ensures { (found : Members) → AreRefused held.now found → result ≡ true → members_have_names found ≡ false }
{
    match held.first() {
        Some(_) => true,
        None => false,
    }
}
