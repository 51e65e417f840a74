//! Where a script finds each native, beside a list of their paths that is written by hand.
#![tactic(auto)]

ghost use Rattle.std.specs.Prelude.{◌≡◌, Some, map, option_map};
ghost use Rattle.std.specs.List.{All};
ghost use Rattle.native_paths.specs.Listed.{listed};
ghost use Rattle.native_paths.specs.Paths.{path_to, paths};

use permitted_table::{Home, NativeId, ROWS};

/// Where a script finds a native first: in what, and its name there. `None` is of `bubble`, which
/// event objects alone have. Each native of the list (docs/API.md) is found by its path there.
pub fn place_of(native: NativeId) -> Option<(Home, &'static str)>
    ensures { All (λ line. native ≡ line.1 → option_map (λ place. path_to place.0 place.1.now) result ≡ Some line.0)
        listed }
{
    place_in(&ROWS, native)
}

// The same in rows with these paths.
fn place_in(
    rows: &[(Home, &'static str, NativeId)],
    native: NativeId,
) -> Option<(Home, &'static str)>
    requires { map (λ row. path_to row.0 row.1.now) rows.now ≡ paths }
    ensures { All (λ line. native ≡ line.1 → option_map (λ place. path_to place.0 place.1.now) result ≡ Some line.0)
        listed }
{
    let before = native.number().checked_sub(1)?;
    let (home, name, _) = rows.get(before as usize)?;
    Some((*home, *name))
}
