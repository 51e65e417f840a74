//! Owners, and their places in tables.
ghost use Rattle.std.specs.Prelude.{◌≡◌, ◌<◌, true};
ghost use Rattle.page_nodes.specs.Owners.{is_owner, same_owner, slot};

use code_units::{Owner, WIDGETS};

/// The widgets, and the host behind them.
pub const OWNERS: usize = WIDGETS + 1;

/// Whether two owners are one.
pub fn same_owner(one: Owner, other: Owner) -> bool
    ensures { result ≡ same_owner one other }
{
    match (one, other) {
        (Owner::Host, Owner::Host) => true,
        (Owner::Widget(v), Owner::Widget(w)) => v == w,
        _ => false,
    }
}

/// The place of an owner in a table.
pub fn slot_of(owner: Owner) -> usize
    requires { is_owner owner ≡ true }
    ensures value { result ≡ slot owner }
    ensures bound { result < 33 }
{
    match owner {
        Owner::Host => WIDGETS,
        Owner::Widget(w) => w as usize,
    }
}
