//! Words of queries.
ghost use Rattle.std.specs.Prelude.{◌≡◌};

use std::marker::Model;

/// A word of a query: a part of its text.
#[derive(Drop)]
pub struct QueryWord<'a> {
    units: &'a [u16],
}

impl<'a> Model for QueryWord<'a> {
    ghost use Rattle.std.specs.Prelude.{List, ℕ};

    ghost Value = { List ℕ };

    ghost view = { λ w. w.units.now };
}

impl<'a> QueryWord<'a> {
    /// The word of these units.
    pub fn new(units: &'a [u16]) -> QueryWord<'a>
        ensures { result ≡ units.now }
    {
        QueryWord { units }
    }

    /// The units.
    pub fn units(&self) -> &'a [u16]
        ensures { result.now ≡ self.now }
    {
        self.units
    }
}
