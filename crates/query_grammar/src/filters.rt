//! The filters of a step, as a part of the query's text.
ghost use Rattle.std.specs.Prelude.{◌≡◌, ◌≤◌, length, slice_range, IfOk};
ghost use Rattle.query_grammar.specs.Spelled.{filters_of, AreFilters};

use code_units::{Memory, Text};
use std::marker::Model;

/// The filters of a step: the part of the query's text that spells them. They take no memory.
#[derive(Drop)]
pub struct Filters {
    text: Text,
    from: usize,
    to: usize,
}

impl Model for Filters {
    ghost use Rattle.std.specs.Prelude.{List, ℕ, ◌≤◌, length, slice_range};
    ghost use Rattle.query_grammar.specs.declared.query.StepFilter.{StepFilter};
    ghost use Rattle.query_grammar.specs.Spelled.{filters_of, AreFilters};

    ghost Value = { List StepFilter };

    ghost view = { λ f. filters_of (slice_range f.text f.from f.to) };

    ghost invariant = { λ f. (f.from ≤ f.to) × (f.to ≤ length f.text) × AreFilters (slice_range f.text f.from f.to) };
}

impl Filters {
    /// The filters that the units between two places of a text spell.
    pub fn of(text: &Text, from: usize, to: usize) -> Result<Filters, Memory>
        requires order { from ≤ to }
        requires inside { to ≤ length text.now }
        requires filters { AreFilters (slice_range text.now from to) }
        ensures { IfOk result (λ filters. filters ≡ filters_of (slice_range text.now from to)) }
    {
        Ok(Filters {
            text: text.share()?,
            from,
            to,
        })
    }

    /// The units that spell them.
    pub fn units(&self) -> &[u16]
        ensures spelled { filters_of result.now ≡ self.now }
        ensures filters { AreFilters result.now }
    {
        &self.text.units()[self.from..self.to]
    }
}
