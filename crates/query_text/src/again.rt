//! Filters that stand again, which are not read again.
ghost use Rattle.std.specs.Prelude.{◌≡◌, ◌<◌, ◌≤◌, true, false, length, drop};
ghost use Rattle.query_grammar.specs.declared.query.StepFilter.{StepFilter};
ghost use Rattle.query_grammar.specs.Queries.{goes_on, in_word, SpellsFilter};
ghost use Rattle.query_text.specs.Again.{StandsAgain, StandAlike};

use crate::parts::in_word;

// Whether no word goes on at a place.
fn ends_word(units: &[u16], at: usize) -> bool
    requires { at ≤ length units.now }
    ensures { result ≡ true → goes_on in_word (drop at units.now) ≡ false }
{
    at == units.len() || !in_word(units[at])
}

// Whether the units between two places stand again at a later one, and no word goes on behind them.
fn stands_again(units: &[u16], from: usize, to: usize, at: usize) -> bool
    requires order { from ≤ to }
    requires later { to ≤ at }
    requires inside { at ≤ length units.now }
    ensures { result ≡ true → StandsAgain units.now from to at }
{
    let size = to - from;
    if units.len() - at < size {
        return false;
    }
    let end = at + size;
    units[at..end] == units[from..to] && ends_word(units, end)
}

/// The place behind the filters that stand one behind the other behind a filter, which stands between
/// two places, and are spelled as it is.
pub fn alike_end(units: &[u16], from: usize, to: usize) -> usize
    requires order { from < to }
    requires inside { to ≤ length units.now }
    ensures { (f : StepFilter) → SpellsFilter f (drop from units.now) (drop to units.now)
        → StandAlike units.now f to result }
{
    let mut end = to;
    'alike: while stands_again(units, from, to, end) {
        end += to - from;
    }
    end
}
