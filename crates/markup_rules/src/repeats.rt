//! What is said twice.
ghost use Rattle.std.specs.Prelude.{IfOk};
ghost use Rattle.first_breach.specs.Breaches.{Nothing};
ghost use Rattle.first_breach.specs.Narrowing.{Narrows};
ghost use Rattle.markup_rules.specs.Rows.{Twice};

use code_units::{Memory, Text};
use first_breach::{Breach, offer};
use std::alloc::Global;
use std::collections::BTreeSet;

/// What an attribute says by its name or by its value, and where.
#[derive(Drop)]
pub struct Saying {
    pub text: Text,
    pub at: usize,
}

/// Each that says what one before it says breaks the rule.
pub fn repeated(
    alloc: Global,
    sayings: &[Saying],
    rule: u8,
    best: Option<Breach>,
) -> Result<Option<Breach>, Memory>
    ensures { IfOk result (Narrows (Twice rule sayings.now) best Nothing) }
{
    let mut seen = BTreeSet::new(alloc);
    let mut least = best;
    'each: for saying in sayings {
        let is_new = seen.insert(saying.text.share()?)?;
        least = offer(least, !is_new, rule, saying.at);
    }
    Ok(least)
}
