//! Styles as text.
ghost use Rattle.std.specs.Prelude.{◌≡◌, ◌++◌, IfOk, OnOk};
ghost use Rattle.style_text.specs.Styles.{print_style};
ghost use Rattle.style_text.specs.Separated.{separated};

use code_units::{Memory, Text, push_ascii};
use std::alloc::Global;

// Appends a pair, behind a separator where it is not the first.
fn push_pair(units: &mut Vec<u16>, first: bool, pair: &(Text, Text)) -> Result<(), Memory>
    ensures { OnOk result (units.new.items ≡ units.old.items ++ separated first pair.now) }
{
    if !first {
        push_ascii(units, b"; ")?;
    }
    units.extend_from_slice(pair.0.units())?;
    push_ascii(units, b": ")?;
    units.extend_from_slice(pair.1.units())?;
    Ok(())
}

/// The text `property: value; property: value` of the pairs.
pub fn print_style(alloc: Global, pairs: &[(Text, Text)]) -> Result<Text, Memory>
    ensures { IfOk result (λ text. text ≡ print_style pairs.now) }
{
    let mut units = Vec::new(alloc);
    'pairs: for (i, pair) in pairs.iter().enumerate() {
        push_pair(&mut units, i == 0, pair)?;
    }
    Text::from_units(alloc, units)
}
