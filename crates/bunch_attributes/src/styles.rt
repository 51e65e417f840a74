//! A property of an inline style that is set.
ghost use Rattle.std.specs.Prelude.{◌≡◌, ◌++◌, ◌∷◌, [], not, IfOk, OnOk, map, option_copied, if◌then◌else◌};
ghost use Rattle.std.specs.Option.{option_map_or};
ghost use Rattle.std.specs.Str.{bytes_eq};
ghost use Rattle.style_text.specs.Styles.{is_used};
ghost use Rattle.widget_meaning.specs.Styles as means;
ghost use Rattle.bunch_attributes.specs.Restyled.{restyled, sets_nothing};

use code_units::{Memory, Text};
use std::alloc::Global;
use style_text::{StyleFault, print_style, read_style};

// Puts a pair behind others.
fn keep(pairs: &mut Vec<(Text, Text)>, name: &Text, value: &Text) -> Result<(), Memory>
    ensures { OnOk result (pairs.new.items ≡ pairs.old.items ++ (name.now, value.now) ∷ []) }
{
    let pair = (name.share()?, value.share()?);
    pairs.push(pair)?;
    Ok(())
}

// Whether a property is among these.
fn is_used(pairs: &[(Text, Text)], name: &Text) -> bool
    ensures { result ≡ is_used pairs.now name.now }
{
    'each: for pair in pairs {
        if pair.0 == *name {
            return true;
        }
    }
    false
}

// Keeps a pair of another property.
fn keep_other(left: &mut Vec<(Text, Text)>, pair: &(Text, Text), name: &Text) -> Result<(), Memory>
    ensures { OnOk result (left.new.items
        ≡ left.old.items ++ (if not (bytes_eq pair.now.0 name.now) then pair.now ∷ [] else [])) }
{
    if pair.0 == *name {
        return Ok(());
    }
    keep(left, &pair.0, &pair.1)
}

// Keeps a pair, with another value if it is of this property.
fn keep_changed(
    changed: &mut Vec<(Text, Text)>,
    pair: &(Text, Text),
    name: &Text,
    value: &Text,
) -> Result<(), Memory>
    ensures { OnOk result (changed.new.items
        ≡ changed.old.items ++ (if bytes_eq pair.now.0 name.now then (name.now, value.now) else pair.now) ∷ []) }
{
    if pair.0 == *name {
        return keep(changed, name, value);
    }
    keep(changed, &pair.0, &pair.1)
}

// The pairs without a property.
fn without_property(
    alloc: Global,
    pairs: &[(Text, Text)],
    name: &Text,
) -> Result<Vec<(Text, Text)>, Memory>
    ensures { IfOk result (λ ps. ps.items ≡ means.without_property pairs.now name.now) }
{
    let mut left = Vec::new(alloc);
    'each: for pair in pairs {
        keep_other(&mut left, pair, name)?;
    }
    Ok(left)
}

// The pairs, with another value for a property that is among them.
fn replaced(
    alloc: Global,
    pairs: &[(Text, Text)],
    name: &Text,
    value: &Text,
) -> Result<Vec<(Text, Text)>, Memory>
    ensures { IfOk result (λ ps. ps.items
        ≡ map (λ q. if bytes_eq q.0 name.now then (name.now, value.now) else q) pairs.now) }
{
    let mut changed = Vec::new(alloc);
    'each: for pair in pairs {
        keep_changed(&mut changed, pair, name, value)?;
    }
    Ok(changed)
}

// The pairs with a property set: in its place, or last; an empty value takes it out.
fn with_property(
    alloc: Global,
    pairs: &[(Text, Text)],
    name: &Text,
    value: &Text,
) -> Result<Vec<(Text, Text)>, Memory>
    ensures { IfOk result (λ ps. ps.items ≡ means.with_property pairs.now name.now value.now) }
{
    if value.units().is_empty() {
        return without_property(alloc, pairs, name);
    }
    let mut changed = replaced(alloc, pairs, name, value)?;
    if is_used(pairs, name) {
        return Ok(changed);
    }
    keep(&mut changed, name, value)?;
    Ok(changed)
}

// The pairs of a style that may be missing; a text that is none has none.
fn pairs_of(alloc: Global, style: Option<&Text>) -> Result<Vec<(Text, Text)>, Memory>
    ensures { IfOk result (λ ps. ps.items ≡ option_map_or means.style_pairs (option_copied style.entry) []) }
{
    match style {
        None => Ok(Vec::new(alloc)),
        Some(text) => read_pairs(alloc, text),
    }
}

// The pairs of a style; a text that is none has none.
fn read_pairs(alloc: Global, text: &Text) -> Result<Vec<(Text, Text)>, Memory>
    ensures { IfOk result (λ ps. ps.items ≡ means.style_pairs text.now) }
{
    match read_style(alloc, text) {
        Ok(pairs) => Ok(pairs),
        Err(StyleFault::BadStyle { .. }) => Ok(Vec::new(alloc)),
        Err(StyleFault::Memory) => Err(Memory),
    }
}

// Whether there is no style, and an empty value sets nothing.
fn sets_nothing(style: Option<&Text>, value: &Text) -> bool
    ensures { result ≡ sets_nothing (option_copied style.entry) value.now }
{
    match style {
        None => value.units().is_empty(),
        Some(_) => false,
    }
}

/// The text of a style with a property set; none where there was none and nothing is set.
pub(crate) fn restyled(
    alloc: Global,
    style: Option<&Text>,
    property: &Text,
    value: &Text,
) -> Result<Option<Text>, Memory>
    ensures { IfOk result (λ text. text ≡ restyled property.now value.now (option_copied style.entry)) }
{
    if sets_nothing(style, value) {
        return Ok(None);
    }
    let pairs = pairs_of(alloc, style)?;
    let changed = with_property(alloc, &pairs, property, value)?;
    let text = print_style(alloc, &changed)?;
    Ok(Some(text))
}
