//! The properties of styles.
ghost use Rattle.std.specs.Prelude.{◌≡◌, ℕ, ◌&&◌, ◌||◌, ◌++◌, Bool, List, [], ◌∷◌, not, is_some, IfSome, length, map};
ghost use Rattle.std.specs.List.{list_any};
ghost use Rattle.std.specs.Str.{bytes_eq};
ghost use Rattle.style_text.specs.Styles.{Pair, is_listed};
ghost use Rattle.code_units.specs.Words.{begins_with};
ghost use Rattle.style_text.specs.Machine.{fits, is_free};
ghost use Rattle.style_text.specs.Used.{marks_of};

use code_units::{Text, begins_with, spells};

// How many properties there are.
const COUNT: usize = 48;

static PROPERTIES: [&[u8]; COUNT] = [
    b"background-color",
    b"border",
    b"border-color",
    b"border-style",
    b"border-width",
    b"bottom",
    b"clear",
    b"color",
    b"cursor",
    b"display",
    b"float",
    b"font-family",
    b"font-size",
    b"font-style",
    b"font-weight",
    b"height",
    b"left",
    b"letter-spacing",
    b"line-height",
    b"list-style-type",
    b"margin",
    b"margin-bottom",
    b"margin-left",
    b"margin-right",
    b"margin-top",
    b"max-height",
    b"max-width",
    b"min-height",
    b"min-width",
    b"opacity",
    b"overflow",
    b"padding",
    b"padding-bottom",
    b"padding-left",
    b"padding-right",
    b"padding-top",
    b"position",
    b"right",
    b"text-align",
    b"text-decoration",
    b"text-indent",
    b"top",
    b"vertical-align",
    b"visibility",
    b"white-space",
    b"width",
    b"word-spacing",
    b"z-index",
];

// The property of a table that the units spell.
fn found_in<'t>(table: &[&'t [u8]], units: &[u16]) -> Option<&'t [u8]>
    ensures found { is_some result ≡ list_any (λ word. bytes_eq units.now word.now) table.now }
    ensures same { IfSome result (λ word. word.now ≡ units.now) }
{
    for word in table {
        if spells(units, word) {
            return Some(*word);
        }
    }
    None
}

// The listed property that the units spell.
#[tactic(auto, unfolding(crate::specs::Styles::is_listed, crate::specs::Styles::properties))]
fn listed(units: &[u16]) -> Option<&'static [u8]>
    ensures found { is_some result ≡ is_listed units.now }
    ensures same { IfSome result (λ word. word.now ≡ units.now) }
{
    found_in(&PROPERTIES, units)
}

/// Whether the text is a listed property.
pub fn property_listed(name: &Text) -> bool
    ensures { result ≡ is_listed name.now }
{
    listed(name.units()).is_some()
}

/// Which properties of the table stand before.
pub type Used = [bool; COUNT];

/// None of them.
#[tactic(auto, unfolding(crate::specs::Used::marks_of, crate::specs::Styles::is_used, crate::specs::Styles::properties))]
pub fn none_used() -> Used
    ensures { result ≡ marks_of [] }
{
    [false; COUNT]
}

// Whether the units are a word of a table that has no mark.
fn free_in(table: &[&[u8]], marks: &[bool], units: &[u16]) -> bool
    requires { length marks.now ≡ length table.now }
    ensures { (used : List ℕ → Bool) → marks.now ≡ map (λ word. used word.now) table.now
        → result ≡ list_any (λ word. bytes_eq units.now word.now && not (used word.now)) table.now }
{
    'words: for (i, word) in table.iter().enumerate() {
        if spells(units, word) && !marks[i] {
            return true;
        }
    }
    false
}

/// Whether the units are a listed property that does not stand before.
#[tactic(auto, unfolding(crate::specs::Used::marks_of, crate::specs::Styles::properties))]
pub fn is_free(used: &Used, units: &[u16]) -> bool
    ensures { (pairs : List Pair) → used.now ≡ marks_of pairs → result ≡ is_free pairs units.now }
{
    free_in(&PROPERTIES, used, units)
}

// Whether a word of a table that has no mark begins with the units.
fn fits_in(table: &[&[u8]], marks: &[bool], front: &[u16]) -> bool
    requires { length marks.now ≡ length table.now }
    ensures { (used : List ℕ → Bool) → marks.now ≡ map (λ word. used word.now) table.now
        → result ≡ list_any (λ word. begins_with word.now front.now && not (used word.now)) table.now }
{
    'words: for (i, word) in table.iter().enumerate() {
        if begins_with(word, front) && !marks[i] {
            return true;
        }
    }
    false
}

/// Whether some property that does not stand before begins with the units.
#[tactic(auto, unfolding(crate::specs::Machine::fits, crate::specs::Used::marks_of, crate::specs::Styles::properties))]
pub fn fits(used: &Used, front: &[u16]) -> bool
    ensures { (pairs : List Pair) → used.now ≡ marks_of pairs → result ≡ fits pairs front.now }
{
    fits_in(&PROPERTIES, used, front)
}

// Marks the units where they stand in a table.
fn mark_in(table: &[&[u8]], marks: &mut [bool], units: &[u16])
    requires { length marks.old ≡ length table.now }
    ensures { (used : List ℕ → Bool) → marks.old ≡ map (λ word. used word.now) table.now
        → marks.new ≡ map (λ word. used word.now || bytes_eq units.now word.now) table.now }
{
    'words: for (i, word) in table.iter().enumerate() {
        marks[i] |= spells(units, word);
    }
}

/// The property stands in one more pair.
#[tactic(auto, unfolding(crate::specs::Used::marks_of, crate::specs::Styles::properties))]
pub fn mark(used: &mut Used, units: &[u16])
    ensures { (pairs : List Pair) (value : List ℕ) → used.old ≡ marks_of pairs
        → used.new ≡ marks_of (pairs ++ (units.now, value) ∷ []) }
{
    mark_in(&PROPERTIES, used, units);
}
