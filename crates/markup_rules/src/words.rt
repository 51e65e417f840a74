//! The words that the markup rules cite.
ghost use Rattle.std.specs.Prelude.{◌≡◌};
ghost use Rattle.std.specs.List.{list_all};
ghost use Rattle.markup_rules.specs.Words.{is_common, is_of_form, is_listed_attribute, is_script_attribute, is_wordy, is_address, is_in_id, is_own_id, lowered, begins_with, has_word};

use code_units::{Text, is_word};

/// Whether an element other than a script may have an attribute with this name.
pub fn is_listed_attribute(name: &Text) -> bool
    ensures { result ≡ is_listed_attribute name.now }
{
    is_common(name) || is_of_form(name)
}

// Those of any element.
#[tactic(auto, unfolding(crate::specs::Words::is_common))]
fn is_common(name: &Text) -> bool
    ensures { result ≡ is_common name.now }
{
    is_word(name, b"alt")
        || is_word(name, b"class")
        || is_word(name, b"cols")
        || is_word(name, b"colspan")
        || is_word(name, b"height")
        || is_word(name, b"href")
        || is_word(name, b"id")
        || is_word(name, b"rows")
        || is_word(name, b"rowspan")
        || is_word(name, b"src")
        || is_word(name, b"style")
        || is_word(name, b"title")
        || is_word(name, b"width")
}

// Those of what is filled in.
#[tactic(auto, unfolding(crate::specs::Words::is_of_form))]
fn is_of_form(name: &Text) -> bool
    ensures { result ≡ is_of_form name.now }
{
    is_word(name, b"checked")
        || is_word(name, b"disabled")
        || is_word(name, b"for")
        || is_word(name, b"maxlength")
        || is_word(name, b"name")
        || is_word(name, b"size")
        || is_word(name, b"type")
        || is_word(name, b"value")
}

/// Whether a script may have an attribute with this name.
#[tactic(auto, unfolding(crate::specs::Words::is_script_attribute))]
pub fn is_script_attribute(name: &Text) -> bool
    ensures { result ≡ is_script_attribute name.now }
{
    is_word(name, b"src") || is_word(name, b"type")
}

/// Whether the value of an attribute with this name is plain words.
#[tactic(auto, unfolding(crate::specs::Words::is_wordy))]
pub fn is_wordy(name: &Text) -> bool
    ensures { result ≡ is_wordy name.now }
{
    is_word(name, b"class") || is_word(name, b"name") || is_word(name, b"type")
}

/// Whether the value of an attribute with this name is an address.
#[tactic(auto, unfolding(crate::specs::Words::is_address))]
pub fn is_address(name: &Text) -> bool
    ensures { result ≡ is_address name.now }
{
    is_word(name, b"href") || is_word(name, b"src")
}

fn is_in_id(unit: u16) -> bool
    ensures { result ≡ is_in_id unit }
{
    matches!(unit, 0x30..=0x39 | 0x41..=0x5A | 0x61..=0x7A | 0x5F | 0x2D)
}

fn are_in_id(units: &[u16]) -> bool
    ensures { result ≡ list_all is_in_id units.now }
{
    units.iter().all(|unit| is_in_id(*unit))
}

/// Whether the text is the slot's name and then one or more ASCII letters, digits, `_` or `-`.
pub fn is_own_id(name: &Text, text: &Text) -> bool
    ensures { result ≡ is_own_id name.now text.now }
{
    is_own(name.units(), text.units())
}

fn is_own(name: &[u16], units: &[u16]) -> bool
    ensures { result ≡ is_own_id name.now units.now }
{
    'name: for (i, unit) in name.iter().enumerate() {
        if i >= units.len() {
            return false;
        }
        if units[i] != *unit {
            return false;
        }
    }
    if units.len() <= name.len() {
        return false;
    }
    are_in_id(&units[name.len()..])
}

// The small letter of an ASCII capital.
fn lowered(unit: u16) -> u16
    ensures { result ≡ lowered unit }
{
    if 0x41 <= unit && unit <= 0x5A {
        unit + 32
    } else {
        unit
    }
}

// Whether the word in lower case stands at the start of the units, in any case.
fn begins_with(word: &[u8], units: &[u16]) -> bool
    ensures { result ≡ begins_with word.now units.now }
{
    'word: for (i, letter) in word.iter().enumerate() {
        if i >= units.len() {
            return false;
        }
        if lowered(units[i]) != u16::from(*letter) {
            return false;
        }
    }
    true
}

/// Whether the word in lower case stands somewhere in the text, in any case.
pub fn has_word(word: &[u8], text: &Text) -> bool
    ensures { result ≡ has_word word.now text.now }
{
    has_word_in(word, text.units())
}

fn has_word_in(word: &[u8], units: &[u16]) -> bool
    ensures { result ≡ has_word word.now units.now }
{
    'places: for at in 0..units.len() {
        if begins_with(word, &units[at..]) {
            return true;
        }
    }
    false
}
