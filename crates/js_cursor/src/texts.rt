//! The texts of names and numbers, each kept once where the same stood not long before it.
ghost use Rattle.std.specs.Prelude.{◌≡◌, ◌<◌, All, true, IfOk};
ghost use Rattle.js_tokens.specs.Lexes.{IsTokenOf};
ghost use Rattle.js_tokens.specs.Value.{text_of};
ghost use Rattle.js_cursor.specs.declared.texts.TheConstants.{SLOTS};
ghost use Rattle.js_cursor.specs.Texts.{IsSpelled, HasText, AddsText, AreTexts};

use code_units::{Memory, Text};
use js_tokens::{Token, TokenKind, token_text};
use std::alloc::Global;

// How many of the spellings that were met are looked at again: the last of each slot.
const SLOTS: usize = 1024;

/// Texts, and for each token the place of its own in the list, where it is there.
#[derive(Drop)]
pub struct Texts {
    pub list: Vec<Text>,
    pub places: Vec<Option<u32>>,
}

// The slot of a spelling. Two spellings with one slot cost no more than texts of their own.
fn slot_of(spelling: &[u8]) -> usize
    ensures { result < SLOTS }
{
    let mut slot: usize = 0;
    for byte in spelling {
        slot = (slot * 31 + usize::from(*byte)) % SLOTS;
    }
    slot
}

// The units are these bytes.
fn are_bytes(units: &[u16], bytes: &[u8]) -> bool
    ensures { result ≡ true → units.now ≡ bytes.now }
{
    if units.len() != bytes.len() {
        return false;
    }
    for i in 0..units.len() {
        if units[i] != u16::from(bytes[i]) {
            return false;
        }
    }
    true
}

// The text at this place is the spelling.
fn is_kept(list: &[Text], place: u32, spelling: &[u8]) -> bool
    ensures { result ≡ true → HasText list.now place spelling.now }
{
    let place = place as usize;
    if list.len() <= place {
        return false;
    }
    are_bytes(list[place].units(), spelling)
}

// Whether the text of a token is its spelling, and often the same.
fn is_shared(kind: TokenKind) -> bool
    ensures { result ≡ true → IsSpelled kind }
{
    match kind {
        TokenKind::Name => true,
        TokenKind::Number => true,
        _ => false,
    }
}

// The place of the token's text, which is added where it is not found.
fn place_of(
    alloc: Global,
    bytes: &[u8],
    token: &Token,
    list: &mut Vec<Text>,
    recent: &mut [Option<u32>; SLOTS],
) -> Result<Option<u32>, Memory>
    requires { IsTokenOf bytes.now token.now }
    ensures { IfOk result (λ place. AddsText list.old.items list.new.items place (text_of bytes.now token.now)) }
{
    if !is_shared(token.kind) {
        return Ok(None);
    }
    let spelling = &bytes[token.from..token.to];
    let slot = slot_of(spelling);
    if let Some(found) = recent[slot] {
        if is_kept(list, found, spelling) {
            return Ok(Some(found));
        }
    }
    let place = u32::try_from(list.len());
    list.push(token_text(alloc, bytes, token)?)?;
    let Ok(place) = place else {
        return Ok(None);
    };
    recent[slot] = Some(place);
    Ok(Some(place))
}

/// The texts of the names and the numbers among the tokens.
pub fn texts_of(alloc: Global, bytes: &[u8], tokens: &[Token]) -> Result<Texts, Memory>
    requires { All (IsTokenOf bytes.now) tokens.now }
    ensures { IfOk result (λ texts. AreTexts bytes.now tokens.now texts.places.items texts.list.items) }
{
    let mut list = Vec::new(alloc);
    let mut places = Vec::with_capacity(alloc, tokens.len())?;
    let mut recent = [None; SLOTS];
    for token in tokens {
        let place = place_of(alloc, bytes, token, &mut list, &mut recent)?;
        places.push(place)?;
    }
    Ok(Texts { list, places })
}
