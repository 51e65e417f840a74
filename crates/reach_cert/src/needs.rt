//! How many cells a line needs its widget to have, read off its words.
ghost use Rattle.std.specs.Prelude.{◌≡◌, option_map};
ghost use Rattle.std.specs.List.{position};
ghost use Rattle.reach_cert.specs.Needs.{needed, all_needed, row_needed};
ghost use Rattle.reach_cert.specs.Words.{is_colon, cell_at, ref_in, refs_in, row_in};

use crate::words::{behind, colon_in, is_name, kind_in, number_in, word_end};

// More cells than a widget has.
const TOO_MANY: u64 = (1 << 32) + 1;

fn cell_need(own: &[u8], word: &[u8]) -> Option<u64>
    ensures { result ≡ option_map (needed own.now) (cell_at word.now (position is_colon word.now)) }
{
    let colon = colon_in(word)?;
    let name = &word[..colon];
    if !is_name(name) {
        return None;
    }
    let number = number_in(&word[colon + 1..])?;
    if name == own {
        Some(u64::from(number) + 1)
    } else {
        Some(TOO_MANY)
    }
}

#[tactic(auto, unfolding(crate::specs::Words::ref_in))]
fn ref_need(own: &[u8], word: &[u8]) -> Option<u64>
    ensures { result ≡ option_map (needed own.now) (ref_in word.now) }
{
    if word == b"host".as_slice() {
        return Some(0);
    }
    if word == b"raw".as_slice() {
        return Some(TOO_MANY);
    }
    if word == b"global".as_slice() {
        return Some(TOO_MANY);
    }
    cell_need(own, word)
}

/// What the references of a text need in which a space stands before each.
pub fn refs_need(own: &[u8], text: &[u8]) -> Option<u64>
    ensures { result ≡ option_map (all_needed own.now) (refs_in text.now) }
{
    let mut most = 0;
    let mut rest = text;
    'each: while let Some(more) = behind(b" ", rest) {
        let end = word_end(more);
        let need = ref_need(own, &more[..end])?;
        most = need.max(most);
        rest = &more[end..];
    }
    if !rest.is_empty() {
        return None;
    }
    Some(most)
}

/// What the row of a text needs that begins with its kind.
#[tactic(auto, unfolding(crate::specs::Words::row_in))]
pub fn row_need(own: &[u8], text: &[u8]) -> Option<u64>
    ensures { result ≡ option_map (row_needed own.now) (row_in text.now) }
{
    let end = word_end(text);
    kind_in(&text[..end])?;
    refs_need(own, &text[end..])
}
