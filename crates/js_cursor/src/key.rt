//! The keys of object literals.
ghost use Rattle.std.specs.Prelude.{◌≡◌, ◌+◌, ◌<◌, length, true, MatchResult};
ghost use Rattle.js_grammar.specs.Tables.{is_key, is_whole};
ghost use Rattle.js_cursor.specs.Reads.{lexeme_at, IsNext};
ghost use Rattle.js_cursor.specs.Named.{IsNoKey};

use crate::refusal::Refusal;
use crate::script::Script;
use code_units::Text;
use js_grammar::Sign;

// The largest number that may be a key.
const LARGEST: u64 = 9_007_199_254_740_991;

// Digits alone, without a `0` before them, of at most the largest number.
fn is_whole(units: &[u16]) -> bool
    ensures { result ≡ is_whole units.now }
{
    if units.len() > 1 && units[0] == 48 {
        return false;
    }
    let mut number: u64 = 0;
    for unit in units {
        if *unit < 48 || 57 < *unit {
            return false;
        }
        number = number * 10 + u64::from(*unit - 48);
        if number > LARGEST {
            return false;
        }
    }
    true
}

// Whether a token of this sign and text is a key.
fn is_key(sign: Sign, text: &Text) -> bool
    ensures { result ≡ is_key sign text.now }
{
    match sign {
        Sign::Name => true,
        Sign::Str => true,
        Sign::Number => is_whole(text.units()),
        _ => false,
    }
}

/// The text of a key of an object literal.
pub fn key(script: &Script, at: usize) -> Result<Text, Refusal>
    requires { at < length script.now }
    ensures { MatchResult result
        (λ t. (t ≡ (lexeme_at script.now at).text) × (at + 1 < length script.now) ×
        IsNext script.now at (λ s. is_key s (lexeme_at script.now at).text ≡ true))
        (λ e. IsNoKey script.now at e) }
{
    let sign = script.peek(at);
    if let Sign::End = sign {
        return Err(Refusal::Syntax(at));
    }
    let text = script.text(at)?;
    if is_key(sign, &text) {
        return Ok(text);
    }
    Err(Refusal::Syntax(at))
}
