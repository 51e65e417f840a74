//! The tokens of a text, as the grammar sees them.
ghost use Rattle.std.specs.Prelude.{◌≡◌, ◌≢◌, ◌+◌, ◌<◌, ◌≤◌, ◌^◌, length, IfOk, All, map};
ghost use Rattle.js_grammar.specs.declared.Sign.TheVariants as sign;
ghost use Rattle.js_tokens.specs.Lexes.{IsTokenOf};
ghost use Rattle.js_cursor.specs.Signs.{input, sign_of};
ghost use Rattle.js_cursor.specs.Reads.{Next, lexeme_at};

use crate::signs::sign_of;
use crate::texts::{Texts, texts_of};
use code_units::{Memory, Text};
use js_grammar::Sign;
use js_tokens::{Token, token_text};
use std::alloc::Global;
use std::marker::Model;

/// A text and its tokens. Contracts see the tokens with their signs, and the end of the text.
#[derive(Drop)]
pub struct Script<'a> {
    bytes: &'a [u8],
    tokens: &'a [Token],
    signs: Vec<Sign>,
    texts: Texts,
    alloc: Global,
}

impl<'a> Model for Script<'a> {
    ghost use Rattle.std.specs.Prelude.{List};
    ghost use Rattle.js_grammar.specs.Grammar.{Token};
    ghost use Rattle.js_cursor.specs.Signs.{input, IsScript};
    ghost use Rattle.js_cursor.specs.Texts.{AreTexts};

    ghost Value = { List Token };

    ghost view = { λ s. input s.bytes.now s.tokens.now };

    ghost invariant = { λ s. IsScript s.bytes.now s.tokens.now s.signs.items ×
        AreTexts s.bytes.now s.tokens.now s.texts.places.items s.texts.list.items };
}

// The signs of the tokens.
fn signs_of(alloc: Global, bytes: &[u8], tokens: &[Token]) -> Result<Vec<Sign>, Memory>
    requires { All (IsTokenOf bytes.now) tokens.now }
    ensures { IfOk result (λ signs. signs.items ≡ map (sign_of bytes.now) tokens.now) }
{
    let mut signs = Vec::with_capacity(alloc, tokens.len())?;
    for token in tokens {
        signs.push(sign_of(bytes, token))?;
    }
    Ok(signs)
}

impl<'a> Script<'a> {
    /// The tokens of these bytes.
    pub fn new(alloc: Global, bytes: &'a [u8], tokens: &'a [Token]) -> Result<Script<'a>, Memory>
        requires tokens { All (IsTokenOf bytes.now) tokens.now }
        requires short { length tokens.now < 2 ^ 31 }
        ensures { IfOk result (λ script. script ≡ input bytes.now tokens.now) }
    {
        let signs = signs_of(alloc, bytes, tokens)?;
        let texts = texts_of(alloc, bytes, tokens)?;
        Ok(Script {
            bytes,
            tokens,
            signs,
            texts,
            alloc,
        })
    }

    /// The allocator.
    pub fn alloc(&self) -> Global {
        self.alloc
    }

    /// The sign of a token, or the end of the text.
    pub fn peek(&self, at: usize) -> Sign
        requires { at < length self.now }
        ensures here { Next self.now at result }
        ensures inside { result ≢ sign.End → at + 1 < length self.now }
        ensures end { result ≡ sign.End → at + 1 ≡ length self.now }
        ensures short { length self.now ≤ 2 ^ 31 }
    {
        if at < self.signs.len() {
            self.signs[at]
        } else {
            Sign::End
        }
    }

    /// The byte at which a token begins, or the length.
    pub fn place(&self, at: usize) -> usize
        requires { at < length self.now }
        ensures { result ≡ (lexeme_at self.now at).at }
    {
        if at < self.tokens.len() {
            self.tokens[at].from
        } else {
            self.bytes.len()
        }
    }

    /// The units of a token.
    pub fn text(&self, at: usize) -> Result<Text, Memory>
        requires { at + 1 < length self.now }
        ensures { IfOk result (λ t. t ≡ (lexeme_at self.now at).text) }
    {
        match self.texts.places[at] {
            Some(place) => self.texts.list[place as usize].share(),
            None => token_text(self.alloc, self.bytes, &self.tokens[at]),
        }
    }
}
