//! The tokens of a script.
ghost use Rattle.std.specs.Prelude.{◌≡◌, List, length, IfOk, IfErr, MatchResult};
ghost use Rattle.js_tokens.specs.Lexes.{Lexes, Reads, IsFault};
ghost use Rattle.js_tokens.specs.Cursor.{from};
ghost use Rattle.js_tokens.specs.Pieces.{IsScanFault};

use crate::class::Run;
use crate::cursor::run_end;
use crate::piece::{Piece, piece_at};
use crate::token::{Token, TokenFault};
use std::alloc::Global;

fn text_tokens(alloc: Global, text: &str) -> Result<Vec<Token>, TokenFault>
    ensures found { IfOk result (λ v. Reads (length text.now) (from text.now 0) v.items) }
    ensures place { IfErr result (λ e. IsScanFault text.now e) }
{
    let mut list = Vec::new(alloc);
    let mut place = 0;
    'text: loop {
        // A run of blanks at once, so that no step is taken for each.
        let from = run_end(text, place, Run::Blank);
        match piece_at(text, from) {
            Piece::End => return Ok(list),
            Piece::Gap(next) => place = next,
            Piece::Token(kind, next) => {
                list.push(Token {
                    kind,
                    from,
                    to: next,
                })?;
                place = next;
            }
            Piece::Bad(at) => return Err(TokenFault::BadToken { at }),
        }
    }
}

/// The tokens of a script (ECMA-262 3rd edition, section 7), with the departures that docs/ states: the one
/// reading of the bytes.
///
/// `BadToken` comes exactly where the bytes have no reading, with the first byte of the first ill-formed
/// sequence of UTF-8 or else the least bad place; `Memory` where there was none for the list.
pub fn tokens(alloc: Global, bytes: &[u8]) -> Result<Vec<Token>, TokenFault>
    ensures found { IfOk result (λ v. Lexes bytes.now v.items) }
    ensures only { (ts : List Token) → Lexes bytes.now ts →
        MatchResult result (λ v. v.items ≡ ts) (λ e. e ≡ TokenFault.Memory) }
    ensures place { IfErr result (λ e. IsFault bytes.now e) }
{
    match str::from_utf8(bytes) {
        Ok(text) => text_tokens(alloc, text),
        Err(fault) => Err(TokenFault::BadToken {
            at: fault.valid_up_to(),
        }),
    }
}
