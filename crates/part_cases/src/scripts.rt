//! Scripts: their tokens, and what strings stand for; their trees as text; or the place of the refusal.
ghost use Rattle.js_tokens.specs.Lexes.{IsTokenOf, Lexes};

use crate::answer::{Answer, text_answer};
use js_parser::{ParseFault, parse};
use js_print::print_tree;
use js_tokens::{Token, TokenFault, TokenKind, token_text, tokens};
use js_tree::Tree;
use std::alloc::Global;
use std::fmt::Write;

/// The tokens of a script in one line, or the place of a bad one.
pub fn answer_of_tokens(alloc: Global, script: &[u8]) -> Option<Answer> {
    match tokens(alloc, script) {
        Ok(list) => line_of_tokens(alloc, script, &list),
        Err(TokenFault::BadToken { at }) => Some(Answer::At("bad", at)),
        Err(TokenFault::Memory) => None,
    }
}

// The tokens of a script in one line.
fn line_of_tokens(alloc: Global, script: &[u8], list: &[Token]) -> Option<Answer>
    requires { Lexes script.now list.now }
{
    let mut line = String::new(alloc);
    'tokens: for token in list {
        push_token(alloc, script, token, &mut line)?;
    }
    line.push_str("\n").ok()?;
    Some(Answer::Text(line))
}

// The kind of a token, where it stands, and of a string its units.
fn push_token(alloc: Global, script: &[u8], token: &Token, line: &mut String) -> Option<()>
    requires { IsTokenOf script.now token.now }
{
    let separator = if line.is_empty() { "" } else { ", " };
    let kind = kind_word(token.kind);
    let from = token.from;
    let to = token.to;
    write!(line, "{separator}{kind} {from} {to}").ok()?;
    if token.kind != TokenKind::Str {
        return Some(());
    }
    line.push_str(" =").ok()?;
    push_units(token_text(alloc, script, token).ok()?.units(), line)
}

fn push_units(units: &[u16], line: &mut String) -> Option<()> {
    for unit in units {
        write!(line, " {unit}").ok()?;
    }
    Some(())
}

fn kind_word(kind: TokenKind) -> &'static str {
    match kind {
        TokenKind::Name => "Name",
        TokenKind::Reserved => "Reserved",
        TokenKind::Number => "Number",
        TokenKind::Str => "Str",
        TokenKind::Mark => "Mark",
    }
}

/// The text of a script's tree, or where it is refused. What a case shows may be the size of the text, or
/// no more than that there is a tree.
pub fn answer_of_parse(alloc: Global, script: &[u8], shows: Option<&str>) -> Option<Answer> {
    let list = tokens(alloc, script).ok()?;
    if list.len() >= 1 << 31 {
        return None;
    }
    match parse(alloc, script, &list) {
        Ok(tree) => shown(alloc, &tree, shows),
        Err(ParseFault::Syntax { at }) => Some(Answer::At("syntax", at)),
        Err(ParseFault::TooDeep { at }) => Some(Answer::At("deep", at)),
        Err(ParseFault::Memory) => None,
    }
}

fn shown(alloc: Global, tree: &Tree, shows: Option<&str>) -> Option<Answer> {
    match shows {
        Some("tree") => Some(Answer::Word("tree")),
        Some(_) => Some(Answer::Count(tree_text(alloc, tree)?.len(), "bytes")),
        None => text_answer(tree_text(alloc, tree)?),
    }
}

fn tree_text(alloc: Global, tree: &Tree) -> Option<Vec<u8>> {
    let mut text = Vec::new(alloc);
    print_tree(alloc, tree, &mut text).ok()?;
    Some(text)
}
