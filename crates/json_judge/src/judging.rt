//! One pass over the tokens of a text.
ghost use Rattle.std.specs.Prelude.{◌≡◌, ◌<◌, ◌||◌, length, None, IfOk, OnOk, OnErr};
ghost use Rattle.json.specs.Json.{items, members, value};
ghost use Rattle.serde_json.specs.Data.{no_members};
ghost use Rattle.serde_json.specs.Read.{converted, of_items, of_json, of_members};
ghost use Rattle.json_judge.specs.Verdicts.{Tells, PassesItems, PassesMembers, PassesValue};

use crate::members::{Held, hold, is_held, is_refused};
use crate::numbers::is_in_range;
use code_units::Memory;
use json::{Invalid, Reader, Scratch, Token};
use std::alloc::Global;

/// How deep arrays and objects may stand in one another.
const DEEPEST: usize = 127;

/// What is known of a text before its value is made.
#[derive(Clone, Copy, PartialEq, Eq, Drop)]
pub enum Verdict {
    /// It is no JSON.
    NotJson,
    /// It is JSON, and an object in its value has a name that is not permitted.
    Refused,
    /// It is JSON, and no such name was found.
    Passed,
}

/// Judges a text as `serde_json` reads it. Memory is taken for the longest of its
/// texts, and for the names of the objects in it as long as they are read.
pub fn judge(alloc: Global, text: &str) -> Result<Verdict, Memory>
    ensures { IfOk result (Tells text.now) }
{
    let mut scratch = Scratch::new(alloc);
    judge_with(alloc, text, &mut scratch)
}

fn judge_with(alloc: Global, text: &str, scratch: &mut Scratch) -> Result<Verdict, Memory>
    ensures { IfOk result (Tells text.now) }
{
    let Ok(mut reader) = Reader::new(text, scratch) else {
        return Err(Memory);
    };
    let Ok(refused) = pass_value(alloc, &mut reader, DEEPEST) else {
        return Ok(Verdict::NotJson);
    };
    if reader.next().is_some() {
        return Ok(Verdict::NotJson);
    }
    if refused {
        Ok(Verdict::Refused)
    } else {
        Ok(Verdict::Passed)
    }
}

// Passes a value, and tells whether a refused name was found in it.
#[cycle(pass)]
#[inline(always)]
fn pass_value(alloc: Global, reader: &mut Reader<'_>, depth: usize) -> Result<bool, Invalid>
    ensures ok { IfOk result (PassesValue depth reader.old reader.new) }
    ensures shorter { OnOk result (length reader.new < length reader.old) }
    ensures err { OnErr result (converted of_json (value depth reader.old) ≡ None) }
{
    let token = reader.next().ok_or(Invalid)?;
    match token {
        Token::String(_) => Ok(false),
        Token::Bool(_) => Ok(false),
        Token::Null => Ok(false),
        Token::Number(text) => {
            if is_in_range(text) {
                Ok(false)
            } else {
                Err(Invalid)
            }
        }
        Token::EndObject | Token::EndArray | Token::Key(_) | Token::Bad => Err(Invalid),
        Token::BeginArray => {
            if depth == 0 {
                return Err(Invalid);
            }
            pass_items(alloc, reader, depth - 1)
        }
        Token::BeginObject => {
            if depth == 0 {
                return Err(Invalid);
            }
            pass_members(alloc, reader, depth - 1)
        }
    }
}

// The same of the elements of an array, and its closing bracket.
#[cycle(pass)]
#[inline(never)]
fn pass_items(alloc: Global, reader: &mut Reader<'_>, depth: usize) -> Result<bool, Invalid>
    ensures ok { IfOk result (PassesItems depth reader.old reader.new) }
    ensures shorter { OnOk result (length reader.new < length reader.old) }
    ensures err { OnErr result (converted of_items (items (value depth) (length reader.old) reader.old) ≡ None) }
{
    let mut refused = false;
    'items: while !reader.take_end_array() {
        let inner = pass_value(alloc, reader, depth)?;
        refused = either(refused, inner);
    }
    Ok(refused)
}

// The same of the members of an object, and its closing brace.
#[cycle(pass)]
#[inline(never)]
fn pass_members(alloc: Global, reader: &mut Reader<'_>, depth: usize) -> Result<bool, Invalid>
    ensures ok { IfOk result (PassesMembers depth reader.old reader.new) }
    ensures shorter { OnOk result (length reader.new < length reader.old) }
    ensures err { OnErr result (converted (λ ms. of_members ms no_members)
        (members (value depth) (length reader.old) reader.old) ≡ None) }
{
    let mut refused = false;
    let mut held = Held::new(alloc);
    'members: while let Some(name) = reader.next_key()? {
        let inner = pass_value(alloc, reader, depth)?;
        refused = either(refused, is_refused(alloc, name));
        hold(&mut held, name, inner);
    }
    Ok(either(refused, is_held(&held)))
}

fn either(a: bool, b: bool) -> bool
    ensures { result ≡ (a || b) }
{
    a || b
}
