//! Whether a list is longer than it may be.
ghost use Rattle.std.specs.Prelude.{◌≡◌, IfOk, IfErr, IfSome, None};
ghost use Rattle.json_shapes.specs.Json.{IsJsonFault};
ghost use Rattle.json_lengths.specs.Lengths.{HasLength, HasLengthOver, TellsJson};

use crate::counting::length_in;
use code_units::Memory;
use json::{Error, Scratch, Tape};
use json_judge::{Verdict, judge};
use json_shapes::ShapeFault;
use std::alloc::Global;

/// The length of the list under a key of a JSON text, where it is over `most`. `NotJson` comes only
/// where the bytes are no JSON. `None` tells nothing: whoever makes the value sees.
pub fn length_over(
    alloc: Global,
    bytes: &[u8],
    key: &str,
    most: usize,
) -> Result<Option<usize>, ShapeFault>
    ensures ok { IfOk result (λ length. IfSome length (HasLengthOver bytes.now key.now most)) }
    ensures err { IfErr result (IsJsonFault bytes.now) }
{
    let Ok(text) = str::from_utf8(bytes) else {
        return Err(ShapeFault::NotJson);
    };
    let Some(length) = length_at(alloc, text, key)? else {
        return Ok(None);
    };
    if length <= most {
        return Ok(None);
    }
    let is_json = is_json(alloc, text)?;
    if !is_json {
        return Err(ShapeFault::NotJson);
    }
    Ok(Some(length))
}

// The length of the list under a key, if the text is JSON. A number out of range is not seen.
fn length_at(alloc: Global, text: &str, key: &str) -> Result<Option<usize>, ShapeFault>
    ensures ok { IfOk result (λ length. IfSome length (HasLength text.now key.now)) }
    ensures err { IfErr result (IsJsonFault text.now) }
{
    let mut scratch = Scratch::new(alloc);
    length_with(alloc, text, key, &mut scratch)
}

fn length_with(
    alloc: Global,
    text: &str,
    key: &str,
    scratch: &mut Scratch,
) -> Result<Option<usize>, ShapeFault>
    ensures ok { IfOk result (λ length. IfSome length (HasLength text.now key.now)) }
    ensures err { IfErr result (IsJsonFault text.now) }
{
    match Tape::parse(text, scratch, Vec::new(alloc)) {
        Ok(tape) => Ok(length_in(&tape, key)),
        Err(Error::Invalid) => Err(ShapeFault::NotJson),
        Err(_) => Err(ShapeFault::Memory),
    }
}

fn is_json(alloc: Global, text: &str) -> Result<bool, Memory>
    ensures { IfOk result (TellsJson text.now) }
{
    match judge(alloc, text)? {
        Verdict::NotJson => Ok(false),
        Verdict::Refused => Ok(true),
        Verdict::Passed => Ok(true),
    }
}
