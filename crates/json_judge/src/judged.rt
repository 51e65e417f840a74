//! Verdicts on texts: that on a long text which is refused is kept, so that it is judged once.
ghost use Rattle.std.specs.Prelude.{◌≡◌, IfNone, IfOk, IfSome, false};
ghost use Rattle.std.specs.List.{list_any};
ghost use Rattle.std.specs.Str.{bytes_eq};
ghost use Rattle.code_units.specs.Utf8.{utf8_of};
ghost use Rattle.json_judge.specs.Verdicts.{AreTold, Tells};

use crate::judging::{Verdict, judge};
use code_units::{Memory, Text, push_utf8};
use keyed_names::{Keys, Names};
use std::alloc::Global;
use std::marker::Model;

/// The units of a long text. A shorter one is judged in a tenth of a millisecond.
const LONG: usize = 4096;

/// The most verdicts that are kept: far more than the long texts that the widgets of a page can pay for.
const MOST: usize = 65_536;

/// The long texts that were refused, each with its verdict. What a text is found to be depends on it
/// alone, so a caller can tell by the time alone whether it was known.
#[derive(Drop)]
pub struct JudgedTexts {
    texts: Names,
    verdicts: Vec<Verdict>,
}

impl Model for JudgedTexts {
    ghost use Rattle.std.specs.Prelude.{⊤};
    ghost use Rattle.json_judge.specs.Verdicts.{AreTold};

    ghost Value = { ⊤ };

    ghost view = { λ t. tt };

    ghost invariant = { λ t. AreTold t.texts t.verdicts.items };
}

impl JudgedTexts {
    /// None yet; their table hashes by these keys.
    pub fn new(alloc: Global, keys: Keys) -> Result<JudgedTexts, Memory> {
        Ok(JudgedTexts {
            texts: Names::new(alloc, keys)?,
            verdicts: Vec::new(alloc),
        })
    }

    /// The verdict on the UTF-8 of a text.
    pub fn verdict(&mut self, alloc: Global, text: &Text) -> Result<Verdict, Memory>
        ensures { IfOk result (Tells (utf8_of text.now)) }
    {
        if text.units().len() < LONG {
            return judge_text(alloc, text);
        }
        if let Some(verdict) = known(&self.texts, &self.verdicts, text) {
            return Ok(verdict);
        }
        let verdict = judge_text(alloc, text)?;
        if verdict != Verdict::Passed {
            // Where there is no memory for it, the text is judged again.
            let _kept = keep(&mut self.texts, &mut self.verdicts, text, verdict);
        }
        Ok(verdict)
    }
}

// The verdict that is kept of a text.
fn known(texts: &Names, verdicts: &[Verdict], text: &Text) -> Option<Verdict>
    requires { AreTold texts.now verdicts.now }
    ensures some { IfSome result (Tells (utf8_of text.now)) }
    ensures none { IfNone result (list_any (bytes_eq text.now) texts.now ≡ false) }
{
    let n = texts.number(text)?;
    Some(verdicts[n as usize])
}

// Keeps the verdict on a new text, if there is room.
fn keep(
    texts: &mut Names,
    verdicts: &mut Vec<Verdict>,
    text: &Text,
    verdict: Verdict,
) -> Result<(), Memory>
    requires told { AreTold texts.old verdicts.old.items }
    requires new { list_any (bytes_eq text.now) texts.old ≡ false }
    requires verdict { Tells (utf8_of text.now) verdict }
    ensures { AreTold texts.new verdicts.new.items }
{
    if texts.len() >= MOST {
        return Ok(());
    }
    verdicts.reserve(1)?;
    texts.intern(text)?;
    verdicts.push_reserved(verdict);
    Ok(())
}

// The verdict on the UTF-8 of a text, which is judged.
fn judge_text(alloc: Global, text: &Text) -> Result<Verdict, Memory>
    ensures { IfOk result (Tells (utf8_of text.now)) }
{
    let mut bytes = Vec::new(alloc);
    push_utf8(text, &mut bytes)?;
    match str::from_utf8(&bytes) {
        Ok(utf8) => judge(alloc, utf8),
        Err(_) => Err(Memory),
    }
}
