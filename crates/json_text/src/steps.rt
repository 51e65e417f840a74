//! Texts that grow up to a limit.
ghost use Rattle.std.specs.Prelude.{◌≡◌, IfOk};
ghost use Rattle.widget_meaning.specs.JsonTexts.{write};
ghost use Rattle.json_text.specs.Steps.{meant_step};

use code_units::{Memory, push_ascii};

/// The units that a text may have.
pub(crate) const LONGEST: usize = 65_536;

/// How a part of a text was written.
#[derive(Clone, Copy, PartialEq, Eq, Drop)]
pub enum Step {
    /// It stands behind the text so far.
    Wrote,
    /// It has no JSON.
    NoJson,
    /// The text would be too long.
    TooLong,
}

/// More is written.
pub(crate) fn push(out: &mut Vec<u16>, more: &[u16]) -> Result<Step, Memory>
    ensures { IfOk result (λ p. meant_step p out.new.items ≡ write out.old.items more.now) }
{
    if out.len().saturating_add(more.len()) > LONGEST {
        return Ok(Step::TooLong);
    }
    out.extend_from_slice(more)?;
    Ok(Step::Wrote)
}

/// An ASCII word is written.
pub(crate) fn push_word(out: &mut Vec<u16>, word: &[u8]) -> Result<Step, Memory>
    ensures { IfOk result (λ p. meant_step p out.new.items ≡ write out.old.items word.now) }
{
    if out.len().saturating_add(word.len()) > LONGEST {
        return Ok(Step::TooLong);
    }
    push_ascii(out, word)?;
    Ok(Step::Wrote)
}
