//! Scripts, whose text is raw.
ghost use Rattle.std.specs.Prelude.{◌≡◌, ◌==◌, ◌+◌, ◌++◌, ℕ, [], codes, take, drop, IfOk, OnOk};
ghost use Rattle.std.specs.Str.{chars, IsCharBoundary, NoCharPasses};
ghost use Rattle.code_units.specs.Utf8.{units_of};
ghost use Rattle.markup_grammar.specs.Judge.{reads};
ghost use Rattle.markup_grammar.specs.Signs.{sign_of};
ghost use Rattle.markup_grammar.specs.Machine as machine;
ghost use Rattle.markup_steps.specs.declared.mode.Mode.TheVariants as mode;
ghost use Rattle.markup_steps.specs.States.{state_of, spot, Took, trees_of, opens_of, opening_of};

use crate::mode::Mode;
use crate::reader::Reader;
use crate::sign::{is_in_tag, sign_of};
use crate::stop::Stop;
use crate::units::{byte_at, take_text};
use code_units::{Memory, push_ascii, push_char};
use markup_grammar::Sign;
use plain_tree::Plain;

// How many bytes of a text stand before the first `<`.
fn raw_len(text: &str) -> usize
    ensures boundary { IsCharBoundary text.now result }
    ensures raw { NoCharPasses (λ c. c == 60) (take result text.now) }
{
    text.find('<').unwrap_or(text.len())
}

// Appends the units of a text.
fn push_text(units: &mut Vec<u16>, text: &str) -> Result<(), Memory>
    ensures { OnOk result (units.new.items ≡ units.old.items ++ units_of text.now) }
{
    if text.is_ascii() {
        return push_ascii(units, text.as_bytes());
    }
    for c in text.chars() {
        push_char(units, c)?;
    }
    Ok(())
}

impl Reader {
    /// Takes raw text up to the next `<`, and gives how many bytes that is: none outside of a script.
    pub fn take_raw(&mut self, text: &str) -> Result<usize, Memory>
        ensures boundary { IfOk result (IsCharBoundary text.now) }
        ensures read { (at : ℕ) → IfOk result (λ n. reads (state_of self.old) at (chars text.now)
            ≡ reads (state_of self.new) (at + n) (chars (drop n text.now))) }
    {
        match self.mode {
            Mode::InRaw => self.push_raw(text),
            _ => Ok(0),
        }
    }

    // In a script, takes what stands before the first `<`.
    fn push_raw(&mut self, text: &str) -> Result<usize, Memory>
        requires { self.old.mode ≡ mode.InRaw }
        ensures boundary { IfOk result (IsCharBoundary text.now) }
        ensures read { (at : ℕ) → IfOk result (λ n. reads (state_of self.old) at (chars text.now)
            ≡ reads (state_of self.new) (at + n) (chars (drop n text.now))) }
    {
        let end = raw_len(text);
        let (run, _) = text.split_at(end);
        push_text(&mut self.piece.units, run)?;
        Ok(end)
    }

    /// In a script.
    pub fn in_raw(&mut self, c: char, at: usize) -> Result<(), Stop>
        ensures { Took (machine.in_raw (opening_of self.old.head) self.old.piece.at self.old.piece.units.items
            (trees_of self.old) (opens_of self.old) (sign_of c) (spot c at)) result (state_of self.new) }
    {
        match sign_of(c) {
            Sign::Less => self.mode = Mode::RawBegun,
            _ => {
                push_char(&mut self.piece.units, c)?;
                self.mode = Mode::InRaw;
            }
        }
        Ok(())
    }

    /// Behind `<`.
    pub fn raw_begun(&mut self, c: char, at: usize) -> Result<(), Stop>
        ensures { Took (machine.raw_begun (opening_of self.old.head) self.old.piece.at self.old.piece.units.items
            (trees_of self.old) (opens_of self.old) (sign_of c) (spot c at)) result (state_of self.new) }
    {
        match sign_of(c) {
            Sign::Slash => {
                self.mode = Mode::RawEnding(0);
                Ok(())
            }
            _ => {
                self.piece.units.push(u16::from(b'<'))?;
                self.in_raw(c, at)
            }
        }
    }

    /// Behind `</` and so many bytes of the name.
    pub fn raw_ending(&mut self, read: usize, c: char, at: usize) -> Result<(), Stop>
        ensures { Took (machine.raw_ending (opening_of self.old.head) self.old.piece.at self.old.piece.units.items
            (drop read (codes "script")) (trees_of self.old) (opens_of self.old) (sign_of c) (spot c at)) result
            (state_of self.new) }
    {
        match byte_at(b"script", read) {
            None => self.raw_ended(c, at),
            Some(byte) if is_in_tag(sign_of(c)) && u32::from(byte) == u32::from(c) => {
                self.mode = Mode::RawEnding(read + 1);
                Ok(())
            }
            Some(_) => Err(Stop::Bad),
        }
    }

    // Behind `</script`.
    #[tactic(auto, using(crate::proofs::Grows::one_text))]
    fn raw_ended(&mut self, c: char, at: usize) -> Result<(), Stop>
        ensures { Took (machine.raw_ending (opening_of self.old.head) self.old.piece.at self.old.piece.units.items []
            (trees_of self.old) (opens_of self.old) (sign_of c) (spot c at)) result (state_of self.new) }
    {
        match sign_of(c) {
            Sign::Greater => {
                let text = take_text(self.alloc, &mut self.piece.units)?;
                let mut children = Vec::new(self.alloc);
                children.push(Plain::Text {
                    text,
                    at: self.piece.at,
                })?;
                Ok(self.add_element(children)?)
            }
            _ => Err(Stop::Bad),
        }
    }
}
