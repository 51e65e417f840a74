//! References to characters.
ghost use Rattle.std.specs.Prelude.{◌≡◌, ◌<◌, ◌+◌, OnOk, MatchOption, None, Some};
ghost use Rattle.markup_grammar.specs.Signs.{sign_of};
ghost use Rattle.markup_grammar.specs.Grammar.{is_referable};
ghost use Rattle.markup_grammar.specs.Machine as machine;
ghost use Rattle.markup_steps.specs.declared.mode.Referring.TheVariants as referring;
ghost use Rattle.markup_steps.specs.States.{state_of, spot, Took, trees_of, opens_of, run_of, name_of, code_of, referring_of};

use crate::mode::{Mode, Named, Referring, Run};
use crate::reader::Reader;
use crate::sign::{is_in_tag, sign_of};
use crate::stop::Stop;
use crate::units::byte_at;
use code_units::{Memory, push_char};
use markup_grammar::Sign;

// The reference whose name begins with a letter.
fn named(c: char) -> Option<Named>
    ensures { MatchOption result (machine.name_of c ≡ None)
        (λ n. machine.name_of c ≡ Some (referring_of (referring.Named n 1))) }
{
    match c {
        'a' => Some(Named::Amp),
        'l' => Some(Named::Lt),
        'g' => Some(Named::Gt),
        'q' => Some(Named::Quot),
        'n' => Some(Named::Nbsp),
        _ => None,
    }
}

impl Named {
    fn name(self) -> &'static [u8]
        ensures { result.now ≡ name_of self }
    {
        match self {
            Named::Amp => b"amp",
            Named::Lt => b"lt",
            Named::Gt => b"gt",
            Named::Quot => b"quot",
            Named::Nbsp => b"nbsp",
        }
    }

    fn character(self) -> char
        ensures { result ≡ code_of self }
    {
        match self {
            Named::Amp => '&',
            Named::Lt => '<',
            Named::Gt => '>',
            Named::Quot => '"',
            Named::Nbsp => '\u{A0}',
        }
    }
}

// Whether a reference may have this number: a code point that is not 0 and no surrogate.
fn is_referable(code: u32) -> bool
    ensures { result ≡ is_referable code }
{
    0 < code && (code < 0xD800 || (0xE000 <= code && code < 0x11_0000))
}

impl Reader {
    /// In a reference.
    pub fn in_reference(
        &mut self,
        run: Run,
        referring: Referring,
        c: char,
        at: usize,
    ) -> Result<(), Stop>
        ensures { Took (machine.in_reference (run_of self.old run) (referring_of referring) (trees_of self.old)
            (opens_of self.old) (sign_of c) (spot c at)) result (state_of self.new) }
    {
        match referring {
            Referring::Ampersand => self.ampersand(run, c, at),
            Referring::Named(name, read) => self.in_name(run, name, read, c, at),
            Referring::Number(count, value) => self.in_number(run, count, value, c, at),
        }
    }

    // Behind `&`.
    fn ampersand(&mut self, run: Run, c: char, at: usize) -> Result<(), Stop>
        ensures { Took (machine.in_reference (run_of self.old run) machine.Ampersand (trees_of self.old)
            (opens_of self.old) (sign_of c) (spot c at)) result (state_of self.new) }
    {
        let sign = sign_of(c);
        let referring = if sign == Sign::Hash {
            Referring::Number(0, 0)
        } else if is_in_tag(sign)
            && let Some(name) = named(c)
        {
            Referring::Named(name, 1)
        } else {
            return Err(Stop::Bad);
        };
        self.mode = Mode::Refers(run, referring);
        Ok(())
    }

    // Behind so many bytes of a name.
    fn in_name(
        &mut self,
        run: Run,
        name: Named,
        read: usize,
        c: char,
        at: usize,
    ) -> Result<(), Stop>
        ensures { Took (machine.in_reference (run_of self.old run) (referring_of (referring.Named name read))
            (trees_of self.old) (opens_of self.old) (sign_of c) (spot c at)) result (state_of self.new) }
    {
        match byte_at(name.name(), read) {
            None if sign_of(c) == Sign::Semicolon => Ok(self.refer(run, name.character())?),
            Some(byte) if is_in_tag(sign_of(c)) && u32::from(byte) == u32::from(c) => {
                self.mode = Mode::Refers(run, Referring::Named(name, read + 1));
                Ok(())
            }
            _ => Err(Stop::Bad),
        }
    }

    // Behind `&#` and so many digits.
    fn in_number(
        &mut self,
        run: Run,
        count: u32,
        value: u32,
        c: char,
        at: usize,
    ) -> Result<(), Stop>
        ensures { Took (machine.in_reference (run_of self.old run) (machine.Number count value) (trees_of self.old)
            (opens_of self.old) (sign_of c) (spot c at)) result (state_of self.new) }
    {
        match sign_of(c) {
            Sign::Digit => self.digit(run, count, value, c),
            Sign::Semicolon => self.end_number(run, count, value),
            _ => Err(Stop::Bad),
        }
    }

    // One digit more, of seven at most.
    fn digit(&mut self, run: Run, count: u32, value: u32, c: char) -> Result<(), Stop>
        ensures { Took (machine.digit (run_of self.old run) count value c (trees_of self.old)
            (opens_of self.old)) result (state_of self.new) }
    {
        if count >= 7 || value >= 1_000_000 {
            return Err(Stop::Bad);
        }
        let value = value * 10 + u32::from(c).saturating_sub(u32::from(b'0'));
        let count = count + 1;
        if count == 7 && !is_referable(value) {
            return Err(Stop::Bad);
        }
        self.mode = Mode::Refers(run, Referring::Number(count, value));
        Ok(())
    }

    // The number ends.
    fn end_number(&mut self, run: Run, count: u32, value: u32) -> Result<(), Stop>
        ensures { Took (machine.numbered (run_of self.old run) count value (trees_of self.old)
            (opens_of self.old)) result (state_of self.new) }
    {
        match char::from_u32(value) {
            Some(c) if count > 0 && is_referable(value) => Ok(self.refer(run, c)?),
            _ => Err(Stop::Bad),
        }
    }

    // The reference stands for a character.
    fn refer(&mut self, run: Run, c: char) -> Result<(), Memory>
        ensures { OnOk result (state_of self.new
            ≡ machine.referred (run_of self.old run) c (trees_of self.old) (opens_of self.old)) }
    {
        push_char(&mut self.piece.units, c)?;
        self.mode = Mode::In(run);
        Ok(())
    }
}
