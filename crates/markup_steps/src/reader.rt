//! The reader: the trees so far, the open elements, and what is being read.
ghost use Rattle.std.specs.Prelude.{◌≡◌, ◌<◌, ◌+◌, ◌^◌, IfOk, MatchResult, Some, None};
ghost use Rattle.markup_grammar.specs.Signs.{sign_of};
ghost use Rattle.markup_grammar.specs.Machine.{step, begin, finished};
ghost use Rattle.plain_tree.specs.Plains.{placed_all};
ghost use Rattle.markup_steps.specs.declared.stop.Stop.TheVariants as stop;
ghost use Rattle.markup_steps.specs.States.{state_of, spot, Took};

use crate::mode::{Mode, Run};
use crate::stop::Stop;
use code_units::{Memory, Text};
use plain_tree::{Attr, Plain};
use std::alloc::Global;
use std::mem;

/// The head of an element: its tag, its attributes so far, and its place.
#[derive(Drop)]
pub struct Head {
    pub tag: Text,
    pub attrs: Vec<Attr>,
    pub at: usize,
}

/// An element whose content is read, and the trees that stand before it.
#[derive(Drop)]
pub struct Open {
    pub before: Vec<Plain>,
    pub head: Head,
}

/// The trees so far, and the open elements, the innermost last.
#[derive(Drop)]
pub struct Grown {
    pub nodes: Vec<Plain>,
    pub open: Vec<Open>,
}

/// An attribute whose value is read: its name, where both stand, and whether the value stands in
/// double quotes.
#[derive(Drop)]
pub struct Attribute {
    pub name: Text,
    pub at: usize,
    pub value_at: usize,
    pub double: bool,
}

/// The units of the text, the value or the name that is read, and where a text stands.
#[derive(Drop)]
pub struct Piece {
    pub units: Vec<u16>,
    pub at: usize,
}

/// What was read, and what is being read.
#[derive(Drop)]
pub struct Reader {
    pub alloc: Global,
    pub mode: Mode,
    pub grown: Grown,
    pub head: Head,
    pub attribute: Attribute,
    pub piece: Piece,
}

impl Reader {
    /// Where content begins.
    pub fn new(alloc: Global) -> Result<Reader, Memory>
        ensures { IfOk result (λ r. state_of r ≡ begin) }
    {
        Ok(Reader {
            alloc,
            mode: Mode::Between,
            grown: Grown {
                nodes: Vec::new(alloc),
                open: Vec::new(alloc),
            },
            head: Head {
                tag: Text::from_units(alloc, Vec::new(alloc))?,
                attrs: Vec::new(alloc),
                at: 0,
            },
            attribute: Attribute {
                name: Text::from_units(alloc, Vec::new(alloc))?,
                at: 0,
                value_at: 0,
                double: false,
            },
            piece: Piece {
                units: Vec::new(alloc),
                at: 0,
            },
        })
    }

    /// Takes one character, which stands at `at`.
    pub fn take(&mut self, c: char, at: usize) -> Result<(), Stop>
        requires { at + 1 < 2 ^ 64 }
        ensures { Took (step (state_of self.old) (sign_of c) (spot c at)) result (state_of self.new) }
    {
        match self.mode {
            Mode::Between => self.between(c, at),
            Mode::In(Run::Text) => self.in_text(c, at),
            Mode::In(Run::Value) => self.in_value(c, at),
            Mode::Refers(run, referring) => self.in_reference(run, referring, c, at),
            Mode::Begun => self.begun(c, at),
            Mode::TagName => self.tag_name(c, at),
            Mode::Valued => self.in_head(c, at),
            Mode::Spaced => self.spaced(c, at),
            Mode::AttributeName => self.attribute_name(c, at),
            Mode::Assigned => self.assigned(c, at),
            Mode::Slashed => self.slashed(c, at),
            Mode::Ending(read) => self.ending(read, c, at),
            Mode::Ended => self.ended(c, at),
            Mode::InRaw => self.in_raw(c, at),
            Mode::RawBegun => self.raw_begun(c, at),
            Mode::RawEnding(read) => self.raw_ending(read, c, at),
        }
    }

    /// The trees, where the text may end.
    pub fn finish(&mut self) -> Result<Vec<Plain>, Stop>
        ensures { MatchResult result (λ v. finished (Some (state_of self.old)) ≡ Some (placed_all v.items))
            (λ e. e ≡ stop.Bad → finished (Some (state_of self.old)) ≡ None) }
    {
        if !self.grown.open.is_empty() {
            return Err(Stop::Bad);
        }
        match self.mode {
            Mode::Between => {}
            Mode::In(Run::Text) => self.end_text()?,
            _ => return Err(Stop::Bad),
        }
        Ok(mem::replace(&mut self.grown.nodes, Vec::new(self.alloc)))
    }
}
