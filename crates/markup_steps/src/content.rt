//! Texts, values, and the ends of elements.
ghost use Rattle.std.specs.Prelude.{◌≡◌, ◌<◌, ◌+◌, OnOk, drop};
ghost use Rattle.markup_grammar.specs.Signs.{sign_of};
ghost use Rattle.markup_grammar.specs.Machine as machine;
ghost use Rattle.plain_tree.specs.Trees.{beside};
ghost use Rattle.plain_tree.specs.Plains.{text_node};
ghost use Rattle.markup_steps.specs.States.{state_of, spot, Took, trees_of, opens_of, text_run, value_run, opening_of, top_tag};

use crate::mode::{Mode, Referring, Run};
use crate::reader::{Head, Open, Reader};
use crate::sign::{is_in_tag, sign_of};
use crate::stop::Stop;
use crate::units::{take_text, unit_at};
use code_units::{Memory, push_char};
use markup_grammar::Sign;
use plain_tree::{Attr, Plain};
use std::mem;

impl Reader {
    /// Behind an element, or where content begins.
    pub fn between(&mut self, c: char, at: usize) -> Result<(), Stop>
        ensures { Took (machine.between (trees_of self.old) (opens_of self.old) (sign_of c) (spot c at)) result
            (state_of self.new) }
    {
        match sign_of(c) {
            Sign::Less => {
                self.head.at = at;
                self.mode = Mode::Begun;
            }
            Sign::Ampersand => {
                self.piece.units.clear();
                self.piece.at = at;
                self.mode = Mode::Refers(Run::Text, Referring::Ampersand);
            }
            _ => {
                self.piece.units.clear();
                push_char(&mut self.piece.units, c)?;
                self.piece.at = at;
                self.mode = Mode::In(Run::Text);
            }
        }
        Ok(())
    }

    /// In a text.
    pub fn in_text(&mut self, c: char, at: usize) -> Result<(), Stop>
        ensures { Took (machine.in_run (text_run self.old) (trees_of self.old) (opens_of self.old) (sign_of c)
            (spot c at)) result (state_of self.new) }
    {
        match sign_of(c) {
            Sign::Less => {
                self.end_text()?;
                self.head.at = at;
                self.mode = Mode::Begun;
            }
            Sign::Ampersand => self.mode = Mode::Refers(Run::Text, Referring::Ampersand),
            _ => {
                push_char(&mut self.piece.units, c)?;
                self.mode = Mode::In(Run::Text);
            }
        }
        Ok(())
    }

    /// In the value of an attribute.
    pub fn in_value(&mut self, c: char, at: usize) -> Result<(), Stop>
        ensures { Took (machine.in_run (value_run self.old) (trees_of self.old) (opens_of self.old) (sign_of c)
            (spot c at)) result (state_of self.new) }
    {
        match (sign_of(c), self.attribute.double) {
            (Sign::Less, _) => return Err(Stop::Bad),
            (Sign::Ampersand, _) => self.mode = Mode::Refers(Run::Value, Referring::Ampersand),
            (Sign::DoubleQuote, true) | (Sign::SingleQuote, false) => self.end_value()?,
            _ => {
                push_char(&mut self.piece.units, c)?;
                self.mode = Mode::In(Run::Value);
            }
        }
        Ok(())
    }

    /// The text ends.
    #[tactic(auto, using(crate::proofs::Grows::one_text))]
    pub fn end_text(&mut self) -> Result<(), Memory>
        ensures nodes { OnOk result (trees_of self.new
            ≡ beside (trees_of self.old) (text_node self.old.piece.units.items self.old.piece.at)) }
        ensures kept { OnOk result (opens_of self.new ≡ opens_of self.old) }
    {
        let text = take_text(self.alloc, &mut self.piece.units)?;
        self.grown.nodes.push(Plain::Text {
            text,
            at: self.piece.at,
        })?;
        Ok(())
    }

    // The value ends, and with it the attribute.
    fn end_value(&mut self) -> Result<(), Memory>
        ensures { OnOk result (state_of self.new
            ≡ machine.valued (opening_of self.old.head) self.old.attribute.name self.old.attribute.at
            self.old.attribute.value_at self.old.piece.units.items (trees_of self.old) (opens_of self.old)) }
    {
        let value = take_text(self.alloc, &mut self.piece.units)?;
        self.head.attrs.push(Attr {
            name: self.attribute.name.share()?,
            value,
            at: self.attribute.at,
            value_at: self.attribute.value_at,
        })?;
        self.mode = Mode::Valued;
        Ok(())
    }

    /// In an end tag, of whose name so many units are read.
    pub fn ending(&mut self, read: usize, c: char, at: usize) -> Result<(), Stop>
        ensures { Took (machine.ending (drop read (top_tag (opens_of self.old))) (trees_of self.old)
            (opens_of self.old) (sign_of c) (spot c at)) result (state_of self.new) }
    {
        match unit_at(self.end_word(), read) {
            None => self.ended(c, at),
            Some(unit) if is_in_tag(sign_of(c)) && u32::from(unit) == u32::from(c) => {
                self.mode = Mode::Ending(read + 1);
                Ok(())
            }
            Some(_) => Err(Stop::Bad),
        }
    }

    // The tag of the innermost element.
    fn end_word(&self) -> &[u16]
        ensures { result.now ≡ top_tag (opens_of self.now) }
    {
        match self.grown.open.last() {
            Some(open) => open.head.tag.units(),
            None => &[],
        }
    }

    /// Behind the name of an end tag.
    pub fn ended(&mut self, c: char, at: usize) -> Result<(), Stop>
        ensures { Took (machine.ended (trees_of self.old) (opens_of self.old) (sign_of c) (spot c at)) result
            (state_of self.new) }
    {
        match sign_of(c) {
            Sign::Blank => {
                self.mode = Mode::Ended;
                Ok(())
            }
            Sign::Greater => self.close(),
            _ => Err(Stop::Bad),
        }
    }

    // The innermost element ends.
    #[tactic(auto, using(crate::proofs::Grows::one_element, crate::proofs::Grows::one_open))]
    fn close(&mut self) -> Result<(), Stop>
        ensures { Took (machine.closed (trees_of self.old) (opens_of self.old)) result (state_of self.new) }
    {
        let Some(Open { before, head }) = self.grown.open.pop() else {
            return Err(Stop::Bad);
        };
        let Head { tag, attrs, at } = head;
        let children = mem::replace(&mut self.grown.nodes, before);
        self.grown.nodes.push(Plain::Element {
            tag,
            attrs,
            children,
            at,
        })?;
        self.mode = Mode::Between;
        Ok(())
    }
}
