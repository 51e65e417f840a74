//! Heads of elements: the tag and the attributes.
ghost use Rattle.std.specs.Prelude.{◌≡◌, ◌<◌, ◌+◌, ◌^◌, IfOk, OnOk};
ghost use Rattle.markup_grammar.specs.Signs.{sign_of};
ghost use Rattle.markup_grammar.specs.Machine as machine;
ghost use Rattle.plain_tree.specs.Names.{is_bare};
ghost use Rattle.plain_tree.specs.Plains.{placed_all};
ghost use Rattle.markup_steps.specs.States.{state_of, spot, Took, trees_of, opens_of, opening_of, IsInName};

use crate::mode::{Mode, Run};
use crate::reader::{Head, Open, Reader};
use crate::sign::{is_in_tag, name_unit, sign_of};
use crate::stop::Stop;
use crate::units::take_text;
use code_units::{Memory, Text, is_word};
use markup_grammar::Sign;
use plain_tree::{Attr, Plain, is_void};
use std::mem;

// How many elements stand one above the other at most.
const LIMIT: usize = 200;

// Whether an attribute may stand without a value.
#[tactic(auto, unfolding(plain_tree::specs::Names::is_bare))]
fn is_bare(name: &Text) -> bool
    ensures { result ≡ is_bare name.now }
{
    is_word(name, b"checked") || is_word(name, b"disabled")
}

impl Reader {
    /// Behind `<`.
    pub fn begun(&mut self, c: char, at: usize) -> Result<(), Stop>
        ensures { Took (machine.begun self.old.head.at (trees_of self.old) (opens_of self.old) (sign_of c)
            (spot c at)) result (state_of self.new) }
    {
        match sign_of(c) {
            Sign::Letter => self.begin_tag(c, at),
            Sign::Slash => self.begin_end(),
            _ => Err(Stop::Bad),
        }
    }

    // At the first letter of a tag.
    #[tactic(auto, using(crate::proofs::Grows::length_stack), unfolding(markup_grammar::specs::Grammar::limit))]
    fn begin_tag(&mut self, c: char, at: usize) -> Result<(), Stop>
        requires { IsInName (sign_of c) }
        ensures { Took (machine.tag_begun self.old.head.at (trees_of self.old) (opens_of self.old)
            (spot c at)) result (state_of self.new) }
    {
        if self.grown.open.len() >= LIMIT {
            return Err(Stop::Bad);
        }
        self.piece.units.clear();
        self.piece.units.push(name_unit(c))?;
        self.mode = Mode::TagName;
        Ok(())
    }

    // Behind `</`.
    #[tactic(auto, using(crate::proofs::Grows::length_stack))]
    fn begin_end(&mut self) -> Result<(), Stop>
        ensures { Took (machine.end_begun (trees_of self.old) (opens_of self.old)) result (state_of self.new) }
    {
        if self.grown.open.is_empty() {
            return Err(Stop::Bad);
        }
        self.mode = Mode::Ending(0);
        Ok(())
    }

    /// In the name of a tag.
    pub fn tag_name(&mut self, c: char, at: usize) -> Result<(), Stop>
        requires { at + 1 < 2 ^ 64 }
        ensures { Took (machine.tag_name self.old.head.at self.old.piece.units.items (trees_of self.old)
            (opens_of self.old) (sign_of c) (spot c at)) result (state_of self.new) }
    {
        if is_in_tag(sign_of(c)) {
            self.piece.units.push(name_unit(c))?;
            self.mode = Mode::TagName;
            return Ok(());
        }
        self.head.tag = take_text(self.alloc, &mut self.piece.units)?;
        self.head.attrs.clear();
        self.in_head(c, at)
    }

    /// Behind the name of a tag, a value or an attribute that stands bare.
    pub fn in_head(&mut self, c: char, at: usize) -> Result<(), Stop>
        requires { at + 1 < 2 ^ 64 }
        ensures { Took (machine.in_head (opening_of self.old.head) (trees_of self.old) (opens_of self.old)
            (sign_of c) (spot c at)) result (state_of self.new) }
    {
        match sign_of(c) {
            Sign::Blank => self.mode = Mode::Spaced,
            Sign::Greater => self.open_element(at)?,
            Sign::Slash if is_void(&self.head.tag) => self.mode = Mode::Slashed,
            _ => return Err(Stop::Bad),
        }
        Ok(())
    }

    // At the `>` of a head.
    #[tactic(auto, using(crate::proofs::Grows::one_open), unfolding(plain_tree::specs::Names::is_script))]
    fn open_element(&mut self, at: usize) -> Result<(), Memory>
        requires { at + 1 < 2 ^ 64 }
        ensures { OnOk result (state_of self.new
            ≡ machine.opened (opening_of self.old.head) (trees_of self.old) (opens_of self.old) at) }
    {
        if is_void(&self.head.tag) {
            let children = Vec::new(self.alloc);
            return self.add_element(children);
        }
        if is_word(&self.head.tag, b"script") {
            self.piece.units.clear();
            self.piece.at = at + 1;
            self.mode = Mode::InRaw;
            return Ok(());
        }
        let head = self.take_head()?;
        let before = mem::replace(&mut self.grown.nodes, Vec::new(self.alloc));
        self.grown.open.push(Open { before, head })?;
        self.mode = Mode::Between;
        Ok(())
    }

    // The head, whose attributes are taken out.
    fn take_head(&mut self) -> Result<Head, Memory>
        ensures head { IfOk result (λ h. opening_of h ≡ opening_of self.old.head) }
        ensures kept { OnOk result ((trees_of self.new ≡ trees_of self.old) × (opens_of self.new ≡ opens_of self.old)) }
    {
        Ok(Head {
            tag: self.head.tag.share()?,
            attrs: mem::replace(&mut self.head.attrs, Vec::new(self.alloc)),
            at: self.head.at,
        })
    }

    /// Adds the element of the head, whole.
    #[tactic(auto, using(crate::proofs::Grows::one_element))]
    pub fn add_element(&mut self, children: Vec<Plain>) -> Result<(), Memory>
        ensures { OnOk result (state_of self.new
            ≡ machine.added (opening_of self.old.head) (placed_all children.items) (trees_of self.old)
            (opens_of self.old)) }
    {
        let head = self.take_head()?;
        self.grown.nodes.push(Plain::Element {
            tag: head.tag,
            attrs: head.attrs,
            children,
            at: head.at,
        })?;
        self.mode = Mode::Between;
        Ok(())
    }

    /// Behind blanks.
    pub fn spaced(&mut self, c: char, at: usize) -> Result<(), Stop>
        requires { at + 1 < 2 ^ 64 }
        ensures { Took (machine.spaced (opening_of self.old.head) (trees_of self.old) (opens_of self.old) (sign_of c)
            (spot c at)) result (state_of self.new) }
    {
        match sign_of(c) {
            Sign::Letter => {
                self.piece.units.clear();
                self.piece.units.push(name_unit(c))?;
                self.attribute.at = at;
                self.mode = Mode::AttributeName;
                Ok(())
            }
            _ => self.in_head(c, at),
        }
    }

    /// In the name of an attribute.
    pub fn attribute_name(&mut self, c: char, at: usize) -> Result<(), Stop>
        requires { at + 1 < 2 ^ 64 }
        ensures { Took (machine.attribute_name
            (opening_of self.old.head) self.old.attribute.at self.old.piece.units.items (trees_of self.old)
            (opens_of self.old) (sign_of c) (spot c at)) result (state_of self.new) }
    {
        match sign_of(c) {
            Sign::Letter | Sign::Hyphen => {
                self.piece.units.push(name_unit(c))?;
                self.mode = Mode::AttributeName;
                Ok(())
            }
            Sign::Equals => {
                self.attribute.name = take_text(self.alloc, &mut self.piece.units)?;
                self.mode = Mode::Assigned;
                Ok(())
            }
            _ => self.bared(c, at),
        }
    }

    // Behind an attribute that stands bare.
    fn bared(&mut self, c: char, at: usize) -> Result<(), Stop>
        requires { at + 1 < 2 ^ 64 }
        ensures { Took (machine.bared (opening_of self.old.head) self.old.attribute.at self.old.piece.units.items
            (trees_of self.old) (opens_of self.old) (sign_of c) (spot c at)) result (state_of self.new) }
    {
        let name = take_text(self.alloc, &mut self.piece.units)?;
        if !is_bare(&name) {
            return Err(Stop::Bad);
        }
        self.head.attrs.push(Attr {
            value: name.share()?,
            name,
            at: self.attribute.at,
            value_at: self.attribute.at,
        })?;
        self.in_head(c, at)
    }

    /// Behind `=`.
    pub fn assigned(&mut self, c: char, at: usize) -> Result<(), Stop>
        requires { at + 1 < 2 ^ 64 }
        ensures { Took (machine.assigned (opening_of self.old.head) self.old.attribute.at self.old.attribute.name
            (trees_of self.old) (opens_of self.old) (sign_of c) (spot c at)) result (state_of self.new) }
    {
        self.attribute.double = match sign_of(c) {
            Sign::DoubleQuote => true,
            Sign::SingleQuote => false,
            _ => return Err(Stop::Bad),
        };
        self.piece.units.clear();
        self.attribute.value_at = at + 1;
        self.mode = Mode::In(Run::Value);
        Ok(())
    }

    /// Behind the `/` of a void element.
    pub fn slashed(&mut self, c: char, at: usize) -> Result<(), Stop>
        ensures { Took (machine.slashed (opening_of self.old.head) (trees_of self.old) (opens_of self.old)
            (sign_of c) (spot c at)) result (state_of self.new) }
    {
        match sign_of(c) {
            Sign::Greater => {
                let children = Vec::new(self.alloc);
                Ok(self.add_element(children)?)
            }
            _ => Err(Stop::Bad),
        }
    }
}
