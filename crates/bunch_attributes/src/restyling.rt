//! A property that is set in the styles of many nodes.
ghost use Rattle.std.specs.Prelude.{◌≡◌, true, false, codes, IfOk, OnOk, None, option_copied};
ghost use Rattle.widget_meaning.specs.BunchWrites.{styled};
ghost use Rattle.page_image.specs.Image.{HasRoot, forest, number, owns, relabel_in};
ghost use Rattle.page_image.specs.Stays.{HostStays, KeepsNodes, OthersStay};
ghost use Rattle.page_image.specs.Targets.{is_text_at};
ghost use Rattle.bunch_attributes.specs.Restyled.{restyled};

use crate::styles::restyled;
use code_units::{Memory, Text};
use js_image::word;
use native_common::WidgetId;
use page_image::{attr_of_word, set_attr};
use page_tree::{NodeId, Page};
use std::alloc::Global;

/// A property that is set in styles, or taken out of them by an empty value. The last style is kept
/// with what it became: of many nodes with one style the first alone has it read.
#[derive(Drop)]
pub struct Restyling {
    pub property: Text,
    pub value: Text,
    // the name of the attribute
    name: Text,
    last: Option<Text>,
    made: Option<Text>,
    ghost named: { name ≡ codes "style" },
    ghost told: { made ≡ restyled property value last },
}

// Whether two styles, of which each may be missing, are the same.
fn is_same(style: Option<&Text>, last: Option<&Text>) -> bool
    ensures { result ≡ true → option_copied style.entry ≡ option_copied last.entry }
{
    match (style, last) {
        (Some(style), Some(last)) => *style == *last,
        (None, None) => true,
        _ => false,
    }
}

// The same style for a second holder.
fn shared(style: Option<&Text>) -> Result<Option<Text>, Memory>
    ensures { IfOk result (λ copy. copy ≡ option_copied style.entry) }
{
    match style {
        Some(text) => Ok(Some(text.share()?)),
        None => Ok(None),
    }
}

impl Restyling {
    /// The first style is a missing one.
    pub fn new(alloc: Global, property: Text, value: Text) -> Result<Restyling, Memory>
        ensures property { IfOk result (λ r. r.property ≡ property) }
        ensures value { IfOk result (λ r. r.value ≡ value) }
    {
        let name = word(alloc, b"style")?;
        let made = restyled(alloc, None, &property, &value)?;
        Ok(Restyling {
            property,
            value,
            name,
            last: None,
            made,
        })
    }

    // What a style becomes. It is the last one then.
    fn made_of(&mut self, alloc: Global, style: Option<&Text>) -> Result<Option<Text>, Memory>
        ensures made { IfOk result (λ text. text
            ≡ restyled self.old.property self.old.value (option_copied style.entry)) }
        ensures property { self.new.property ≡ self.old.property }
        ensures value { self.new.value ≡ self.old.value }
    {
        if is_same(style, self.last.as_ref()) {
            return shared(self.made.as_ref());
        }
        let made = restyled(alloc, style, &self.property, &self.value)?;
        let kept = shared(made.as_ref())?;
        self.last = shared(style)?;
        self.made = kept;
        Ok(made)
    }

    /// Sets the property in the style of an element of a widget.
    pub fn restyle(
        &mut self,
        alloc: Global,
        node: NodeId,
        w: WidgetId,
        page: &mut Page,
    ) -> Result<(), Memory>
        requires home { HasRoot page.old w.index }
        requires own { owns page.old w.index node ≡ true }
        requires element { is_text_at (forest page.old w.index) (number page.old w.index node) ≡ false }
        ensures image { OnOk result (forest page.new w.index ≡ relabel_in
            (styled self.old.property self.old.value) (forest page.old w.index) (number page.old w.index node)) }
        ensures property { self.new.property ≡ self.old.property }
        ensures value { self.new.value ≡ self.old.value }
        ensures kept { KeepsNodes page.old page.new }
        ensures others { OthersStay page.old page.new w.index }
        ensures host { HostStays page.old page.new }
    {
        let text = self.made_of(alloc, attr_of_word(page, w.index, node, b"style"))?;
        set_attr(page, w.index, node, &self.name, text)
    }
}
