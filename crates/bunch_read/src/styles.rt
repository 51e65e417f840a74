//! Styles of the first node.
ghost use Rattle.std.specs.Prelude.{◌≡◌, IfOk};
ghost use Rattle.widget_meaning.specs.BunchReads as means;
ghost use Rattle.widget_meaning.specs.Styles.{style_pairs, style_value};
ghost use Rattle.native_image.specs.Handed.{AreIts, IsSoundIn, Reads, numbers, sees};

use crate::attributes::first_attribute;
use code_units::{Memory, Text};
use js_image::{Fault, word};
use js_values::{Meter, NativeOut};
use native_common::{is_object, read_text};
use native_image::{Shared, Widget, give_page_text};
use object_store::Value;
use page_tree::NodeId;
use std::alloc::Global;
use style_text::{StyleFault, property_listed, read_style};

// The value of a property, the empty text where it has none.
fn value_in(alloc: Global, pairs: &[(Text, Text)], name: &Text) -> Result<Text, Memory>
    ensures { IfOk result (λ t. t ≡ style_value pairs.now name.now) }
{
    'each: for pair in pairs {
        if pair.0 == *name {
            return pair.1.share();
        }
    }
    word(alloc, b"")
}

// The value of a property of a style; a text that is none has none.
fn style_property(alloc: Global, style: &Text, name: &Text) -> Result<Text, Memory>
    ensures { IfOk result (λ t. t ≡ style_value (style_pairs style.now) name.now) }
{
    match read_style(alloc, style) {
        Ok(pairs) => value_in(alloc, &pairs, name),
        Err(StyleFault::BadStyle { .. }) => word(alloc, b""),
        Err(StyleFault::Memory) => Err(Memory),
    }
}

/// `getStyle(p)`.
pub(crate) fn get_style(
    list: &[NodeId],
    property: &Value,
    shared: &mut Shared,
    meter: &mut Meter,
    widget: &Widget,
) -> Result<NativeOut, Memory>
    requires nodes { AreIts shared.old widget.now list.now }
    requires sound { IsSoundIn shared.old widget.now }
    ensures { Reads shared.old shared.new widget.now meter.old meter.new (λ d s. means.get_style
        (numbers shared.old widget.now list.now) (sees shared.old widget.now property.now) s) result }
{
    if is_object(property) {
        return Ok(NativeOut::Throw(Fault::E4));
    }
    let name = read_text(shared.alloc, property)?;
    if !property_listed(&name) {
        return Ok(NativeOut::Throw(Fault::E4));
    }
    let style = first_attribute(shared.alloc, list, b"style", widget.id.index, &shared.page)?;
    let text = style_property(shared.alloc, &style, &name)?;
    Ok(give_page_text(&mut shared.store, meter, widget.id, list.len(), text))
}
