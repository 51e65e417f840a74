//! Methods that set attributes and styles.
ghost use Rattle.std.specs.Prelude.{◌≡◌, ◌&&◌, ◌||◌, ◌*◌, [], ◌∷◌, None, Some, IfOk, if◌then◌else◌, length, nat_eq};
ghost use Rattle.plain_tree.specs.Trees as plain;
ghost use Rattle.style_text.specs.Styles.{is_listed, is_value};
ghost use Rattle.tree_ops.specs.Labels.{with_attribute};
ghost use Rattle.widget_meaning.specs.BunchWrites as means;
ghost use Rattle.permitted_table.specs.declared.native.WriteNative.TheVariants as names;
ghost use Rattle.native_common.specs.Numbers.{counted};
ghost use Rattle.bunch_attributes.specs.Labels as labels;
ghost use Rattle.native_image.specs.Handed.{IsBunchOf, IsSoundIn, Runs, Writes, numbers, sees};

use crate::judging::Test;
use crate::relabelling::{Label, Relabelling, relabel};
use crate::restyling::Restyling;
use code_units::{Memory, Text};
use js_image::{Fault, word};
use js_values::{Meter, NativeOut, is_true};
use native_common::{either_object, is_object, read_text};
use native_image::{Cost, Receiver, Shared, Widget};
use object_store::Value;
use page_tree::NodeId;
use plain_tree::plain_words;
use std::alloc::Global;
use style_text::{property_listed, value_spelled};

// The units of a text, once for each node.
fn units_for(list: &[NodeId], text: &Text) -> usize
    ensures { result ≡ counted (length list.now * length text.now) }
{
    list.len().saturating_mul(text.units().len())
}

// Sets an attribute of all nodes.
fn set_attribute(
    bunch: &Receiver,
    name: &[u8],
    text: Text,
    shared: &mut Shared,
    meter: &mut Meter,
    widget: &Widget,
) -> Result<NativeOut, Memory>
    requires bunch { IsBunchOf shared.old widget.now bunch.now.cell bunch.now.nodes.now }
    requires sound { IsSoundIn shared.old widget.now }
    ensures { Writes shared.old shared.new widget.now widget.now meter.old meter.new
        (λ d s. means.set_attribute (numbers shared.old widget.now bunch.now.nodes.now) name.now text
        (sees shared.old widget.now (Value.Ref bunch.now.cell)) s) result }
{
    let cost = Cost::Units(units_for(bunch.nodes, &text));
    let name = word(shared.alloc, name)?;
    let mut how = Relabelling {
        test: Test::Element,
        change: Label::Set { name, value: text },
        cost,
    };
    relabel(bunch, &mut how, shared, meter, widget)
}

/// `klass(v)`.
pub fn set_class(
    bunch: &Receiver,
    value: &Value,
    shared: &mut Shared,
    meter: &mut Meter,
    widget: &Widget,
) -> Result<NativeOut, Memory>
    requires bunch { IsBunchOf shared.old widget.now bunch.now.cell bunch.now.nodes.now }
    requires sound { IsSoundIn shared.old widget.now }
    ensures { Runs shared.old shared.new widget.now widget.now meter.old meter.new names.SetClass
        bunch.now.cell bunch.now.nodes.now (value.now ∷ []) result }
{
    if is_object(value) {
        return Ok(NativeOut::Throw(Fault::E4));
    }
    let text = read_text(shared.alloc, value)?;
    if !plain_words(&text) {
        return Ok(NativeOut::Throw(Fault::E4));
    }
    set_attribute(bunch, b"class", text, shared, meter, widget)
}

/// `title(v)`.
pub fn set_title(
    bunch: &Receiver,
    value: &Value,
    shared: &mut Shared,
    meter: &mut Meter,
    widget: &Widget,
) -> Result<NativeOut, Memory>
    requires bunch { IsBunchOf shared.old widget.now bunch.now.cell bunch.now.nodes.now }
    requires sound { IsSoundIn shared.old widget.now }
    ensures { Runs shared.old shared.new widget.now widget.now meter.old meter.new names.SetTitle
        bunch.now.cell bunch.now.nodes.now (value.now ∷ []) result }
{
    if is_object(value) {
        return Ok(NativeOut::Throw(Fault::E4));
    }
    let text = read_text(shared.alloc, value)?;
    set_attribute(bunch, b"title", text, shared, meter, widget)
}

// An attribute whose value is its name is set or taken out.
fn flag(alloc: Global, name: &[u8], is_set: bool) -> Result<Label, Memory>
    ensures { IfOk result (λ c. (x : plain.Label)
        → labels.meant c x ≡ with_attribute name.now (if is_set then Some name.now else None) x) }
{
    let word_name = word(alloc, name)?;
    if is_set {
        let value = word(alloc, name)?;
        return Ok(Label::Set {
            name: word_name,
            value,
        });
    }
    Ok(Label::Unset { name: word_name })
}

/// `check(v)`.
pub fn set_check(
    bunch: &Receiver,
    value: &Value,
    shared: &mut Shared,
    meter: &mut Meter,
    widget: &Widget,
) -> Result<NativeOut, Memory>
    requires bunch { IsBunchOf shared.old widget.now bunch.now.cell bunch.now.nodes.now }
    requires sound { IsSoundIn shared.old widget.now }
    ensures { Runs shared.old shared.new widget.now widget.now meter.old meter.new names.SetCheck
        bunch.now.cell bunch.now.nodes.now (value.now ∷ []) result }
{
    let mut how = Relabelling {
        test: Test::Input,
        change: flag(shared.alloc, b"checked", is_true(value))?,
        cost: Cost::Nothing,
    };
    relabel(bunch, &mut how, shared, meter, widget)
}

/// `enable(v)`.
pub fn set_enabled(
    bunch: &Receiver,
    value: &Value,
    shared: &mut Shared,
    meter: &mut Meter,
    widget: &Widget,
) -> Result<NativeOut, Memory>
    requires bunch { IsBunchOf shared.old widget.now bunch.now.cell bunch.now.nodes.now }
    requires sound { IsSoundIn shared.old widget.now }
    ensures { Runs shared.old shared.new widget.now widget.now meter.old meter.new names.SetEnabled
        bunch.now.cell bunch.now.nodes.now (value.now ∷ []) result }
{
    let mut how = Relabelling {
        test: Test::Field,
        change: flag(shared.alloc, b"disabled", !is_true(value))?,
        cost: Cost::Nothing,
    };
    relabel(bunch, &mut how, shared, meter, widget)
}

// Whether a value may be given to a property of a style: the property is listed, and the value is
// spelled or empty.
fn may_style(property: &Text, value: &Text) -> bool
    ensures { result ≡ (is_listed property.now && (nat_eq (length value.now) 0 || is_value value.now)) }
{
    property_listed(property) && (value.units().is_empty() || value_spelled(value))
}

/// `style(p, v)`.
pub fn set_style(
    bunch: &Receiver,
    property: &Value,
    value: &Value,
    shared: &mut Shared,
    meter: &mut Meter,
    widget: &Widget,
) -> Result<NativeOut, Memory>
    requires bunch { IsBunchOf shared.old widget.now bunch.now.cell bunch.now.nodes.now }
    requires sound { IsSoundIn shared.old widget.now }
    ensures { Runs shared.old shared.new widget.now widget.now meter.old meter.new names.SetStyle
        bunch.now.cell bunch.now.nodes.now (property.now ∷ value.now ∷ []) result }
{
    if either_object(property, value) {
        return Ok(NativeOut::Throw(Fault::E4));
    }
    let property = read_text(shared.alloc, property)?;
    let value = read_text(shared.alloc, value)?;
    if !may_style(&property, &value) {
        return Ok(NativeOut::Throw(Fault::E4));
    }
    let cost = Cost::Units(units_for(bunch.nodes, &value));
    let restyling = Restyling::new(shared.alloc, property, value)?;
    let mut how = Relabelling {
        test: Test::Element,
        change: Label::Style(restyling),
        cost,
    };
    relabel(bunch, &mut how, shared, meter, widget)
}
