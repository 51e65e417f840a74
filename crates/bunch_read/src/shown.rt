//! The methods that show a text of the first node.
ghost use Rattle.std.specs.Prelude.{◌≡◌, ℕ, IfOk, map};
ghost use Rattle.widget_meaning.specs.BunchReads as means;
ghost use Rattle.widget_meaning.specs.OwnState.{State};
ghost use Rattle.page_image.specs.Around.{Shows};
ghost use Rattle.page_image.specs.Image.{number};
ghost use Rattle.native_image.specs.Handed.{AreIts, IsSoundIn, Reads, numbers};
ghost use Rattle.native_image.specs.Sound.{AreNodes};

use crate::attributes::first_attribute;
use crate::first::{first_mark, first_tag};
use code_units::{Memory, Text};
use event_loop::Loop;
use js_values::{Meter, NativeOut};
use native_image::{Shared, Widget, give_page_text};
use object_store::{ReadNative, Value};
use page_tree::{NodeId, Page};
use std::alloc::Global;

// The text that a method shows, if any.
fn shown(
    alloc: Global,
    method: ReadNative,
    list: &[NodeId],
    w: u32,
    page: &Page,
    around: &Loop,
) -> Result<Option<Text>, Memory>
    requires other { method ≡ ReadNative.GetValue → ⊥ }
    requires nodes { AreNodes page.now w list.now }
    ensures { (g : ℕ → ℕ) (s : State) → Shows page.now w g around.now s.own
        → IfOk result (λ t. t ≡ means.shown method s (map (number page.now w) list.now)) }
{
    match method {
        ReadNative::GetValue => unreachable!(),
        ReadNative::GetClass => Ok(Some(first_attribute(alloc, list, b"class", w, page)?)),
        ReadNative::GetTitle => Ok(Some(first_attribute(alloc, list, b"title", w, page)?)),
        ReadNative::GetTagName => first_tag(alloc, list, w, page),
        ReadNative::GetMark => Ok(Some(first_mark(alloc, list, w, page, around)?)),
        _ => Ok(None),
    }
}

/// Each of these methods but `getValue()`, whose extra counts the units too: it is taken before the text is made.
pub(crate) fn show(
    method: ReadNative,
    list: &[NodeId],
    shared: &mut Shared,
    meter: &mut Meter,
    widget: &Widget,
) -> Result<NativeOut, Memory>
    requires other { method ≡ ReadNative.GetValue → ⊥ }
    requires nodes { AreIts shared.old widget.now list.now }
    requires sound { IsSoundIn shared.old widget.now }
    ensures { Reads shared.old shared.new widget.now meter.old meter.new
        (λ d s. means.show method (numbers shared.old widget.now list.now) s) result }
{
    match shown(
        shared.alloc,
        method,
        list,
        widget.id.index,
        &shared.page,
        &widget.around,
    )? {
        Some(text) => Ok(give_page_text(&mut shared.store, meter, widget.id, list.len(), text)),
        None => Ok(NativeOut::Value(Value::Undefined)),
    }
}
