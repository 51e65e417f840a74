//! What is made of a text by itself (ECMA-262 3rd edition, 15.5.4.16 to 15.5.4.18): of case, ASCII letters alone.
ghost use Rattle.std.specs.Prelude.{◌≡◌, List, IfOk, OnErr, length};
ghost use Rattle.std.specs.Str.{str_to_ascii_lowercase, str_to_ascii_uppercase};
ghost use Rattle.std.specs.Char as chars;
ghost use Rattle.js_tree.specs.Forest.{Forest};
ghost use Rattle.widget_meaning.specs.TextNatives as means;
ghost use Rattle.widget_meaning.specs.NativeForms as forms;
ghost use Rattle.js_image.specs.Held.{Kept};
ghost use Rattle.native_common.specs.Refines.{Refines};

use code_units::{Memory, Text};
use js_values::{Meter, NativeOut};
use native_common::{WidgetId, give_text, text_len};
use object_store::{Store, TextNative};
use std::alloc::Global;

/// A method without arguments that makes a text of a text, as `toUpperCase()`.
pub(crate) fn make_of(
    alloc: Global,
    which: TextNative,
    t: &Text,
    store: &mut Store,
    meter: &mut Meter,
    w: WidgetId,
) -> Result<NativeOut, Memory>
    ensures native { IfOk result (λ o. Refines w.index store.old store.new meter.old meter.new
        (λ d s. forms.give_text (length t.now) (means.made_of which t.now) s) o) }
    ensures memory { OnErr result ((fs : List Forest) → Kept fs w.index store.old store.new) }
{
    let text = made_of(alloc, which, t)?;
    Ok(give_text(store, meter, w, text_len(t), text))
}

// The text that is made.
fn made_of(alloc: Global, which: TextNative, t: &Text) -> Result<Text, Memory>
    ensures { IfOk result (λ r. r ≡ means.made_of which t.now) }
{
    match which {
        TextNative::ToLowerCase => lower_case(alloc, t.units()),
        TextNative::ToUpperCase => upper_case(alloc, t.units()),
        _ => t.share(),
    }
}

fn upper_case(alloc: Global, units: &[u16]) -> Result<Text, Memory>
    ensures { IfOk result (λ t. t ≡ str_to_ascii_uppercase units.now) }
{
    let units = units.iter().map(upper_unit).collect(alloc)?;
    Text::from_units(alloc, units)
}

fn upper_unit(u: &u16) -> u16
    ensures { result ≡ chars.to_ascii_uppercase u.now }
{
    match *u {
        97..=122 => *u - 32,
        _ => *u,
    }
}

fn lower_case(alloc: Global, units: &[u16]) -> Result<Text, Memory>
    ensures { IfOk result (λ t. t ≡ str_to_ascii_lowercase units.now) }
{
    let units = units.iter().map(lower_unit).collect(alloc)?;
    Text::from_units(alloc, units)
}

fn lower_unit(u: &u16) -> u16
    ensures { result ≡ chars.to_ascii_lowercase u.now }
{
    match *u {
        65..=90 => *u + 32,
        _ => *u,
    }
}
