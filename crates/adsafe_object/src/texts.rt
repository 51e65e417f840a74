//! New arrays of texts.
ghost use Rattle.std.specs.Prelude.{◌≡◌, ◌<◌, List, IfOk, OnErr, MatchOption, sum_by, length};
ghost use Rattle.std.specs.List.{list_any};
ghost use Rattle.js_tree.specs.Forest.{Forest};
ghost use Rattle.widget_meaning.specs.Limits.{max_units};
ghost use Rattle.widget_meaning.specs.NativeForms as forms;
ghost use Rattle.js_image.specs.Held.{Kept};
ghost use Rattle.native_common.specs.Refines.{Ends};
ghost use Rattle.adsafe_object.specs.Names.{too_many};

use code_units::{Memory, Text};
use js_image::StopCause;
use js_values::NativeOut;
use native_common::{self, WidgetId, text_len};
use object_store::{Store, UNIT_LIMIT};
use std::alloc::Global;

/// The units that a text may have.
const LONGEST: usize = 65_536;

/// A new array of texts that are all made for it: one is too long, or one cost.
pub(crate) fn give_texts(
    alloc: Global,
    store: &mut Store,
    w: WidgetId,
    texts: Vec<Text>,
) -> Result<NativeOut, Memory>
    ensures ends { IfOk result (λ o. Ends w.index store.old store.new (λ d s. forms.give_texts texts.items s) o) }
    ensures memory { OnErr result ((fs : List Forest) → Kept fs w.index store.old store.new) }
{
    match units_in(&texts) {
        Some(units) => native_common::give_texts(alloc, store, w, texts, units),
        None => Ok(NativeOut::Stop(too_many(&texts))),
    }
}

// Why texts of more units than a widget may have are not made.
fn too_many(texts: &[Text]) -> StopCause
    ensures { result ≡ too_many texts.now }
{
    if any_long(texts) {
        StopCause::LongText
    } else {
        StopCause::Units
    }
}

// Whether one of them is longer than a text can be.
fn any_long(texts: &[Text]) -> bool
    ensures { result ≡ list_any forms.is_too_long texts.now }
{
    for text in texts {
        if text_len(text) > LONGEST {
            return true;
        }
    }
    false
}

// The units of all, none where they are more than a widget may have.
fn units_in(texts: &[Text]) -> Option<u32>
    ensures { MatchOption result (max_units < sum_by length texts.now) (λ n. n ≡ sum_by length texts.now) }
{
    let mut sum = 0;
    for text in texts {
        let len = text.units().len();
        if len > (UNIT_LIMIT - sum) as usize {
            return None;
        }
        sum += len as u32;
    }
    Some(sum)
}
