//! New nodes that are given in a Bunch.
ghost use Rattle.std.specs.Prelude.{◌≡◌, ℕ, List, Bool, Option, IfOk, OnOk};
ghost use Rattle.js_tree.specs.Forest.{Forest};
ghost use Rattle.plain_tree.specs.Plains.{unplaced};
ghost use Rattle.plain_tree.specs.Trees.{End, Label, Node};
ghost use Rattle.widget_meaning.specs.DomNatives as means;
ghost use Rattle.widget_meaning.specs.OwnState.{Amounts};
ghost use Rattle.widget_meaning.specs.Costs.{with_counts};
ghost use Rattle.event_loop.specs.declared.around.Loop.{Loop};
ghost use Rattle.js_image.specs.Held.{Kept};
ghost use Rattle.native_common.specs.Numbers.{counted};
ghost use Rattle.native_image.specs.Image.{Outside, beside, image};
ghost use Rattle.native_image.specs.Made.{IsNode};
ghost use Rattle.native_image.specs.Refines.{EndsAt};
ghost use Rattle.native_image.specs.Sound.{HoldsOwn, IsSound, KeepsAll};

use crate::bunches::bunch_of_node;
use crate::growing::add_tree;
use crate::weighing::{Bill, settle, weigh};
use code_units::Memory;
use js_image::{Paid, pay_units};
use js_values::NativeOut;
use native_common::WidgetId;
use object_store::{Store, Value};
use page_tree::Page;
use plain_tree::Plain;
use std::alloc::Global;

/// Pays for units of text that were judged before. Where they cannot be paid, it is answered like
/// want of memory.
pub fn pay_judged(store: &mut Store, w: WidgetId, units: u32) -> Result<(), Memory>
    ensures paid { OnOk result ((p : Page) (l : Loop) → HoldsOwn w.index store.old p l
        → (fs : List Forest) (x : Outside) (b : Option Bool) (c : Amounts)
        → with_counts (image fs x w.index (beside store.new p l b)) c
        ≡ with_counts (image fs x w.index (beside store.old p l b)) c) }
    ensures kept { (fs : List Forest) → Kept fs w.index store.old store.new }
{
    match pay_units(store, w.index, units) {
        Paid::Done => Ok(()),
        Paid::Stop(_) => Err(Memory),
    }
}

/// A new node of a widget, a tree by itself, and the Bunch of it, which is given: for its units, a
/// cell, two slots and a node.
pub fn give_node(
    alloc: Global,
    store: &mut Store,
    page: &mut Page,
    w: WidgetId,
    plain: &Plain,
    units: usize,
) -> Result<NativeOut, Memory>
    requires { (l : Loop) × IsSound w.index store.old page.old l }
    ensures ends { IfOk result (λ o. (l : Loop) (b : Option Bool) (label : Label) (u : ℕ)
        → unplaced plain.now ≡ Node tt label End End → units ≡ counted u → IsSound w.index store.old page.old l
        → EndsAt w.index (beside store.old page.old l b) (beside store.new page.new l b)
        (λ d s. means.give_node label u s) o) }
    ensures kept { (l : Loop) → IsSound w.index store.old page.old l
        → KeepsAll w.index store.old store.new page.old page.new l }
{
    let bill = Bill {
        units,
        cells: 1,
        slots: 2,
        nodes: 1,
    };
    match weigh(store, page, w, bill) {
        Ok(due) => {
            let value = make_node(alloc, store, page, w, plain, units as u32)?;
            settle(store, page, w, due)?;
            Ok(NativeOut::Value(value))
        }
        Err(cause) => Ok(NativeOut::Stop(cause)),
    }
}

// Makes the node and its Bunch, whose cost was judged before.
fn make_node(
    alloc: Global,
    store: &mut Store,
    page: &mut Page,
    w: WidgetId,
    plain: &Plain,
    units: u32,
) -> Result<Value, Memory>
    requires { (l : Loop) × IsSound w.index store.old page.old l }
    ensures made { IfOk result (λ v. (l : Loop) (label : Label) → unplaced plain.now ≡ Node tt label End End
        → HoldsOwn w.index store.old page.old l → IsNode w.index store.old store.new page.old page.new l label v) }
    ensures sound { OnOk result ((l : Loop) → IsSound w.index store.old page.old l
        → IsSound w.index store.new page.new l) }
    ensures kept { (l : Loop) → IsSound w.index store.old page.old l
        → KeepsAll w.index store.old store.new page.old page.new l }
{
    pay_judged(store, w, units)?;
    let node = add_tree(alloc, store, page, w, plain)?;
    bunch_of_node(alloc, store, w, page, node)
}
