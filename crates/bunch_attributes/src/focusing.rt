//! The focus.
ghost use Rattle.std.specs.Prelude.{◌≡◌, ℕ, [], true, map};
ghost use Rattle.query_grammar.specs.Finds.{has_number};
ghost use Rattle.store_cells.specs.Cells.{Cells};
ghost use Rattle.widget_meaning.specs.BunchWrites as means;
ghost use Rattle.permitted_table.specs.declared.native.WriteNative.TheVariants as names;
ghost use Rattle.widget_meaning.specs.OwnState.{State};
ghost use Rattle.page_image.specs.Around.{Shows};
ghost use Rattle.page_image.specs.Image.{number, owns};
ghost use Rattle.native_image.specs.Handed.{IsBunchOf, IsSoundIn, Runs};
ghost use Rattle.native_image.specs.Sound.{HoldsOwn};

use event_loop::Loop;
use js_image::Fault;
use js_values::{Meter, NativeOut};
use native_common::WidgetId;
use native_image::{Cost, Receiver, Shared, Widget, begin};
use object_store::Value;
use page_tree::{NodeId, Page};

/// `focus()`: of one node.
pub fn focus(
    bunch: &Receiver,
    shared: &mut Shared,
    meter: &mut Meter,
    widget: &mut Widget,
) -> NativeOut
    requires bunch { IsBunchOf shared.old widget.old bunch.now.cell bunch.now.nodes.now }
    requires sound { IsSoundIn shared.old widget.old }
    ensures { Runs shared.old shared.new widget.old widget.new meter.old meter.new names.Focus
        bunch.now.cell bunch.now.nodes.now [] (Ok result) }
{
    let list = bunch.nodes;
    if list.len() != 1 {
        return NativeOut::Throw(Fault::E4);
    }
    match begin(&mut shared.store, meter, widget.id, 1, Cost::Nothing) {
        Ok(()) => {
            widget.around.set_focus(Some(list[0]));
            NativeOut::Value(Value::Ref(bunch.cell))
        }
        Err(out) => out,
    }
}

/// Whether a node is among these.
pub fn has_node(list: &[NodeId], node: NodeId) -> bool
    ensures { result ≡ has_number list.now node }
{
    'each: for other in list {
        if node == *other {
            return true;
        }
    }
    false
}

// Takes the focus from a node that is among these.
fn leave(list: &[NodeId], w: WidgetId, page: &Page, around: &mut Loop)
    requires { (n : ℕ) → has_number list.now n ≡ true → owns page.now w.index n ≡ true }
    ensures shown { (g : ℕ → ℕ) (s : State) → Shows page.now w.index g around.old s.own
        → Shows page.now w.index g around.new
        (means.with_focus (means.left_focus s.own.focus (map (number page.now w.index) list.now)) s).own }
    ensures holds { (s : Cells) → HoldsOwn w.index s page.now around.old → HoldsOwn w.index s page.now around.new }
{
    if let Some(node) = around.focus() {
        if has_node(list, node) {
            around.set_focus(None);
        }
    }
}

/// `blur()`: of any nodes.
pub fn blur(
    bunch: &Receiver,
    shared: &mut Shared,
    meter: &mut Meter,
    widget: &mut Widget,
) -> NativeOut
    requires bunch { IsBunchOf shared.old widget.old bunch.now.cell bunch.now.nodes.now }
    requires sound { IsSoundIn shared.old widget.old }
    ensures { Runs shared.old shared.new widget.old widget.new meter.old meter.new names.Blur
        bunch.now.cell bunch.now.nodes.now [] (Ok result) }
{
    match begin(
        &mut shared.store,
        meter,
        widget.id,
        bunch.nodes.len(),
        Cost::Nothing,
    ) {
        Ok(()) => {
            leave(bunch.nodes, widget.id, &shared.page, &mut widget.around);
            NativeOut::Value(Value::Ref(bunch.cell))
        }
        Err(out) => out,
    }
}
