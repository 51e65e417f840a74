//! Changes of what is kept with nodes.
ghost use Rattle.std.specs.Prelude.{◌≡◌, ℕ, true, OnErr, OnOk, map};
ghost use Rattle.std.specs.List.{fold};
ghost use Rattle.query_grammar.specs.Finds.{has_number};
ghost use Rattle.store_cells.specs.Cells.{Cells, own_count};
ghost use Rattle.widget_meaning.specs.BunchWrites.{change_kept};
ghost use Rattle.widget_meaning.specs.OwnState.{State};
ghost use Rattle.event_loop.specs.Around.{ChangedAt, SameKept, SameTimes};
ghost use Rattle.page_image.specs.Around.{Shows};
ghost use Rattle.page_image.specs.Image.{number, owns};
ghost use Rattle.native_image.specs.Handed.{IsBunchOf, IsSoundIn, Writes, numbers, sees};
ghost use Rattle.native_image.specs.Charges.{IsPrice, Price};
ghost use Rattle.native_image.specs.Sound.{HoldsOwn};
ghost use Rattle.bunch_attributes.specs.Kept.{IsFineChange, keep_plan, meant, plain_change};

use code_units::{Memory, Text};
use event_loop::Loop;
use js_values::{Meter, NativeOut};
use native_common::WidgetId;
use native_image::{Cost, Receiver, Shared, Widget, begin};
use object_store::{CellId, Value};
use page_tree::{NodeId, Page};
use std::alloc::Global;

/// A change of what is kept with a node: one more handler, the last; the handlers of a type or all
/// taken out; another mark; or protection for good.
#[derive(Drop)]
pub enum Change {
    Listen { kind: Text, func: CellId },
    Hush { kind: Option<Text> },
    Mark { text: Text },
    Protect,
}

// Changes what is kept with a node.
fn change_node(
    alloc: Global,
    around: &mut Loop,
    node: NodeId,
    change: &Change,
) -> Result<(), Memory>
    ensures done { OnOk result (ChangedAt around.old around.new node (plain_change change.now)) }
    ensures same { OnErr result (SameKept around.old around.new) }
    ensures others { SameTimes around.old around.new }
{
    match change {
        Change::Listen { kind, func } => {
            let kind = kind.share()?;
            around.listen(alloc, node, kind, *func)
        }
        Change::Hush { kind } => {
            around.hush(node, kind.as_ref());
            Ok(())
        }
        Change::Mark { text } => {
            let text = text.share()?;
            around.set_mark(alloc, node, text)
        }
        Change::Protect => around.protect(alloc, node),
    }
}

// Changes what is kept with nodes of a widget, one after the other.
fn change_all(
    alloc: Global,
    list: &[NodeId],
    change: &Change,
    w: WidgetId,
    page: &Page,
    around: &mut Loop,
) -> Result<(), Memory>
    requires { (n : ℕ) → has_number list.now n ≡ true → owns page.now w.index n ≡ true }
    ensures shown { (g : ℕ → ℕ) (s : State) → Shows page.now w.index g around.old s.own → OnOk result
        (Shows page.now w.index g around.new
        (fold (change_kept (meant g change.now)) s (map (number page.now w.index) list.now)).own) }
    ensures holds { (s : Cells) → IsFineChange w.index s.cells change.now → HoldsOwn w.index s page.now around.old
        → HoldsOwn w.index s page.now around.new }
{
    'each: for node in list {
        change_node(alloc, around, *node, change)?;
    }
    Ok(())
}

/// Changes what is kept with all nodes of a Bunch, which is given back.
pub(crate) fn keep(
    bunch: &Receiver,
    change: &Change,
    cost: Cost,
    shared: &mut Shared,
    meter: &mut Meter,
    widget: &mut Widget,
) -> Result<NativeOut, Memory>
    requires bunch { IsBunchOf shared.old widget.old bunch.now.cell bunch.now.nodes.now }
    requires change { IsFineChange widget.old.id.index shared.old.store.cells change.now }
    requires sound { IsSoundIn shared.old widget.old }
    ensures { (c : Price) → IsPrice cost c
        → Writes shared.old shared.new widget.old widget.new meter.old meter.new
        (λ d s. keep_plan (meant (own_count widget.old.id.index shared.old.store.cells) change.now) c
        (numbers shared.old widget.old bunch.now.nodes.now)
        (sees shared.old widget.old (Value.Ref bunch.now.cell)) s) result }
{
    match begin(&mut shared.store, meter, widget.id, bunch.nodes.len(), cost) {
        Ok(()) => {
            change_all(
                shared.alloc,
                bunch.nodes,
                change,
                widget.id,
                &shared.page,
                &mut widget.around,
            )?;
            Ok(NativeOut::Value(Value::Ref(bunch.cell)))
        }
        Err(out) => Ok(out),
    }
}
