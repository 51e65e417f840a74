//! Changes of what nodes are.
ghost use Rattle.std.specs.Prelude.{◌≡◌, ℕ, true, false, OnOk, map};
ghost use Rattle.std.specs.List.{fold};
ghost use Rattle.query_grammar.specs.Finds.{has_number};
ghost use Rattle.page_image.specs.Image.{HasRoot, forest, number, owns, relabel_in};
ghost use Rattle.page_image.specs.Stays.{HostStays, KeepsNodes, OthersStay};
ghost use Rattle.page_image.specs.Targets.{is_text_at};
ghost use Rattle.native_image.specs.Handed.{IsBunchOf, IsSoundIn, Writes, numbers, sees};
ghost use Rattle.native_image.specs.Charges.{IsPrice, Price};
ghost use Rattle.bunch_attributes.specs.Labels.{meant, relabel_plan};

use crate::judging::{Test, all_pass};
use crate::restyling::Restyling;
use code_units::{Memory, Text};
use js_image::Fault;
use js_values::{Meter, NativeOut};
use native_common::WidgetId;
use native_image::{Cost, Receiver, Shared, Widget, begin};
use object_store::Value;
use page_image::set_attr;
use page_tree::{NodeId, Page};
use std::alloc::Global;

/// A change of an element: an attribute that is set or taken out, or a property of its style.
#[derive(Drop)]
pub enum Label {
    Set { name: Text, value: Text },
    Unset { name: Text },
    Style(Restyling),
}

/// A change of all nodes of a Bunch: what is asked of each first, and what it costs.
#[derive(Drop)]
pub struct Relabelling {
    pub test: Test,
    pub change: Label,
    pub cost: Cost,
}

// Changes an element of a widget.
fn change_node(
    alloc: Global,
    node: NodeId,
    change: &mut Label,
    w: WidgetId,
    page: &mut Page,
) -> Result<(), Memory>
    requires home { HasRoot page.old w.index }
    requires own { owns page.old w.index node ≡ true }
    requires element { is_text_at (forest page.old w.index) (number page.old w.index node) ≡ false }
    ensures image { OnOk result (forest page.new w.index
        ≡ relabel_in (meant change.old) (forest page.old w.index) (number page.old w.index node)) }
    ensures same { meant change.new ≡ meant change.old }
    ensures kept { KeepsNodes page.old page.new }
    ensures others { OthersStay page.old page.new w.index }
    ensures host { HostStays page.old page.new }
{
    match change {
        Label::Set { name, value } => set(page, w, node, name, value),
        Label::Unset { name } => set_attr(page, w.index, node, name, None),
        Label::Style(restyling) => restyling.restyle(alloc, node, w, page),
    }
}

// Sets an attribute.
fn set(page: &mut Page, w: WidgetId, node: NodeId, name: &Text, value: &Text) -> Result<(), Memory>
    requires home { HasRoot page.old w.index }
    requires own { owns page.old w.index node ≡ true }
    requires element { is_text_at (forest page.old w.index) (number page.old w.index node) ≡ false }
    ensures image { OnOk result (forest page.new w.index ≡
        relabel_in (meant (Label.Set name.now value.now)) (forest page.old w.index) (number page.old w.index node)) }
    ensures kept { KeepsNodes page.old page.new }
    ensures others { OthersStay page.old page.new w.index }
    ensures host { HostStays page.old page.new }
{
    let value = value.share()?;
    set_attr(page, w.index, node, name, Some(value))
}

// Changes elements of a widget.
fn change_all(
    alloc: Global,
    list: &[NodeId],
    change: &mut Label,
    w: WidgetId,
    page: &mut Page,
) -> Result<(), Memory>
    requires home { HasRoot page.old w.index }
    requires own { (n : ℕ) → has_number list.now n ≡ true → owns page.old w.index n ≡ true }
    requires elements { (n : ℕ) → has_number list.now n ≡ true
        → is_text_at (forest page.old w.index) (number page.old w.index n) ≡ false }
    ensures image { OnOk result (forest page.new w.index ≡
        fold (relabel_in (meant change.old)) (forest page.old w.index) (map (number page.old w.index) list.now)) }
    ensures kept { KeepsNodes page.old page.new }
    ensures others { OthersStay page.old page.new w.index }
    ensures host { HostStays page.old page.new }
{
    'each: for node in list {
        change_node(alloc, *node, change, w, page)?;
    }
    Ok(())
}

/// Changes all nodes of a Bunch, which is given back.
pub(crate) fn relabel(
    bunch: &Receiver,
    how: &mut Relabelling,
    shared: &mut Shared,
    meter: &mut Meter,
    widget: &Widget,
) -> Result<NativeOut, Memory>
    requires bunch { IsBunchOf shared.old widget.now bunch.now.cell bunch.now.nodes.now }
    requires sound { IsSoundIn shared.old widget.now }
    ensures { (c : Price) → IsPrice how.old.cost c
        → Writes shared.old shared.new widget.now widget.now meter.old meter.new
        (λ d s. relabel_plan how.old.test how.old.change c (numbers shared.old widget.now bunch.now.nodes.now)
        (sees shared.old widget.now (Value.Ref bunch.now.cell)) s) result }
{
    if !all_pass(bunch.nodes, how.test, widget.id, &shared.page) {
        return Ok(NativeOut::Throw(Fault::E10));
    }
    match begin(
        &mut shared.store,
        meter,
        widget.id,
        bunch.nodes.len(),
        how.cost,
    ) {
        Ok(()) => {
            change_all(
                shared.alloc,
                bunch.nodes,
                &mut how.change,
                widget.id,
                &mut shared.page,
            )?;
            Ok(NativeOut::Value(Value::Ref(bunch.cell)))
        }
        Err(out) => Ok(out),
    }
}
