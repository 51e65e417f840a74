//! Costs of several kinds, which are judged as one before anything is made.
ghost use Rattle.std.specs.Prelude.{◌≡◌, ◌≤◌, ℕ, List, Bool, Option, true, IfErr, IfOk, OnOk};
ghost use Rattle.js_tree.specs.Forest.{Forest};
ghost use Rattle.widget_meaning.specs.OwnState.{State};
ghost use Rattle.widget_meaning.specs.Plan.{Halt, Plan};
ghost use Rattle.widget_meaning.specs.Costs as costs;
ghost use Rattle.event_loop.specs.declared.around.Loop.{Loop};
ghost use Rattle.js_image.specs.Plans.{meant_cause};
ghost use Rattle.native_common.specs.Numbers.{counted};
ghost use Rattle.native_image.specs.Image.{Outside, beside, image};
ghost use Rattle.native_image.specs.Weights.{amounts};

use code_units::{Memory, Owner};
use js_image::StopCause;
use native_common::WidgetId;
use object_store::{CELL_LIMIT, SLOT_LIMIT, Store, UNIT_LIMIT};
use page_image::made;
use page_tree::Page;

/// A cost of several kinds; units and nodes are counted.
#[derive(Clone, Copy, Drop)]
pub struct Bill {
    pub units: usize,
    pub cells: u32,
    pub slots: u32,
    pub nodes: usize,
}

/// What a widget will have paid.
#[derive(Clone, Copy, Drop)]
pub struct Due {
    pub units: u32,
    pub cells: u32,
    pub slots: u32,
    pub nodes: u32,
}

/// What a widget has paid once a whole cost is paid, or the stop: units, cells, slots and nodes are
/// judged in this order. Nothing is paid.
pub fn weigh(store: &Store, page: &Page, w: WidgetId, bill: Bill) -> Result<Due, StopCause>
    ensures fits { OnOk result (bill.units ≤ 2097152) }
    ensures due { IfOk result (λ due. (u m : ℕ) → bill.units ≡ counted u → bill.nodes ≡ counted m
        → (fs : List Forest) (x : Outside) (l : Loop) (b : Option Bool) (k : State → Plan)
        → costs.pay (costs.cost u bill.cells bill.slots m) (image fs x w.index (beside store.now page.now l b)) k
        ≡ k (costs.with_counts (image fs x w.index (beside store.now page.now l b)) (amounts due))) }
    ensures stop { IfErr result (λ c. (u m : ℕ) → bill.units ≡ counted u → bill.nodes ≡ counted m
        → (fs : List Forest) (x : Outside) (l : Loop) (b : Option Bool) (k : State → Plan)
        → costs.pay (costs.cost u bill.cells bill.slots m) (image fs x w.index (beside store.now page.now l b)) k
        ≡ Halt (meant_cause c) (image fs x w.index (beside store.now page.now l b))) }
{
    let paid = store.counts(Owner::Widget(w.index));
    let nodes = made(page, w.index);
    if bill.units > (UNIT_LIMIT - paid.units) as usize {
        return Err(StopCause::Units);
    }
    if bill.cells > CELL_LIMIT - paid.cells {
        return Err(StopCause::Cells);
    }
    if bill.slots > SLOT_LIMIT - paid.slots {
        return Err(StopCause::Slots);
    }
    if bill.nodes > (MOST_NODES - nodes) as usize {
        return Err(StopCause::Nodes);
    }
    Ok(Due {
        units: paid.units + bill.units as u32,
        cells: paid.cells + bill.cells,
        slots: paid.slots + bill.slots,
        nodes: nodes + bill.nodes as u32,
    })
}

// How many nodes a widget may make.
const MOST_NODES: u32 = 16384;

// What a widget has paid.
fn so_far(store: &Store, page: &Page, w: WidgetId) -> Due
    ensures { (fs : List Forest) (x : Outside) (l : Loop) (b : Option Bool)
        → (image fs x w.index (beside store.now page.now l b)).own.counts ≡ amounts result }
{
    let paid = store.counts(Owner::Widget(w.index));
    Due {
        units: paid.units,
        cells: paid.cells,
        slots: paid.slots,
        nodes: made(page, w.index),
    }
}

// Whether these are the same.
fn is_due(a: Due, b: Due) -> bool
    ensures { result ≡ true → (a.units ≡ b.units) × (a.cells ≡ b.cells) × (a.slots ≡ b.slots) × (a.nodes ≡ b.nodes) }
{
    if a.units != b.units {
        return false;
    }
    if a.cells != b.cells {
        return false;
    }
    if a.slots != b.slots {
        return false;
    }
    a.nodes == b.nodes
}

/// What was made is what was judged. Where it is not, it is answered like want of memory.
pub fn settle(store: &Store, page: &Page, w: WidgetId, due: Due) -> Result<(), Memory>
    ensures { OnOk result ((fs : List Forest) (x : Outside) (l : Loop) (b : Option Bool)
        → (image fs x w.index (beside store.now page.now l b)).own.counts ≡ amounts due) }
{
    if is_due(so_far(store, page, w), due) {
        return Ok(());
    }
    Err(Memory)
}
