//! Each work as it leaves the queue: a load turn, an advance, what is left of one.
ghost use Rattle.std.specs.Prelude.{◌≡◌, ◌+◌, ◌<◌, ◌^◌, [], List, None, OnErr, OnOk, Some, IfOk};
ghost use Rattle.js_tree.specs.Forest.{Forest};
ghost use Rattle.store_cells.specs.Cells.{Cells};
ghost use Rattle.widget_meaning.specs.Plan as plan;
ghost use Rattle.widget_meaning.specs.Plan.{Do, Ret};
ghost use Rattle.turn_dispatch.specs.Answered.{remaining};
ghost use Rattle.turn_dispatch.specs.Held.{FineTask};
ghost use Rattle.life_laws.specs.Life.{potential};
ghost use Rattle.page_tree.specs.declared.page.Page.{Page as PageOf};
ghost use Rattle.js_image.specs.Held.{IsHeld};
ghost use Rattle.js_image.specs.Image.{Rest, image, seen};
ghost use Rattle.js_image.specs.Laws.{AreLawful};
ghost use Rattle.life_queue.specs.Lives.{trees_in, work_of};
ghost use Rattle.life_queue.specs.Fine.{FineLife, FineWork, KeepsLife, tally};
ghost use Rattle.life_queue.specs.Taken.{Takes};
ghost use Rattle.life_queue.specs.declared.life.Work.TheVariants as work;

use crate::begins::begin;
use crate::life::{Life, Script, Work};
use code_units::Memory;
use native_image::{Shared, WidgetId};
use object_store::{CellId, HostEntry, Store, Value};
use std::alloc::Global;
use turn_dispatch::{Calls, Doing, Level, Task, open_script};

// The laws of the store, together.
fn lawful(store: &Store)
    ensures { AreLawful store.now.cells }
{
    store.links_are_older();
    store.permitted_leads_on();
    store.host_stays();
    store.arrays_have_length();
    store.cells_have_prototypes();
}

/// The load turn of a library begins; a life that has stopped drops it.
pub(crate) fn take_library(
    alloc: Global,
    shared: &mut Shared,
    id: WidgetId,
    life: &mut Life,
    script: &Script,
) -> Result<(), Memory>
    requires rests { life.old.turn ≡ None }
    requires fine { FineLife shared.old id.index life.old }
    requires script { FineWork (trees_in shared.old) (work.Library script.now) }
    requires room { tally shared.old id.index life.old + 1 < 2 ^ 32 }
    ensures taken { OnOk result (Takes shared.old shared.new id.index (work.Library script.now) life.old life.new) }
    ensures kept { KeepsLife id.index shared.old shared.new life.old life.new }
    ensures none { OnErr result (life.new.turn ≡ None) }
{
    if life.records.stop.is_some() {
        return Ok(());
    }
    let args = [Value::Ref(life.lib)];
    let mut levels = Vec::new(alloc);
    levels.push(Level::Keeps(life.lib, script.name.share()?))?;
    let doing = open_script(alloc, &mut shared.store, id, script.code, script.fun, &args)?;
    begin(
        life,
        doing,
        Calls {
            levels,
            dispatches: Vec::new(alloc),
        },
    );
    Ok(())
}

/// The turn of the `go` function begins; a life that has stopped drops it.
pub(crate) fn take_go(
    alloc: Global,
    shared: &mut Shared,
    id: WidgetId,
    life: &mut Life,
    script: &Script,
) -> Result<(), Memory>
    requires rests { life.old.turn ≡ None }
    requires fine { FineLife shared.old id.index life.old }
    requires script { FineWork (trees_in shared.old) (work.Go script.now) }
    requires room { tally shared.old id.index life.old + 1 < 2 ^ 32 }
    ensures taken { OnOk result (Takes shared.old shared.new id.index (work.Go script.now) life.old life.new) }
    ensures kept { KeepsLife id.index shared.old shared.new life.old life.new }
    ensures none { OnErr result (life.new.turn ≡ None) }
{
    if life.records.stop.is_some() {
        return Ok(());
    }
    lawful(&shared.store);
    let args = [
        Value::Ref(shared.store.host(HostEntry::Dom)),
        Value::Ref(life.lib),
    ];
    let doing = open_script(alloc, &mut shared.store, id, script.code, script.fun, &args)?;
    begin(
        life,
        doing,
        Calls {
            levels: Vec::new(alloc),
            dispatches: Vec::new(alloc),
        },
    );
    Ok(())
}

// The call of the function of a timer.
fn call(alloc: Global, w: u32, func: CellId) -> Result<Box<Task>, Memory>
    ensures plan { IfOk result (λ t. (fs : List Forest) (s : Cells) (r : Rest)
        → remaining fs w s t.value r
        ≡ Do (plan.Call (seen w s.cells (Value.Ref func)) None [] 0) (image fs r w s) Ret) }
    ensures fine { IfOk result (λ t. (fs : List Forest) (s : Cells) (p : PageOf) → IsHeld w s.cells func
        → FineTask fs w s p t.value) }
{
    let task = turn_dispatch::begin(alloc, w, func, &[], 0)?;
    Ok(Box::new(alloc, task)?)
}

/// What is left of an advance: the next timer that is due begins a turn, or the clock comes to the limit.
/// A life that has stopped does nothing.
pub(crate) fn take_until(
    alloc: Global,
    shared: &Shared,
    id: WidgetId,
    life: &mut Life,
    left: (u64, u64),
) -> Result<(), Memory>
    requires rests { life.old.turn ≡ None }
    requires fine { FineLife shared.now id.index life.old }
    requires room { tally shared.now id.index life.old + (left.0 + 1) < 2 ^ 32 }
    ensures taken { OnOk result (Takes shared.now shared.now id.index (work.Until left.0 left.1) life.old life.new) }
    ensures kept { KeepsLife id.index shared.now shared.now life.old life.new }
    ensures none { OnErr result (life.new.turn ≡ None) }
{
    let (turns, limit) = left;
    // An advance has more turns than timers can fall due in it.
    if turns == 0 {
        return Err(Memory);
    }
    if life.records.stop.is_some() {
        return Ok(());
    }
    match life.widget.around.due(limit) {
        None => Ok(()),
        Some(timer) => {
            let task = call(alloc, id.index, timer.func)?;
            life.queue.push_front(Work::Until(turns - 1, limit))?;
            begin(
                life,
                Doing::Runs(task),
                Calls {
                    levels: Vec::new(alloc),
                    dispatches: Vec::new(alloc),
                },
            );
            Ok(())
        }
    }
}

/// An advance becomes the turns that it may begin. A life that has stopped does nothing.
pub(crate) fn take_advance(
    alloc: Global,
    shared: &Shared,
    id: WidgetId,
    life: &mut Life,
    ms: u32,
) -> Result<(), Memory>
    requires rests { life.old.turn ≡ None }
    requires fine { FineLife shared.now id.index life.old }
    requires room { tally shared.now id.index life.old
        + potential (work_of (trees_in shared.now) (work.Advance ms)) < 2 ^ 32 }
    ensures taken { OnOk result (Takes shared.now shared.now id.index (work.Advance ms) life.old life.new) }
    ensures kept { KeepsLife id.index shared.now shared.now life.old life.new }
    ensures none { OnErr result (life.new.turn ≡ None) }
{
    if life.records.stop.is_some() {
        return Ok(());
    }
    let clock = life.widget.around.clock();
    if clock > u64::MAX - ms as u64 {
        return Err(Memory);
    }
    let turns = 64 * (ms as u64 / 10 + 2);
    take_until(alloc, shared, id, life, (turns, clock + ms as u64))
}
