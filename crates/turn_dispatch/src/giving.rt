//! How a turn goes on when a call has ended.
ghost use Rattle.std.specs.Prelude.{◌≡◌, ℕ, ◌+◌, ◌≤◌, IfOk, List};
ghost use Rattle.js_tree.specs.Forest.{Forest};
ghost use Rattle.store_cells.specs.Cells.{Cells};
ghost use Rattle.widget_meaning.specs.Dispatch.{is_bubbled, without_dispatch};
ghost use Rattle.event_loop.specs.declared.around.Loop.{Loop as LoopOf};
ghost use Rattle.page_tree.specs.declared.page.Page.{Page as PageOf};
ghost use Rattle.js_flow.specs.Views.{completion_of};
ghost use Rattle.native_image.specs.Image.{Outside};
ghost use Rattle.native_image.specs.Sound.{IsSound, KeepsStore};
ghost use Rattle.js_steps.specs.Ending.{FineEnd};
ghost use Rattle.turn_dispatch.specs.Held.{FineDoing, FineHearing};
ghost use Rattle.turn_dispatch.specs.Levels.{levels_rest, turn_plan};
ghost use Rattle.turn_dispatch.specs.declared.level.Level.TheVariants as level;
ghost use Rattle.turn_dispatch.specs.Took.{IsTaken, StaysSound};
ghost use Rattle.turn_dispatch.specs.Turns.{turn_image};
ghost use Rattle.turn_dispatch.specs.Waiting.{FineFiring, FineLevel, FineLevels};
ghost use Rattle.turn_dispatch.specs.Weights.{doing_free, is_value, levels_free};

use crate::calls::{Calls, Took};
use crate::level::{Doing, Firing, Hearing, Level};
use crate::site::Site;
use crate::taking::{call_handler, end_dispatch, fire, keeps, waits};
use code_units::Memory;
use js_flow::Completion;
use object_store::Store;
use std::alloc::Global;

// Whether a call gave a value.
fn is_value(how: &Completion) -> bool
    ensures { result ≡ is_value how.now }
{
    matches!(how, Completion::Is(_))
}

// An event is fired at the next node, or the value that comes after all of them is given.
#[tactic(auto, using(crate::proofs::Kept::sound_same))]
fn take_fires(
    alloc: Global,
    store: &mut Store,
    site: &Site,
    calls: &mut Calls,
    at: (Box<Firing>, usize),
    how: Completion,
) -> Result<Took, Memory>
    requires sound { IsSound site.now.id.index store.old site.now.page.now site.now.around.now }
    requires firing { FineFiring site.now.id.index store.old.cells site.now.page.now at.0.value }
    requires how { FineEnd site.now.id.index store.old.cells how }
    ensures taken { IfOk result
        (IsTaken site.now.id.index site.now.page.now site.now.around.now store.old store.new calls.old calls.new
        (level.Fires at.0 at.1) how) }
    ensures kept { StaysSound site.now.id.index site.now.page.now store.old store.new }
{
    let (firing, next) = at;
    if !is_value(&how) {
        return Ok(Took::Gives(how));
    }
    if next >= firing.nodes.len() {
        return Ok(Took::Gives(Completion::Is(firing.last.share()?)));
    }
    let took = fire(alloc, store, site, &firing, next)?;
    calls.levels.push(Level::Fires(firing, next + 1))?;
    Ok(took)
}

// The innermost dispatch is over: whether `bubble` was called in it.
fn close(dispatches: &mut Vec<bool>) -> bool
    ensures { (fs : List Forest) (x : Outside) (w : ℕ) (s : Cells) (p : PageOf) (l : LoopOf)
        → (without_dispatch (turn_image fs x w s p l dispatches.old.items)
        ≡ turn_image fs x w s p l dispatches.new.items)
        × (is_bubbled (turn_image fs x w s p l dispatches.old.items) ≡ result) }
{
    match dispatches.pop() {
        Some(bubbled) => bubbled,
        None => false,
    }
}

// The next handler of a dispatch is called, or the dispatch is over.
#[tactic(auto, using(crate::proofs::Kept::sound_same))]
fn take_hears(
    alloc: Global,
    store: &mut Store,
    site: &Site,
    calls: &mut Calls,
    at: (Box<Hearing>, usize),
    how: Completion,
) -> Result<Took, Memory>
    requires sound { IsSound site.now.id.index store.old site.now.page.now site.now.around.now }
    requires hearing { FineHearing site.now.id.index store.old.cells site.now.page.now at.0.value }
    requires how { FineEnd site.now.id.index store.old.cells how }
    ensures taken { IfOk result
        (IsTaken site.now.id.index site.now.page.now site.now.around.now store.old store.new calls.old calls.new
        (level.Hears at.0 at.1) how) }
    ensures kept { StaysSound site.now.id.index site.now.page.now store.old store.new }
{
    let (hearing, next) = at;
    if !is_value(&how) {
        close(&mut calls.dispatches);
        return Ok(Took::Gives(how));
    }
    if next < hearing.handlers.len() {
        let task = call_handler(alloc, site.id, &hearing, next)?;
        calls.levels.push(Level::Hears(hearing, next + 1))?;
        return Ok(Took::Runs(task));
    }
    let bubbled = close(&mut calls.dispatches);
    end_dispatch(alloc, store, site, hearing, bubbled)
}

// What waits innermost goes on with how a call ended.
#[tactic(auto, using(crate::proofs::Kept::sound_same))]
fn take(
    alloc: Global,
    store: &mut Store,
    site: &Site,
    calls: &mut Calls,
    level: Level,
    how: Completion,
) -> Result<Took, Memory>
    requires sound { IsSound site.now.id.index store.old site.now.page.now site.now.around.now }
    requires level { (fs : List Forest) × FineLevel fs site.now.id.index store.old.cells site.now.page.now level }
    requires how { FineEnd site.now.id.index store.old.cells how }
    ensures taken { IfOk result
        (IsTaken site.now.id.index site.now.page.now site.now.around.now store.old store.new calls.old calls.new level
        how) }
    ensures kept { StaysSound site.now.id.index site.now.page.now store.old store.new }
{
    match level {
        Level::Keeps(lib, name) => keeps(alloc, store, site.id, lib, &name, how),
        Level::Waits(task) => Ok(waits(task, how)),
        Level::Fires(firing, next) => take_fires(alloc, store, site, calls, (firing, next), how),
        Level::Hears(hearing, next) => take_hears(alloc, store, site, calls, (hearing, next), how),
    }
}

/// What waits goes on with how a call ended, until a task takes steps, a handler is called, or the
/// turn is over. It takes no fuel.
pub fn give(
    alloc: Global,
    store: &mut Store,
    site: &Site,
    calls: &mut Calls,
    how: Completion,
) -> Result<Doing, Memory>
    requires sound { IsSound site.now.id.index store.old site.now.page.now site.now.around.now }
    requires levels { (fs : List Forest)
        × FineLevels fs site.now.id.index store.old.cells site.now.page.now calls.old.levels.items }
    requires how { FineEnd site.now.id.index store.old.cells how }
    ensures plan { let w = site.now.id.index in let p = site.now.page.now in let l = site.now.around.now in
        IfOk result (λ d. (fs : List Forest) (x : Outside) → FineLevels fs w store.old.cells p calls.old.levels.items
        → levels_rest fs w store.old.cells p calls.old.levels.items (completion_of w store.old.cells how)
        (turn_image fs x w store.old p l calls.old.dispatches.items)
        ≡ turn_plan fs w store.new.cells p d calls.new.levels.items
        (turn_image fs x w store.new p l calls.new.dispatches.items)) }
    ensures fine { let w = site.now.id.index in let p = site.now.page.now in
        IfOk result (λ d. (fs : List Forest) → FineLevels fs w store.old.cells p calls.old.levels.items
        → FineDoing fs w store.new p d × FineLevels fs w store.new.cells p calls.new.levels.items) }
    ensures near { IfOk result
        (λ d. doing_free d + levels_free calls.new.levels.items ≤ levels_free calls.old.levels.items + 1) }
    ensures sound { (l : LoopOf) → IsSound site.now.id.index store.old site.now.page.now l
        → IsSound site.now.id.index store.new site.now.page.now l }
    ensures kept { KeepsStore site.now.id.index store.old store.new }
{
    let mut how = how;
    'levels: while let Some(level) = calls.levels.pop() {
        match take(alloc, store, site, calls, level, how)? {
            Took::Gives(next) => how = next,
            Took::Stops(cause) => return Ok(Doing::Stop(cause)),
            Took::Runs(task) => return Ok(Doing::Runs(task)),
            Took::Hears(hearing) => {
                calls.dispatches.push(false)?;
                return Ok(Doing::Hears(hearing));
            }
        }
    }
    Ok(Doing::Over(how))
}
