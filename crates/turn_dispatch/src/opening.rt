//! How the turns of a script and of a timer begin.
ghost use Rattle.std.specs.Prelude.{◌≡◌, List, IfOk, None};
ghost use Rattle.js_tree.specs.Forest.{Forest, fun_at};
ghost use Rattle.store_cells.specs.Cells.{Cells};
ghost use Rattle.widget_meaning.specs.Alone.{call_script};
ghost use Rattle.widget_meaning.specs.Plan as plan;
ghost use Rattle.widget_meaning.specs.Plan.{Do, Ret};
ghost use Rattle.page_tree.specs.declared.page.Page.{Page};
ghost use Rattle.js_image.specs.Held.{AreFine, IsHeld, Kept};
ghost use Rattle.js_image.specs.Image.{Rest, all_seen, image, seen};
ghost use Rattle.js_flow.specs.Parts.{forest_at};
ghost use Rattle.js_steps.specs.Answered.{remaining};
ghost use Rattle.turn_dispatch.specs.Held.{FineDoing, FineTask, IsScriptOf};
ghost use Rattle.turn_dispatch.specs.declared.level.Level.{Level};
ghost use Rattle.turn_dispatch.specs.Levels.{levels_rest, turn_plan};

use crate::level::Doing;
use code_units::Memory;
use js_image::{Made, make};
use js_steps::{Task, begin};
use js_tree::FunId;
use native_image::WidgetId;
use object_store::{CellId, NewCell, Store, Value};
use std::alloc::Global;

/// The outermost function of a script is made and called with these, over what waits for its end; or the
/// widget stops.
pub fn open_script(
    alloc: Global,
    store: &mut Store,
    w: WidgetId,
    code: u32,
    fun: FunId,
    args: &[Value],
) -> Result<Doing, Memory>
    requires args { AreFine w.index store.old.cells args.now }
    requires script { (fs : List Forest) × IsScriptOf fs code fun }
    ensures plan { IfOk result (λ d. (fs : List Forest) (p : Page) (r : Rest) (levels : List Level)
        → call_script (fun_at (forest_at fs code) fun) (all_seen w.index store.old.cells args.now) (image fs r w.index store.old)
        (levels_rest fs w.index store.new.cells p levels)
        ≡ turn_plan fs w.index store.new.cells p d levels (image fs r w.index store.new)) }
    ensures fine { IfOk result (λ d. (fs : List Forest) (p : Page) → FineDoing fs w.index store.new p d) }
    ensures kept { (fs : List Forest) → IsScriptOf fs code fun → Kept fs w.index store.old store.new }
{
    let cell = NewCell::Function {
        code,
        fun,
        declared: false,
        scope: None,
    };
    match make(alloc, store, w.index, cell)? {
        Made::Cell(func) => Ok(Doing::Runs(call_function(alloc, w, func, args)?)),
        Made::Stop(cause) => Ok(Doing::Stop(cause)),
    }
}

// The call of a function by the host.
fn call_function(
    alloc: Global,
    w: WidgetId,
    func: CellId,
    args: &[Value],
) -> Result<Box<Task>, Memory>
    ensures plan { IfOk result (λ t. (fs : List Forest) (s : Cells) (r : Rest)
        → remaining fs w.index s t.value r
        ≡ Do (plan.Call (seen w.index s.cells (Value.Ref func)) None (all_seen w.index s.cells args.now) 0)
        (image fs r w.index s) Ret) }
    ensures fine { IfOk result (λ t. (fs : List Forest) (s : Cells) (p : Page)
        → IsHeld w.index s.cells func → AreFine w.index s.cells args.now → FineTask fs w.index s p t.value) }
{
    let task = begin(alloc, w.index, func, args, 0)?;
    Ok(Box::new(alloc, task)?)
}
