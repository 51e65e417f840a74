//! Function expressions.
ghost use Rattle.std.specs.Prelude.{◌<◌, IfOk};
ghost use Rattle.js_tree.specs.Forest.{IsFun, fun_at};
ghost use Rattle.js_tree.specs.Plain as node;
ghost use Rattle.widget_meaning.specs.Expressions as expressions;
ghost use Rattle.js_image.specs.Held.{Kept};
ghost use Rattle.js_names.specs.Code.{trees_of};
ghost use Rattle.js_flow.specs.Fine.{IsPlace};
ghost use Rattle.js_flow.specs.Parts.{forest_at};
ghost use Rattle.js_flow.specs.Views.{place_of};
ghost use Rattle.js_direct.specs.Comes.{Comes, IsReady};

use crate::run::{Ended, Here, Run, stop};
use code_units::Memory;
use js_image::{Made, make};
use js_tree::FunId;
use object_store::{NewCell, Store, Value};

/// A function expression.
#[inline(never)]
pub(crate) fn function_on(
    here: &Here,
    run: &mut Run,
    store: &mut Store,
    fun: FunId,
    out: &mut Value,
) -> Result<Ended, Memory>
    requires ready { IsReady (trees_of here.now.site.now.codes.now.items) here.now.site.now.widget store.old run.old }
    requires held { IsPlace (trees_of here.now.site.now.codes.now.items) here.now.site.now.widget store.old.cells
        here.now.at
        × IsFun (forest_at (trees_of here.now.site.now.codes.now.items) here.now.at.code) fun }
    ensures comes { let F = trees_of here.now.site.now.codes.now.items in let w = here.now.site.now.widget in
        IfOk result (λ how. Comes F w store.old store.new 30
        (expressions.expression (node.Function (fun_at (forest_at F here.now.at.code) fun))
        (place_of w store.old.cells here.now.at))
        run.old run.new how out.new) }
    ensures kept { Kept (trees_of here.now.site.now.codes.now.items) here.now.site.now.widget store.old store.new }
{
    let cell = NewCell::Function {
        code: here.at.code,
        fun,
        declared: false,
        scope: here.at.scope,
    };
    match make(here.site.alloc, store, here.site.widget, cell)? {
        Made::Cell(id) => {
            *out = Value::Ref(id);
            Ok(Ended::Is)
        }
        Made::Stop(cause) => stop(run, cause),
    }
}
