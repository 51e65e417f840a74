//! The names of the scope of a call.
ghost use Rattle.std.specs.Prelude.{IfOk};
ghost use Rattle.js_tree.specs.Forest.{IsFun, fun_at};
ghost use Rattle.js_tree.specs.Trees.{trees};
ghost use Rattle.js_names.specs.Names.{AreNames};

use crate::gathering::{add_all, add_funs, each_once, last_places, unlisted, with_places};
use crate::hoisting::hoist;
use code_units::{Memory, Text};
use js_tree::{FunId, ScopeName, Tree};
use std::alloc::Global;

/// The names of the scope of a call of a function: parameters, `var` names and declared functions,
/// each once; and the function's own name, where it is none of these.
#[derive(Drop)]
pub struct FunNames {
    pub names: Vec<ScopeName>,
    pub own: Option<Text>,
}

/// Finds the names of a function of a tree, in one walk over its statements.
pub fn fun_names(alloc: Global, tree: &Tree, id: FunId) -> Result<FunNames, Memory>
    requires { IsFun (trees tree.now) id }
    ensures { IfOk result (AreNames (fun_at (trees tree.now) id)) }
{
    let node = tree.fun(id);
    let mut all = Vec::new(alloc);
    add_all(&mut all, &node.params)?;
    hoist(alloc, tree, &node.body, &mut all)?;
    add_funs(&mut all, tree, &node.funs)?;
    let each = each_once(alloc, &all)?;
    let places = last_places(alloc, &node.params)?;
    let names = with_places(alloc, &each, &places)?;
    let own = unlisted(&each, &node.name)?;
    Ok(FunNames { names, own })
}
