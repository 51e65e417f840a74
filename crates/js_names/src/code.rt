//! A tree with the names of its functions.
ghost use Rattle.std.specs.Prelude.{◌≡◌, ◌+◌, IfOk, IfSome, length, is_some, nat_lt};
ghost use Rattle.std.specs.Option.{option_map_or};
ghost use Rattle.js_tree.specs.Forest.{IsFun, fun_at};
ghost use Rattle.js_tree.specs.Trees.{trees};
ghost use Rattle.js_names.specs.Found.{AreFound};
ghost use Rattle.js_names.specs.Names.{AreNames};

use crate::names::{FunNames, fun_names};
use code_units::Memory;
use js_tree::{FunId, Tree};
use std::alloc::Global;
use std::rc::Rc;

// What all holders of a code share.
#[derive(Drop)]
struct Shared {
    tree: Tree,
    // those of the first functions, by their numbers
    funs: Vec<FunNames>,
    ghost found: { AreFound (trees tree) funs.items },
}

/// A tree with the names of the scopes of its functions, which are found once. It may have several
/// holders: the tree and the names are held once.
#[derive(Drop)]
pub struct Code {
    shared: Rc<Shared>,
}

impl Code {
    ghost use Rattle.js_names.specs.Code.{code_trees, known, tree_in};

    /// Finds the names of the function that a text hands over, and of all functions inside it: these
    /// have smaller numbers.
    pub fn new(alloc: Global, tree: Tree, fun: Option<FunId>) -> Result<Code, Memory>
        requires { IfSome fun (IsFun (trees tree)) }
        ensures same { IfOk result (λ c. tree_in c ≡ tree) }
        ensures known { IfOk result (λ c. known c ≡ option_map_or (λ (f : FunId). f.0 + 1) fun 0) }
    {
        let funs = all_names(alloc, &tree, fun)?;
        Ok(Code {
            shared: Rc::new(alloc, Shared { tree, funs })?,
        })
    }

    /// The same code for a second holder, such as another widget that names the library.
    pub fn share(&self) -> Result<Code, Memory>
        ensures same { IfOk result (λ c. tree_in c ≡ tree_in self.now) }
        ensures known { IfOk result (λ c. known c ≡ known self.now) }
    {
        Ok(Code {
            shared: self.shared.clone()?,
        })
    }

    /// The tree.
    pub fn tree(&self) -> &Tree
        ensures { result.now ≡ tree_in self.now }
    {
        &self.shared.tree
    }

    /// The names of a function; none for one that stands in no function that is handed over.
    pub fn names(&self, id: FunId) -> Option<&FunNames>
        ensures names { IfSome result (λ n. AreNames (fun_at (code_trees self.now) id) n.now) }
        ensures known { is_some result ≡ nat_lt id.0 (known self.now) }
    {
        self.shared.funs.get(id.0 as usize)
    }
}

// The names of the functions up to one, if there is one.
fn all_names(alloc: Global, tree: &Tree, fun: Option<FunId>) -> Result<Vec<FunNames>, Memory>
    requires { IfSome fun (IsFun (trees tree.now)) }
    ensures found { IfOk result (λ v. AreFound (trees tree.now) v.items) }
    ensures all { IfOk result (λ v. length v.items ≡ option_map_or (λ (f : FunId). f.0 + 1) fun 0) }
{
    match fun {
        Some(last) => names_to(alloc, tree, last),
        None => Ok(Vec::new(alloc)),
    }
}

// The names of the functions up to one.
fn names_to(alloc: Global, tree: &Tree, last: FunId) -> Result<Vec<FunNames>, Memory>
    requires { IsFun (trees tree.now) last }
    ensures found { IfOk result (λ v. AreFound (trees tree.now) v.items) }
    ensures all { IfOk result (λ v. length v.items ≡ last.0 + 1) }
{
    let mut funs = Vec::new(alloc);
    'funs: for n in 0..last.0 {
        funs.push(fun_names(alloc, tree, FunId(n))?)?;
    }
    funs.push(fun_names(alloc, tree, last)?)?;
    Ok(funs)
}
