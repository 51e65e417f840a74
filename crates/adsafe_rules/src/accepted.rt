//! A tree that breaks no rule.
ghost use Rattle.adsafe_rules.specs.Accepting.{IsJudged};

use crate::scope::Scope;
use code_units::Text;
use js_tree::{FunId, Tree};

/// A tree that breaks no rule at its position. `check` alone makes one.
#[derive(Drop)]
pub struct Accepted {
    pub(crate) tree: Tree,
    pub(crate) scope: Scope,
    pub(crate) fun: Option<FunId>,
    pub(crate) lib_name: Option<Text>,
    ghost judged: { ∥ IsJudged tree scope fun lib_name ∥₁ },
}

impl Accepted {
    ghost use Rattle.std.specs.Prelude.{◌≡◌, option_copied, IfSome};
    ghost use Rattle.js_tree.specs.Trees.{trees};
    ghost use Rattle.js_tree.specs.Forest.{IsFun};
    ghost use Rattle.adsafe_rules.specs.Accepts.{tree_of, scope_of, fun_of, lib_name_of, BreaksNone};

    /// The tree, which breaks no rule at its position.
    pub fn tree(&self) -> &Tree
        ensures same { result.now ≡ tree_of self.now }
        ensures judged { BreaksNone self.now }
    {
        &self.tree
    }

    /// The tree, for one who keeps it.
    pub fn into_tree(self) -> Tree
        ensures { result ≡ tree_of self }
    {
        self.tree
    }

    /// The position at which the tree breaks no rule, with the slot's name.
    pub fn scope(&self) -> &Scope
        ensures { result.now ≡ scope_of self.now }
    {
        &self.scope
    }

    /// The function that the text hands over; none for an `id` script.
    pub fn fun(&self) -> Option<FunId>
        ensures same { result ≡ fun_of self.now }
        ensures inside { IfSome result (IsFun (trees (tree_of self.now))) }
    {
        self.fun
    }

    /// The name of a library; none for a script.
    pub fn lib_name(&self) -> Option<&Text>
        ensures { option_copied result ≡ lib_name_of self.now }
    {
        self.lib_name.as_ref()
    }
}
