//! The codes of a widget by their numbers.
ghost use Rattle.std.specs.Prelude.{◌≡◌, ◌<◌, length, slice_index_or};
ghost use Rattle.js_tree.specs.Forest.{no_trees};
ghost use Rattle.js_tree.specs.Trees.{trees};
ghost use Rattle.js_names.specs.Code.{code_trees, trees_of};

use crate::code::Code;
use js_tree::Tree;

/// The tree of the code with a number.
pub fn tree_at(codes: &Vec<Code>, n: u32) -> &Tree
    requires { n < length (trees_of codes.now.items) }
    ensures { trees result.now ≡ slice_index_or (trees_of codes.now.items) n no_trees }
{
    codes[n as usize].tree()
}

/// The code with a number.
pub fn code_at(codes: &Vec<Code>, n: u32) -> &Code
    requires { n < length (trees_of codes.now.items) }
    ensures { code_trees result.now ≡ slice_index_or (trees_of codes.now.items) n no_trees }
{
    &codes[n as usize]
}
