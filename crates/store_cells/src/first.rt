//! The names of the scope of a call.

use crate::value::Value;
use code_units::Text;
use js_tree::ScopeName;

/// The names of the scope of a call (ECMA-262 3rd edition, 10.1.3 and 13), and what their first values are
/// among: the arguments, and the function under its own name, where that is one of them.
#[derive(Clone, Copy, Drop)]
pub struct FirstNames<'a> {
    pub names: &'a Vec<ScopeName>,
    pub own: &'a Option<Text>,
    pub func: &'a Value,
    pub args: &'a [Value],
}
