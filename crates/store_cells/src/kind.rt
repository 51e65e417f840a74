//! What a cell is.
ghost use Rattle.std.specs.Prelude.{◌≡◌};
ghost use Rattle.store_cells.specs.Cells.{kind_of, is_scope, is_array, is_bunch, is_visible_form, function_in, native_in, node_in};

use crate::value::CellId;
use js_tree::FunId;
use permitted_table::NativeId;

/// The kind of a cell.
#[derive(Clone, Copy, PartialEq, Eq, Drop)]
pub enum CellKind {
    Object,
    Array,
    Function,
    Native,
    Scope,
    Bunch,
    RawNode,
    Global,
}

/// The parts of a function: the number of its tree, its function there, whether a declaration
/// made it, and the scope in which it was made, none for the outermost function.
#[derive(Clone, Copy, PartialEq, Eq, Drop)]
pub struct FunParts {
    pub code: u32,
    pub fun: FunId,
    pub declared: bool,
    pub scope: Option<CellId>,
}

/// The kind of a cell with what it never changes: a function's parts, a native, a page node.
#[derive(Clone, Copy, PartialEq, Eq, Drop)]
pub enum Form {
    Object,
    Array,
    Function(FunParts),
    Native(NativeId),
    Scope,
    Bunch,
    RawNode(u32),
    Global,
}

impl Form {
    /// Its kind.
    pub fn kind(self) -> CellKind
        ensures { result ≡ kind_of self }
    {
        match self {
            Form::Object => CellKind::Object,
            Form::Array => CellKind::Array,
            Form::Function(_) => CellKind::Function,
            Form::Native(_) => CellKind::Native,
            Form::Scope => CellKind::Scope,
            Form::Bunch => CellKind::Bunch,
            Form::RawNode(_) => CellKind::RawNode,
            Form::Global => CellKind::Global,
        }
    }

    pub fn is_scope(self) -> bool
        ensures { result ≡ is_scope self }
    {
        matches!(self, Form::Scope)
    }

    pub fn is_array(self) -> bool
        ensures { result ≡ is_array self }
    {
        matches!(self, Form::Array)
    }

    pub fn is_visible(self) -> bool
        ensures { result ≡ is_visible_form self }
    {
        matches!(
            self,
            Form::Object | Form::Array | Form::Function(_) | Form::Bunch
        )
    }

    /// The parts of a function.
    pub fn function(self) -> Option<FunParts>
        ensures { result ≡ function_in self }
    {
        match self {
            Form::Function(parts) => Some(parts),
            _ => None,
        }
    }

    /// The native.
    pub fn native(self) -> Option<NativeId>
        ensures { result ≡ native_in self }
    {
        match self {
            Form::Native(native) => Some(native),
            _ => None,
        }
    }

    /// The page node.
    pub fn node(self) -> Option<u32>
        ensures { result ≡ node_in self }
    {
        match self {
            Form::RawNode(node) => Some(node),
            _ => None,
        }
    }

    pub fn is_bunch(self) -> bool
        ensures { result ≡ is_bunch self }
    {
        matches!(self, Form::Bunch)
    }
}
