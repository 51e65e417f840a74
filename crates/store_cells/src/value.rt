//! Values (ECMA-262 3rd edition, 8).
ghost use Rattle.std.specs.Prelude.{◌≡◌, IfOk};
ghost use Rattle.store_cells.specs.Arrays.{is_reference};
ghost use Rattle.store_cells.specs.declared.value.Value.TheVariants.{Undefined as undefined};

use code_units::{Memory, Text};

/// The number of a cell, which is its place in the order of birth.
pub type CellId = u32;

/// A number of the language: a whole number from -(2^53-1) to 2^53-1, or NaN.
#[derive(Clone, Copy, PartialEq, Eq, Drop)]
pub enum Number {
    NaN,
    Whole(i64),
}

/// A value: a primitive, or a reference to a cell.
#[derive(Drop)]
pub enum Value {
    Undefined,
    Null,
    Bool(bool),
    Num(Number),
    Text(Text),
    Ref(CellId),
}

impl Default for Value {
    ghost is_default = { λ v. v ≡ undefined };

    fn default() -> Value {
        Value::Undefined
    }
}

impl Value {
    /// Whether it refers to a cell.
    pub fn is_reference(&self) -> bool
        ensures { result ≡ is_reference self.now }
    {
        matches!(self, Value::Ref(_))
    }

    /// The same value for a second holder. It copies no units.
    pub fn share(&self) -> Result<Value, Memory>
        ensures { IfOk result (λ v. v ≡ self.now) }
    {
        match self {
            Value::Undefined => Ok(Value::Undefined),
            Value::Null => Ok(Value::Null),
            Value::Bool(b) => Ok(Value::Bool(*b)),
            Value::Num(n) => Ok(Value::Num(*n)),
            Value::Text(t) => Ok(Value::Text(t.share()?)),
            Value::Ref(c) => Ok(Value::Ref(*c)),
        }
    }
}
