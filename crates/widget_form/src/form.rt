//! The form of a widget file, and why a file has none.
use code_units::{Memory, Text};
use plain_tree::Plain;

/// Where the text of a script stands in its file, as byte offsets.
#[derive(Clone, Copy, PartialEq, Eq, Drop)]
pub struct Span {
    pub from: usize,
    pub to: usize,
}

/// A widget file in its parts.
#[derive(Drop)]
pub struct Form {
    /// The slot's name.
    pub name: Text,
    /// The root with the children before its first script.
    pub body: Plain,
    /// The script that comes before the libraries, if there is one.
    pub id_script: Option<Span>,
    /// The files of the libraries, in order.
    pub libs: Vec<Text>,
    /// The last script.
    pub script: Span,
}

/// Why a file has no form.
#[derive(Clone, Copy, PartialEq, Eq, Drop)]
pub enum FormFault {
    /// The first broken rule, from 2 to 12, and the byte offset at which it is.
    BadForm { rule: u8, at: usize },
    /// There was no memory to judge it.
    Memory,
}

impl From<Memory> for FormFault {
    ghost use Rattle.std.specs.Prelude.{◌≡◌};
    ghost use Rattle.widget_form.specs.declared.form.FormFault.TheVariants as fault;

    ghost from_gives = { λ _ e. e ≡ fault.Memory };

    fn from(_: Memory) -> FormFault {
        FormFault::Memory
    }
}
