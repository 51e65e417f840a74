//! Certificates as data.
use code_units::Text;

/// What each widget of a page can get at: a block for each slot, in order.
#[derive(Drop)]
pub struct Cert {
    pub blocks: Vec<Block>,
}

/// A slot of a page.
#[derive(Drop)]
pub enum Block {
    /// The slot was refused; its name.
    Refused(Text),
    /// The cells of the slot's widget, each by its place, and what the widget holds.
    Rows {
        name: Text,
        cells: Vec<CellRow>,
        held: Vec<Ref>,
    },
}

/// A cell: its kind, and what it leads to.
#[derive(Drop)]
pub struct CellRow {
    pub kind: RowKind,
    pub refs: Vec<Ref>,
}

/// The kind of a cell.
#[derive(Clone, Copy, PartialEq, Eq)]
pub enum RowKind {
    Object,
    Array,
    Function,
    Bunch,
}

/// What a reference leads to.
#[derive(Drop)]
pub enum Ref {
    /// A cell of the permitted table.
    Host,
    /// A node of the page itself.
    Raw,
    /// The Global cell.
    Global,
    /// The cell of this number of the widget of this name.
    Cell { name: Text, number: u32 },
}
