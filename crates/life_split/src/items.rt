//! Items of a trace as a cut sees them, and lives.

/// An item: an event to a slot, an advance to all, or a swap of a slot's file.
#[derive(Clone, Copy, PartialEq, Eq)]
pub enum LifeItem {
    To(u32),
    All,
    Swap(u32),
}

/// A life of a slot: of the items at positions `from` up to and without `to`, counted from 0, those
/// that go to its slot; `until` is the position of the swap that ends it, counted from 1, and none
/// for the last life.
#[derive(Clone, Copy, PartialEq, Eq, Debug)]
pub struct Life {
    pub from: u32,
    pub to: u32,
    pub until: Option<u32>,
}
