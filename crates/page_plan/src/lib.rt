//! What a page is made of when a host loads it: data that the judge of a page makes and a host takes.
#![tactic(auto)]

use adsafe_rules::Accepted;
use code_units::Text;
use plain_tree::Plain;

/// A piece of a page.
#[derive(Drop)]
pub enum Piece {
    /// Markup of the page itself.
    Html(Vec<Plain>),
    /// The place of the slot with this number.
    Slot(u32),
}

/// What stands in a slot.
#[derive(Drop)]
pub enum SlotContent {
    /// A widget: its root, the places of its libraries among those of the page in the order of its
    /// scripts, and its last script.
    Runs {
        body: Plain,
        libs: Vec<u32>,
        script: Accepted,
    },
    /// No widget, since a rule is broken.
    Refused,
}

/// A slot with the fuel of each of its turns.
#[derive(Drop)]
pub struct SlotSpec {
    pub name: Text,
    pub fuel: u32,
    pub content: SlotContent,
}

/// A page. Its libraries stand here once each; the slots share their trees and never their values.
#[derive(Drop)]
pub struct PageSpec {
    pub pieces: Vec<Piece>,
    pub libs: Vec<Accepted>,
    pub slots: Vec<SlotSpec>,
    /// The pairs of slots between which posts go, the sender first.
    pub channels: Vec<(u32, u32)>,
}
