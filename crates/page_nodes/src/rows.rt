//! The rows of the arena.
use code_units::{Owner, Text};

/// What a node is: an element with its tag and its attributes, each a name and a value, or a text.
#[derive(Drop)]
pub enum Content {
    Element(Text, Vec<(Text, Text)>),
    Text(Text),
}

/// A node. Its number is its place in the arena.
#[derive(Drop)]
pub struct Row {
    pub owner: Owner,
    pub parent: Option<u32>,
    pub children: Vec<u32>,
    pub content: Content,
}
