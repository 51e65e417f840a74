//! Plain trees and their attributes.
use code_units::Text;

/// A text, or an element with its attributes and children in order. `at` is the byte at which it begins.
#[derive(Drop)]
pub enum Plain {
    Text {
        text: Text,
        at: usize,
    },
    Element {
        tag: Text,
        attrs: Vec<Attr>,
        children: Vec<Plain>,
        at: usize,
    },
}

/// An attribute. `at` is the first byte of its name, and `value_at` the first of its value, or `at`
/// where it stands without a value.
#[derive(Drop)]
pub struct Attr {
    pub name: Text,
    pub value: Text,
    pub at: usize,
    pub value_at: usize,
}
