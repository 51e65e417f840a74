//! The printed text of plain trees and of the page's nodes.
#![tactic(auto)]

mod escape;
mod markup;
mod style;

pub use markup::{print, print_plain};
