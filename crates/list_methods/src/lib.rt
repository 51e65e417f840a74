//! The natives of arrays (docs/LANGUAGE.md, "Natives"), each as the meaning of scripts has it.
#![tactic(auto)]

mod array;
mod calling;
mod changing;
mod copying;
mod ends;
mod filling;
mod joining;
mod over;
mod sorting;
mod splicing;
mod turning;

pub use calling::call;
