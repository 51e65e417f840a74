//! Forms that are carried out in place, and natives that need the store alone: frames are made only where
//! one is suspended.
//!
//! Each function is handed where its form stands (`Here`), what it may spend and what waits (`Run`), the
//! store, how many forms may still stand in it (`deep`), and the place of its value (`out`), which owns
//! nothing. It tells how the form ended (`Ended`); the value is at the place then. Where a part of a form is
//! suspended, the frame that waits for it is put behind what waits (`wait`): so the frames come out as the
//! other crates would have made them.
#![tactic(auto)]

mod arrays;
mod assigning;
mod blocks;
mod calls;
mod catching;
mod choosing;
mod entering;
mod forms;
mod gathering;
mod going;
mod leaves;
mod literals;
mod looping;
mod names;
mod natives;
mod objects;
mod operators;
mod properties;
mod run;
mod statements;
mod stepping;
mod summing;
mod targets;
mod wholes;
mod writing;

pub use going::{go, is_direct};
