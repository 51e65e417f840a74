//! A turn of a widget, step by step, up to the units of a pick and through all that costs nothing behind them.
#![tactic(auto)]

mod carrying;
mod moving;
mod running;
mod turn;

pub use running::run_turn;
pub use turn::{Ran, TurnEnd};
