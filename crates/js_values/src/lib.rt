//! Values: operators on primitives, and what steps and natives give.
#![tactic(auto)]

mod comparing;
mod laws;
mod meter;
mod operands;
mod operators;
mod outcome;
mod quotients;
mod sums;

pub use comparing::{compare, is_same};
pub use js_image::{Fault, StopCause};
pub use laws::{answers, primitives};
pub use meter::{Meter, OutOfFuel};
pub use operands::{is_true, number_of, to_number, to_text, type_name};
pub use operators::{binary, unary};
pub use outcome::{Compared, Keep, NativeOut, OpOut, Plan};
