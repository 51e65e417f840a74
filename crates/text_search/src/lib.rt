//! Texts in texts, in a time linear in both (Knuth, Morris and Pratt, "Fast pattern matching in
//! strings", 1977).
#![tactic(auto)]

mod borders;
mod finding;
mod needle;

pub use needle::Needle;
