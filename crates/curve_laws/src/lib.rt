//! What holds of the curve of every trace: each law is the contract of a function that does nothing.
//!
//! The rules are those of docs/DEFINITIONS.md. The hits at each number of slots are those of `stack_curve`.
#![tactic(auto)]

mod laws;

pub use laws::{curve_is_steady, hits_stay_between_lines};
