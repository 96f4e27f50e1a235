//! Prices that are refined: block by block they are made best against the prices outside, and their bound only falls.
//!
//! The rules are "Blocks of steps" and "Settled prices" in docs/DEFINITIONS.md.
#![tactic(auto)]

mod block;
mod gathering;
mod parts;
mod pricing;
mod refined;
mod refining;
mod round;
mod settling;
mod values;

pub use refined::Refined;
pub use refining::refine;
