//! One line of an ARC trace: a starting block and a number of blocks.
//!
//! The rule is "A line of an ARC trace" in docs/DEFINITIONS.md.
#![tactic(auto)]

mod line;

pub use line::parse;
