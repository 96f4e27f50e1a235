//! One line of a webcache trace: a time, an id and a size, and a mark if one is asked for.
//!
//! The rule is "A line of a webcache trace" in docs/DEFINITIONS.md.
#![tactic(auto)]

mod clock;
mod line;
mod number;

pub use clock::time;
pub use line::{MarkedSpan, parse, parse_marked};
