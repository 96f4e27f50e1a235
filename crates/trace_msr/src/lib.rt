//! One line of an MSR trace: a host, a disk and a range of bytes.
//!
//! The rule is "A line of an MSR trace" in docs/DEFINITIONS.md.
#![tactic(auto)]

mod blocks;
mod clock;
mod line;
mod used;

pub use clock::time;
pub use line::{MsrLine, parse};
