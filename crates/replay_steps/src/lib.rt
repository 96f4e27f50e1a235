//! A replay that is told one request after another, and knows no more of the trace: for one of which nothing is in memory.
//!
//! The rules are "Stale request" and "Policies" in docs/DEFINITIONS.md.
#![tactic(auto)]

mod asked;
mod counting;
mod stepping;

pub use asked::Asked;
pub use stepping::{begin, step};
