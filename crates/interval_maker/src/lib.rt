//! Eligible intervals: two successive requests of one object that fits in the cache.
//!
//! The rule is "Eligible interval" in docs/DEFINITIONS.md. Everything above speaks of a trace by these alone.
#![tactic(auto)]

mod intervals;
mod making;

pub use cache_model::Interval;
pub use intervals::Intervals;
pub use making::make;
