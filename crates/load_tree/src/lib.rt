//! The load of each step: how many bytes the schedule holds there.
//!
//! Rounding asks `SmallLoads`, of loads below 2^64, whether an interval still fits at every step that it covers. `Loads` is
//! for callers with greater loads, and tells maxima too.
#![tactic(auto)]

mod levels;
mod loads;
mod raising;
mod settling;
mod small_loads;
mod tree;

pub use loads::Loads;
pub use small_loads::SmallLoads;
