//! Bounds on the best scores on a trace of any length, at many capacities, from one pass over its source.
//!
//! The rules are "The reading of a trace" and "Bounds of one pass" in docs/DEFINITIONS.md.
#![tactic(auto)]

mod fault;
mod points;
mod sweeping;
mod tally;
mod telling;

pub use fault::SweepFault;
pub use points::SweepPoint;
pub use sweeping::{Swept, sweep};
