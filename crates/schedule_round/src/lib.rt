//! Schedules made whole: which requests are kept, once whole intervals are taken.
//!
//! The rule is "Rounded keeps" in docs/DEFINITIONS.md. Flagged intervals are taken, and then each other one that still
//! fits, in order of size times steps covered over gain.
#![tactic(auto)]

mod keeps;
mod laws;
mod order;
mod rounding;
mod schedule;

pub use keeps::Keeps;
pub use laws::{equal_sizes_are_whole, equal_sizes_meet_the_bound, full_flags_fit};
pub use rounding::round;
