//! The bounds of a trace in memory with a time to live, with a certificate of them: one price, or none, and the keeps of a
//! schedule.
//!
//! The rules are "Bound with a time to live" and "Fresh hit" in docs/DEFINITIONS.md.
#![tactic(auto)]

mod asked;
mod bounds;
mod faults;
mod prices;
mod scales;
mod schedules;

pub use asked::TtlAsked;
pub use bounds::{TtlBounds, bounds_with_ttl};
pub use faults::TtlBoundsFault;
