//! A proved use of each part of the library: a trace is read, bounded and checked, and a policy of one's own is replayed.
//!
//! docs/CALLING.md goes through them.
#![tactic(auto)]

mod bounding;
mod checking;
mod policies;
mod reading;

pub use bounding::most_hits;
pub use checking::checked;
pub use policies::{Small, hits_of_small};
pub use reading::trace_in;
