//! Policies that are replayed side by side, each at its own capacity, over requests that come one after another.
//!
//! The requests are kept in batches, and each policy goes through a batch at once, so that what it keeps stays near the
//! processor meanwhile.
#![tactic(auto)]

mod fault;
mod replays;
mod running;

pub use fault::ReplayFault;
pub use replays::PolicyReplays;
pub use running::PolicyReplay;
