//! How the requests of a trace count, as a report says it.
//!
//! The rules are "Counted requests" and "Lines of stale requests" in docs/DEFINITIONS.md.
#![tactic(auto)]

mod counting;

pub use counting::{counting_found, counting_from, counting_of, if_counted};
