//! Objects that expire or are replaced: which requests are stale, and what is proved of them. Each law is the contract of
//! a function that does nothing.
//!
//! The rules are "Clock" and "Stale request" in docs/DEFINITIONS.md.
#![tactic(auto)]

mod laws;

pub use laws::{laxer_bounds_stricter, laxer_scores_more, seen_tells_stale};
