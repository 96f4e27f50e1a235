//! Which requests of a trace a policy answers as hits.
//!
//! The rule is "Hits of a replay" in docs/DEFINITIONS.md. Whatever policy is replayed, some contents that are allowed hit
//! just there.
#![tactic(auto)]

mod freshly;
mod recording;

pub use freshly::fresh_hits;
pub use recording::replay_hits;
