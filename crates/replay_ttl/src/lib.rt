//! The replay of a trace by a policy whose objects expire a time after they were last written.
//!
//! The rules are "Fresh hit", "Stale request" and "Policies" in docs/DEFINITIONS.md.
#![tactic(auto)]

mod aging;
mod counting;
mod replaying;

pub use replaying::{TtlReplay, TtlSettings, replay_with_ttl};
