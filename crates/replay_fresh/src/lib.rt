//! The replay of a trace whose objects leave the cache before they are asked for again: those that are stale, and earlier
//! versions of the object that is asked for.
//!
//! The rules are "Stale request" and "Policies" in docs/DEFINITIONS.md.
#![tactic(auto)]

mod laws;
mod leaving;
mod replacing;
mod replaying;

pub use laws::nothing_leaves;
pub use leaving::{let_go_of, let_leave};
pub use replacing::replaced_by;
pub use replaying::{replay_fresh, unless_stale};
