//! Which requests of a trace are stale: those of objects that expired since they were last asked for, or that were replaced.
//!
//! The rules are "Clock" and "Stale request" in docs/DEFINITIONS.md.
#![tactic(auto)]

mod fresh;
mod history;
mod id;
mod seen;
mod stale;

pub use fresh::Freshness;
pub use id::Id;
pub use seen::SeenObjects;
pub use stale::StaleRequests;
