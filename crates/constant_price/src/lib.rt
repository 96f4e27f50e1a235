//! The one price on all steps that makes the bound least, and the bound that it gives.
//!
//! The rule is "Least constant price" in docs/DEFINITIONS.md.
#![tactic(auto)]

mod bound;
mod near;
mod search;
mod tangents;

pub use bound::bound_at;
pub use search::{least, least_from};
