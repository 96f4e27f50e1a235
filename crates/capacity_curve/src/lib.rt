//! What is known at each of many capacities, from one reading of a trace: LRU's hits, and the bound of one price.
//!
//! The rule is "Curve over capacities" in docs/DEFINITIONS.md.
#![tactic(auto)]

mod bounds;
mod making;
mod points;

pub use making::points_at;
pub use points::{CurveTerms, Point};
