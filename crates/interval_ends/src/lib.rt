//! The eligible interval that ends at each request: one, or none.
//!
//! An eligible interval ends where a hit may be. So a sum over all of them can be taken request by request, and what hits
//! gain is within it.
#![tactic(auto)]

mod laws;

pub use laws::{next_ends_alone, sums_by_ends};
