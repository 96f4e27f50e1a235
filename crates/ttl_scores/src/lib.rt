//! What a schedule scores and writes with a time to live.
//!
//! The rule is "Fresh hit" in docs/DEFINITIONS.md. A hit renews nothing, so of each object the clock at its last write is
//! kept, in one pass over the requests.
#![tactic(auto)]

mod laws;
mod totals;

pub use laws::{long_ttls_lose_no_hit, long_ttls_write_no_more};
pub use totals::{FreshTotals, fresh_totals};
