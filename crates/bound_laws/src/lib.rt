//! What a bound says beyond its own capacity and rules: each law is the contract of a function that does nothing.
//!
//! The rules are those of docs/DEFINITIONS.md. One certificate bounds every smaller capacity, a bound of hits
//! bounds the fetches of every cache, prefetching included, and the greatest score exists, between the two bounds.
#![tactic(auto)]

mod capacity;
mod laws;

pub use capacity::upper_at;
pub use laws::{
    fetches_are_bounded, greatest_score_exists, greatest_score_is_within,
    smaller_capacities_are_bounded, valid_bounds_fetches, valid_bounds_smaller_capacities,
};
