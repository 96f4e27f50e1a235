//! Areas: a bound that one pass over a trace can sum up.
//!
//! The rules are those of docs/DEFINITIONS.md. A hit takes the size of its object for each step since the request
//! before, and a cache has its capacity at each step: hits are counted in the order of their areas until that is used
//! up. Objects may also enter with a delay, some requests after they were asked for.
#![tactic(auto)]

mod laws;

pub use laws::{
    areas_bound_every_policy, delays_allow_more, edge_in_bytes, edge_in_hits, edge_is_one_price,
    gains_bound_every_policy, groups_add_up,
};
