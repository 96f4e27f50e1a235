//! What is proved of a trace that is cut into parts: each law is the contract of a function that does nothing.
//!
//! The rules are those of docs/DEFINITIONS.md. A trace of any length is bounded by bounds of its parts.
#![tactic(auto)]

mod laws;
mod warmup;

pub use laws::{
    bounds_add_up, cut_is_bounded, lower_bounds_add_up, parts_are_allowed, scores_add_up,
};
pub use warmup::warmup_behind;
