//! What holds of settled prices: each law is the contract of a function that does nothing.
//!
//! The rules are those of docs/DEFINITIONS.md. Which prices are settled is defined in `price_refine`.
#![tactic(auto)]

mod laws;

pub use laws::{refined_whole_is_least, settled_whole_is_least};
