//! Whether hits that a simulator claims are possible: each law is the contract of a function that does nothing.
//!
//! The rules are those of docs/DEFINITIONS.md. A simulator flags each request that it counts as a hit. The flags are
//! possible exactly if some allowed contents hit at each of them, and then no bound is below what they claim.
#![tactic(auto)]

mod laws;

pub use laws::{allowed_is_possible, claimed_is_bounded, claimed_is_scored, possible_is_allowed};
