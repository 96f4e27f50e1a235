//! What is proved of the rules: each law is the contract of a function that does nothing.
#![tactic(auto)]

mod laws;

pub use laws::{belady_is_best, runs_are_allowed};
