//! What contents write, and what claimed hits must write: each law is the contract of a function that does nothing.
//!
//! The rules are "Written bytes" and "Least written bytes of flags" in docs/DEFINITIONS.md.
#![tactic(auto)]

mod laws;

pub use laws::{claimed_hits_write_just, claimed_hits_write_no_fewer};
