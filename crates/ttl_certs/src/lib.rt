//! When a certificate is valid with a time to live, and what it bounds then: each law is the contract of a function that
//! does nothing.
#![tactic(auto)]

mod laws;

pub use laws::{valid_bounds_shorter_ttls, valid_bounds_with_ttl, valid_without_ttl_bounds};
