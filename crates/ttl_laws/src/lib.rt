//! What contents can score whose objects expire a time after they were written: each law is the contract of a function
//! that does nothing.
#![tactic(auto)]

mod laws;

pub use laws::{
    bounds_rise_with_ttl, idle_adds_nothing, idle_bounds_ttl, idle_certificates_bound_ttl,
    longer_scores_more, no_policy_scores_more_with_ttl, ttl_bounds_no_worse,
};
