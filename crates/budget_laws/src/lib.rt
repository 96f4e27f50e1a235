//! What contents can score that write no more bytes than a budget: each law is the contract of a function that does
//! nothing.
#![tactic(auto)]

mod laws;

pub use laws::{
    budgets_rise, every_budget, no_budget, no_policy_scores_more_within, plain_bounds_budgets,
    writes_for_a_score,
};
