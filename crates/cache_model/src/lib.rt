//! The model of offline caching: what a trace, contents, a bound, a schedule and a certificate are, and the
//! laws that are proved of them.
//!
//! The rules are those of docs/DEFINITIONS.md. The crates above cite them in their contracts.
#![tactic(auto)]

mod certificates;
mod intervals;
mod laws;
mod objects;
mod terms;
mod version;

pub use certificates::{Header, Record};
pub use intervals::Interval;
pub use laws::{
    contents_weigh_their_intervals, exact_is_least, flows_are_below_prices, intervals_are_eligible,
    keeps_are_allowed, least_whole_is_least_common_multiple, load_is_latest_sum,
    no_policy_scores_more, one_more_request, one_reading, rounded_is_maximal, unit_is_one_number,
    valid_bounds_every_policy,
};
pub use objects::{Object, Objective};
pub use terms::Terms;
pub use version::{CERT_VERSION, SHORT_VERSION};
