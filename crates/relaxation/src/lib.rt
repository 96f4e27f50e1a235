//! The flow relaxation over the steps of a trace: units, denominators, prices and what they bound, flows and their value,
//! and instances of the flow.
//!
//! The rules are those of "Intervals, units and prices" and "The flow on a chain" in docs/DEFINITIONS.md, after Berger,
//! Beckmann and Harchol-Balter 2018. What is said of prices here holds of every policy that the rules allow.
#![tactic(auto)]

mod arcs;
mod denominators;
mod flows;
mod prices;
mod scale;
mod units;

pub use arcs::instance;
pub use cache_model::Interval;
pub use denominators::{Denominator, DenominatorChoice, DenominatorLimit, denominator_for};
pub use flow_model::{Instance, OuterArc};
pub use flow_windows::window_instance;
pub use flows::{FlowFault, flow_value, value_of_schedule};
pub use prices::{PriceFault, Sums, bound_of};
pub use scale::Scale;
pub use units::unit_of;
