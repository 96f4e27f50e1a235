//! Texts for people: reports, each a value that `render` writes, with how many requests count, what is said of stale
//! ones and the warm-up; the texts of a demo and of an upgrade; and the line that says why a run stopped.
//!
//! The rules are "Report of bounds", "Verdict" and "Refusal" in docs/DEFINITIONS.md.
#![tactic(auto)]

mod capacity_curves;
mod curves;
mod demo;
mod facts;
mod judged;
mod numbers;
mod refinement;
mod refusal;
mod rendering;
mod replays;
mod report;
mod sweeps;
mod upgrade;
mod verdict;

pub use capacity_curves::{CapacityCurveFacts, CapacityCurveReport};
pub use cert_checker::{InvalidKind, Verdict};
pub use curves::{CurveFacts, CurveReport, curve_text};
pub use demo::{DemoFacts, PolicyReplays, demo_text};
pub use facts::BoundFacts;
pub use hit_judge::Impossible;
pub use judged::JudgedFacts;
pub use numbers::{Numbers, numbers_in};
pub use policy_model::PolicyName;
pub use policy_sweep::PolicyReplay;
pub use refinement::RefinementFacts;
pub use refusal::{LimitName, Refusal, RefusalText, refusal_text};
pub use rendering::{Counting, Report, StaleCounts, render};
pub use replays::{ReplayFacts, replay_text};
pub use report::report_text;
pub use sweeps::{SweepFacts, SweepReport};
pub use trace_sweep::SweepPoint;
pub use upgrade::upgrade_text;
pub use verdict::{CheckFacts, verdict_text};
