//! A run of the program: what comes of the trace and the certificate, and how it ends.
//!
//! The rules are under "A run" in docs/DEFINITIONS.md, and the headline is in specs/Headline.antt.
#![tactic(auto)]

mod bounds;
mod checking;
mod curves;
mod demos;
mod judging;
mod loading;
mod prices;
mod refined;
mod relaxed;
mod replays;
mod status;
mod sweeps;
mod timed;
mod top;
mod upgrades;
mod writing;

pub use bound_words::{Paths, Plan, WordFault, paths_of, plan_of};
pub use replays::{Leaving, bounded_fresh_replay, bounded_replay};
pub use status::Status;
pub use top::run;
