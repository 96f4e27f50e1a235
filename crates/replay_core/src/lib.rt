//! Policies with laws, and the replay of a trace through any of them.
//!
//! A policy is asked for one object after another, and says whether it held it. Whatever policy is replayed, what it
//! held is allowed contents of the trace. A policy that is `LetGo` can be told to let go of an object, as one that has
//! expired. The rules are those of docs/DEFINITIONS.md.
#![tactic(auto)]

mod counts;
mod letting_go;
mod policy;
mod replaying;

pub use counts::Replay;
pub use letting_go::LetGo;
pub use policy::{Outcome, Policy};
pub use replaying::{has_written, hit_counts, replay};
