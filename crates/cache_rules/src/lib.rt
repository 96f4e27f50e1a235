//! The requests of a trace, and where each object is asked for.
//!
//! A builder takes the requests one by one, and the trace that it makes answers which object a request is of and where
//! the nearest requests of that object are. One keep for each request stands for contents, whose score is counted over
//! the trace.
#![tactic(auto)]

mod builder;
mod scoring;
mod trace;
mod writing;

pub use builder::Builder;
pub use cache_model::{Object, Objective, Terms};
pub use scoring::{Overfull, gain, score, score_of_fitting};
pub use trace::Trace;
pub use writing::written_bytes;
