//! A whole trace with the times of its requests, for bounds of objects that expire a time after they were written.
#![tactic(auto)]

mod read_timed;

pub use read_timed::{TimedRequests, load_timed};
