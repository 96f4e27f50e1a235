//! A trace with a time to live.
use cache_rules::Trace;

/// A trace with the time of each of its requests, and a time to live in their unit. A time below an earlier one counts as no
/// time passed.
#[derive(Clone, Copy)]
pub struct TimedTrace<'a> {
    pub trace: &'a Trace,
    pub times: &'a [u64],
    pub ttl: u64,
}
