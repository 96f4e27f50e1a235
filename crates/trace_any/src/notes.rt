//! What a reading tells beside the requests.
use freshness::StaleRequests;
use std::marker::Model;

/// How many lines of a trace were dropped, and what is noted of its requests, if some can be stale.
#[derive(Debug, Drop)]
pub struct TraceNotes {
    pub dropped: u64,
    pub noted: StaleRequests,
}

impl Model for TraceNotes {
    ghost use Rattle.freshness.specs.Seen.{noted_of};
    ghost use Rattle.trace_any.specs.Readers.{Notes};

    ghost Value = { Notes };

    ghost view = { λ n. record { dropped = n.dropped; noted = noted_of n.noted } };
}
