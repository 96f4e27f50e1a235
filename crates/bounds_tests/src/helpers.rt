//! Intervals and arcs of few numbers.
ghost use Rattle.std.specs.Prelude.{◌≡◌};

use cache_rules::{Builder, Object, Objective, Trace};
use compared::holds;
use interval_maker::{Intervals, make};
use relaxation::OuterArc;
use std::alloc::{AllocError, Global};
use std::process::Abort;

/// Three objects of size 1, each asked for twice.
pub const CYCLE: [[u64; 2]; 6] = [[1, 1], [2, 1], [3, 1], [1, 1], [2, 1], [3, 1]];

// The trace of requests by id and size.
fn trace_of(rt: &impl Abort, alloc: Global, requests: &[[u64; 2]]) -> Trace {
    let mut builder = Builder::new(alloc).expect(rt, "memory");
    for request in requests {
        let [id, size] = *request;
        holds(id, builder.len() < 100 && size >= 1 && size <= 1 << 48).expect(rt, "a row");
        let object = Object {
            volume: 0,
            id,
            size,
        };
        builder.push(object).expect(rt, "memory");
    }
    builder.finish()
}

/// The intervals of requests by id and size that end past a warm-up.
pub fn intervals_past(
    rt: &impl Abort,
    alloc: Global,
    requests: &[[u64; 2]],
    capacity: u64,
    objective: Objective,
    warmup: u32,
) -> Intervals {
    let trace = trace_of(rt, alloc, requests);
    make(alloc, &trace, capacity, objective, warmup).expect(rt, "memory")
}

/// The intervals of requests by id and size.
pub fn intervals_of(
    rt: &impl Abort,
    alloc: Global,
    requests: &[[u64; 2]],
    capacity: u64,
    objective: Objective,
) -> Intervals {
    intervals_past(rt, alloc, requests, capacity, objective, 0)
}

/// The intervals of requests for objects of these sizes, of which the ids differ.
pub fn intervals_of_sizes(
    rt: &impl Abort,
    alloc: Global,
    sizes: &[u64],
    capacity: u64,
    objective: Objective,
) -> Intervals {
    let requests: Result<Vec<[u64; 2]>, AllocError> = sizes
        .iter()
        .map(|size| [*size, *size])
        .collect(alloc);
    let requests = requests.expect(rt, "memory");
    intervals_of(rt, alloc, &requests, capacity, objective)
}

/// Three arcs of three steps, of which two fit over step 2 where there is room for two units.
pub const THREE_ARCS: [OuterArc; 3] = [
    OuterArc {
        start: 0,
        end: 3,
        weight: 1,
        cost: 1,
    },
    OuterArc {
        start: 1,
        end: 4,
        weight: 1,
        cost: 1,
    },
    OuterArc {
        start: 2,
        end: 5,
        weight: 1,
        cost: 1,
    },
];

/// An arc.
pub fn arc(start: u32, end: u32, weight: u64, cost: u128) -> OuterArc
    ensures { result ≡ record { start = start; end = end; weight = weight; cost = cost } }
{
    OuterArc {
        start,
        end,
        weight,
        cost,
    }
}
