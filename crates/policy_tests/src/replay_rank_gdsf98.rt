//! GDSF of 1998 over small traces: the hits and bytes of a simulation by plain lists.
use crate::rows::{holds, trace_of};
use crate::today::{FEW, MORE, ONES};
use cache_rules::Trace;
use compared::same;
use replay_core::{Replay, replay};
use replay_rank::{Gdsf, Gdsf98};
use std::alloc::Global;
use std::process::Abort;

fn replay_1998(
    rt: &impl Abort,
    alloc: Global,
    trace: &Trace,
    capacity: u64,
    warmup: u32,
) -> Replay {
    holds(rt, capacity >= 1 && capacity <= 1 << 56);
    let mut policy = Gdsf98::new(alloc, capacity, trace.objects()).expect(rt, "memory");
    replay(alloc, trace, warmup, &mut policy).expect(rt, "memory")
}

// A trace, its capacity, a warm-up, and its hits and bytes.
#[derive(Clone, Copy)]
struct Row {
    shows: &'static str,
    requests: &'static [[u64; 2]],
    capacity: u64,
    warmup: u32,
    hits: u64,
    bytes: u128,
}

const BARRED: [[u64; 2]; 5] = [[0, 1], [1, 9], [2, 10], [0, 1], [1, 9]];

const RISING: [[u64; 2]; 17] = [
    [0, 1],
    [1, 1],
    [2, 1],
    [0, 1],
    [3, 150],
    [4, 60],
    [4, 60],
    [3, 150],
    [5, 2],
    [1, 1],
    [4, 60],
    [3, 150],
    [6, 90],
    [6, 90],
    [6, 90],
    [0, 1],
    [2, 1],
];

const ROWS: [Row; 7] = [
    Row {
        shows: "mixed sizes",
        requests: &FEW,
        capacity: 10,
        warmup: 0,
        hits: 6,
        bytes: 24,
    },
    Row {
        shows: "a hit before the warm-up does not count",
        requests: &FEW,
        capacity: 10,
        warmup: 6,
        hits: 4,
        bytes: 17,
    },
    Row {
        shows: "objects of one size",
        requests: &ONES,
        capacity: 4,
        warmup: 0,
        hits: 4,
        bytes: 4,
    },
    Row {
        shows: "more objects of mixed sizes",
        requests: &MORE,
        capacity: 20,
        warmup: 0,
        hits: 9,
        bytes: 30,
    },
    Row {
        shows: "an object of the whole capacity takes no room",
        requests: &BARRED,
        capacity: 10,
        warmup: 0,
        hits: 2,
        bytes: 10,
    },
    Row {
        shows: "a large object comes in once the floor has risen",
        requests: &RISING,
        capacity: 200,
        warmup: 0,
        hits: 8,
        bytes: 304,
    },
    Row {
        shows: "an object above the capacity changes nothing",
        requests: &[[0, 2], [1, 3], [0, 2], [1, 3], [0, 2]],
        capacity: 2,
        warmup: 0,
        hits: 2,
        bytes: 4,
    },
];

#[test]
fn an_object_that_is_worth_less_than_what_would_go_stays_out(rt: HostRuntime) {
    for row in &ROWS {
        let trace = trace_of(&rt, rt.alloc(), row.requests);
        let found = replay_1998(&rt, rt.alloc(), &trace, row.capacity, row.warmup);
        same(row.shows, found.hits, row.hits).expect(&rt, "hits");
        same(row.shows, found.bytes, row.bytes).expect(&rt, "bytes");
    }
}

#[test]
fn every_object_that_fits_comes_in_by_the_rule_of_today(rt: HostRuntime) {
    let trace = trace_of(&rt, rt.alloc(), &BARRED);
    let mut policy = Gdsf::new(rt.alloc(), 10, trace.objects()).expect(&rt, "memory");
    let found = replay(rt.alloc(), &trace, 0, &mut policy).expect(&rt, "memory");
    same("GDSF", found.hits, 0).expect(&rt, "hits");
}
