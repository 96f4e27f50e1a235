//! SIEVE, S3-FIFO, GDSF and LFUDA over small traces, worked out by hand.
use crate::rows::{holds, trace_of};
use cache_rules::Trace;
use compared::same;
use replay_core::{Replay, replay};
use replay_queues::{S3Fifo, Sieve};
use replay_rank::{Gdsf, Lfuda};
use std::alloc::Global;
use std::process::Abort;

/// The replays of the four, in the order of their names above.
pub fn replays(
    rt: &impl Abort,
    alloc: Global,
    trace: &Trace,
    capacity: u64,
    warmup: u32,
) -> [Replay; 4] {
    holds(rt, capacity >= 1 && capacity <= 1 << 56);
    let objects = trace.objects();
    let mut sieve = Sieve::new(alloc, capacity, objects).expect(rt, "memory");
    let mut s3fifo = S3Fifo::new(alloc, capacity, objects).expect(rt, "memory");
    let mut gdsf = Gdsf::new(alloc, capacity, objects).expect(rt, "memory");
    let mut lfuda = Lfuda::new(alloc, capacity, objects).expect(rt, "memory");
    [
        replay(alloc, trace, warmup, &mut sieve).expect(rt, "memory"),
        replay(alloc, trace, warmup, &mut s3fifo).expect(rt, "memory"),
        replay(alloc, trace, warmup, &mut gdsf).expect(rt, "memory"),
        replay(alloc, trace, warmup, &mut lfuda).expect(rt, "memory"),
    ]
}

// A trace, its capacity, a warm-up, and the hits and bytes of the four.
#[derive(Clone, Copy)]
struct Row {
    shows: &'static str,
    requests: &'static [[u64; 2]],
    capacity: u64,
    warmup: u32,
    hits: [u64; 4],
    bytes: [u128; 4],
}

pub const FEW: [[u64; 2]; 12] = [
    [0, 5],
    [0, 5],
    [1, 2],
    [3, 4],
    [1, 2],
    [2, 1],
    [3, 4],
    [0, 5],
    [1, 2],
    [0, 5],
    [0, 5],
    [3, 4],
];

pub const ONES: [[u64; 2]; 12] = [
    [1, 1],
    [5, 1],
    [2, 1],
    [6, 1],
    [5, 1],
    [4, 1],
    [4, 1],
    [0, 1],
    [4, 1],
    [2, 1],
    [6, 1],
    [0, 1],
];

pub const MORE: [[u64; 2]; 16] = [
    [4, 6],
    [2, 2],
    [6, 1],
    [2, 2],
    [3, 2],
    [1, 5],
    [4, 6],
    [6, 1],
    [3, 2],
    [0, 1],
    [4, 6],
    [5, 6],
    [1, 5],
    [0, 1],
    [1, 5],
    [2, 2],
];

const ROWS: [Row; 5] = [
    Row {
        shows: "mixed sizes",
        requests: &FEW,
        capacity: 10,
        warmup: 0,
        hits: [3, 5, 6, 4],
        bytes: [14, 21, 23, 19],
    },
    Row {
        shows: "a hit before the warm-up does not count",
        requests: &FEW,
        capacity: 10,
        warmup: 6,
        hits: [2, 3, 4, 3],
        bytes: [9, 14, 16, 14],
    },
    Row {
        shows: "no small queue below ten bytes",
        requests: &ONES,
        capacity: 4,
        warmup: 0,
        hits: [3, 6, 4, 4],
        bytes: [3, 6, 4, 4],
    },
    Row {
        shows: "more objects of mixed sizes",
        requests: &MORE,
        capacity: 20,
        warmup: 0,
        hits: [7, 8, 8, 6],
        bytes: [24, 28, 25, 22],
    },
    Row {
        shows: "an object above the capacity changes nothing",
        requests: &[[0, 2], [1, 3], [0, 2], [1, 3], [0, 2]],
        capacity: 2,
        warmup: 0,
        hits: [2, 2, 2, 2],
        bytes: [4, 4, 4, 4],
    },
];

#[test]
fn each_policy_of_today_hits_what_its_rule_does(rt: HostRuntime) {
    for row in &ROWS {
        let trace = trace_of(&rt, rt.alloc(), row.requests);
        let found = replays(&rt, rt.alloc(), &trace, row.capacity, row.warmup);
        same(row.shows, found.map(|r| r.hits), row.hits).expect(&rt, "hits");
        same(row.shows, found.map(|r| r.bytes), row.bytes).expect(&rt, "bytes");
    }
}
