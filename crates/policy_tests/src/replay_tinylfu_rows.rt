//! W-TinyLFU over small traces, as a program that keeps plain lists replays them.
use crate::rows::{holds, trace_of};
use crate::today::{FEW, MORE};
use cache_rules::{Builder, Object, Trace};
use compared::same;
use replay_core::{Replay, replay};
use replay_tinylfu::WTinyLfu;
use std::alloc::Global;
use std::process::Abort;

fn replayed(rt: &impl Abort, alloc: Global, trace: &Trace, capacity: u64, warmup: u32) -> Replay {
    holds(rt, capacity >= 1 && capacity <= 1 << 56);
    let mut policy = WTinyLfu::new(alloc, capacity, trace.objects()).expect(rt, "memory");
    replay(alloc, trace, warmup, &mut policy).expect(rt, "memory")
}

// A trace, its capacity, a warm-up, and the hits and bytes.
#[derive(Clone, Copy)]
struct Row {
    shows: &'static str,
    requests: &'static [[u64; 2]],
    capacity: u64,
    warmup: u32,
    hits: u64,
    bytes: u128,
}

const SEVERAL: [[u64; 2]; 17] = [
    [0, 1],
    [1, 1],
    [2, 1],
    [0, 1],
    [3, 150],
    [4, 60],
    [4, 60],
    [3, 150],
    [5, 2],
    [1, 1],
    [4, 60],
    [3, 150],
    [6, 90],
    [6, 90],
    [6, 90],
    [0, 1],
    [2, 1],
];

const ROWS: [Row; 4] = [
    Row {
        shows: "mixed sizes",
        requests: &FEW,
        capacity: 10,
        warmup: 0,
        hits: 6,
        bytes: 24,
    },
    Row {
        shows: "a hit before the warm-up does not count",
        requests: &FEW,
        capacity: 10,
        warmup: 6,
        hits: 4,
        bytes: 17,
    },
    Row {
        shows: "more objects of mixed sizes",
        requests: &MORE,
        capacity: 20,
        warmup: 0,
        hits: 9,
        bytes: 30,
    },
    Row {
        shows: "candidates with several victims, and protected objects that go back on probation",
        requests: &SEVERAL,
        capacity: 200,
        warmup: 0,
        hits: 7,
        bytes: 244,
    },
];

#[test]
fn w_tinylfu_hits_what_its_rule_does(rt: HostRuntime) {
    for row in &ROWS {
        let trace = trace_of(&rt, rt.alloc(), row.requests);
        let found = replayed(&rt, rt.alloc(), &trace, row.capacity, row.warmup);
        same(row.shows, found.hits, row.hits).expect(&rt, "hits");
        same(row.shows, found.bytes, row.bytes).expect(&rt, "bytes");
    }
}

// 400 requests of eleven objects.
fn long_trace(rt: &impl Abort, alloc: Global) -> Trace {
    let mut builder = Builder::new(alloc).expect(rt, "memory");
    for t in 0..400u64 {
        holds(rt, builder.len() < 1000);
        let id = (t * t + t / 7) % 11;
        let object = Object {
            volume: 0,
            id,
            size: 1 + id % 3,
        };
        builder.push(object).expect(rt, "memory");
    }
    builder.finish()
}

#[test]
fn counts_are_halved_as_requests_go_on(rt: HostRuntime) {
    let trace = long_trace(&rt, rt.alloc());
    let found = replayed(&rt, rt.alloc(), &trace, 8, 0);
    same("hits", found.hits, 177).expect(&rt, "hits");
    same("bytes", found.bytes, 269).expect(&rt, "bytes");
}
