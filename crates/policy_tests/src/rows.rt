//! Hits, bytes and written bytes of the policies over three small traces, worked out by hand.
ghost use Rattle.std.specs.Prelude.{◌≡◌, true};

use belady_laws::{BestFault, Replay, SizeClash, best_replay};
use cache_rules::{Builder, Object, Trace};
use compared::same;
use replay_core::replay;
use replay_queues::Clock;
use replay_rank::{Belady, Lfu};
use replay_recency::{Fifo, Lru};
use std::alloc::Global;
use std::process::Abort;

/// Expects what is to hold.
pub fn holds(rt: &impl Abort, is_so: bool)
    ensures { is_so ≡ true }
{
    assert!(rt; is_so, "a condition");
}

pub fn trace_of(rt: &impl Abort, alloc: Global, requests: &[[u64; 2]]) -> Trace {
    let mut builder = Builder::new(alloc).expect(rt, "memory");
    for request in requests {
        let [id, size] = *request;
        holds(rt, builder.len() < 100 && size >= 1 && size <= 1 << 48);
        let object = Object {
            volume: 0,
            id,
            size,
        };
        builder.push(object).expect(rt, "memory");
    }
    builder.finish()
}

/// What LRU, FIFO, CLOCK, LFU and the rule of Belady hit and write, from this request on.
pub fn replays(
    rt: &impl Abort,
    alloc: Global,
    trace: &Trace,
    capacity: u64,
    warmup: u32,
) -> [Replay; 5] {
    holds(rt, capacity >= 1 && capacity <= 1 << 56);
    let objects = trace.objects();
    let mut lru = Lru::new(alloc, capacity, objects).expect(rt, "memory");
    let mut fifo = Fifo::new(alloc, capacity, objects).expect(rt, "memory");
    let mut clock = Clock::new(alloc, capacity, objects).expect(rt, "memory");
    let mut lfu = Lfu::new(alloc, capacity, objects).expect(rt, "memory");
    let mut belady = Belady::new(alloc, capacity, objects).expect(rt, "memory");
    [
        replay(alloc, trace, warmup, &mut lru).expect(rt, "memory"),
        replay(alloc, trace, warmup, &mut fifo).expect(rt, "memory"),
        replay(alloc, trace, warmup, &mut clock).expect(rt, "memory"),
        replay(alloc, trace, warmup, &mut lfu).expect(rt, "memory"),
        replay(alloc, trace, warmup, &mut belady).expect(rt, "memory"),
    ]
}

pub const CYCLE: [[u64; 2]; 6] = [[1, 1], [2, 1], [3, 1], [1, 1], [2, 1], [3, 1]];

// A trace, its capacity, a warm-up, and the hits, bytes and written bytes of the five, worked out by hand.
#[derive(Clone, Copy)]
struct Row {
    shows: &'static str,
    requests: &'static [[u64; 2]],
    capacity: u64,
    warmup: u32,
    hits: [u64; 5],
    bytes: [u128; 5],
    written: [u128; 5],
}

const ROWS: [Row; 4] = [
    Row {
        shows: "only Belady's rule hits a cycle",
        requests: &CYCLE,
        capacity: 2,
        warmup: 0,
        hits: [0, 0, 0, 0, 2],
        bytes: [0, 0, 0, 0, 2],
        written: [6, 6, 6, 6, 2],
    },
    Row {
        shows: "a hit before the warm-up does not count",
        requests: &CYCLE,
        capacity: 2,
        warmup: 5,
        hits: [0, 0, 0, 0, 0],
        bytes: [0, 0, 0, 0, 0],
        written: [1, 1, 1, 1, 0],
    },
    Row {
        shows: "sizes are counted",
        requests: &[[1, 2], [2, 2], [1, 2], [3, 3], [1, 2], [2, 2]],
        capacity: 5,
        warmup: 0,
        hits: [2, 1, 2, 2, 3],
        bytes: [4, 2, 4, 4, 6],
        written: [9, 11, 9, 9, 4],
    },
    Row {
        shows: "a large object is kept over small ones by Belady's rule alone",
        requests: &[[1, 120], [2, 64], [1, 120], [3, 14], [1, 120]],
        capacity: 128,
        warmup: 0,
        hits: [0, 0, 0, 0, 2],
        bytes: [0, 0, 0, 0, 240],
        written: [438, 438, 438, 438, 120],
    },
];

#[test]
fn each_policy_hits_and_writes_what_its_rule_does(rt: HostRuntime) {
    for row in &ROWS {
        let trace = trace_of(&rt, rt.alloc(), row.requests);
        let found = replays(&rt, rt.alloc(), &trace, row.capacity, row.warmup);
        same(row.shows, found.map(|r| r.hits), row.hits).expect(&rt, "hits");
        same(row.shows, found.map(|r| r.bytes), row.bytes).expect(&rt, "bytes");
        same(row.shows, found.map(|r| r.written), row.written).expect(&rt, "written bytes");
    }
}

#[test]
fn the_best_replay_has_the_hits_of_the_bound(rt: HostRuntime) {
    let trace = trace_of(&rt, rt.alloc(), &CYCLE);
    let found = best_replay(rt.alloc(), &trace, 2);
    let want = Replay {
        hits: 2,
        bytes: 2,
        written: 2,
    };
    same("a cycle", found, Ok(want)).expect(&rt, "a row");
}

#[test]
fn two_sizes_that_fit_have_no_best_replay(rt: HostRuntime) {
    let trace = trace_of(&rt, rt.alloc(), &[[1, 2], [2, 3], [1, 2], [2, 3]]);
    let clash = SizeClash { first: 0, other: 1 };
    same(
        "four requests",
        best_replay(rt.alloc(), &trace, 4),
        Err(BestFault::Unequal(clash)),
    )
    .expect(&rt, "a row");
}
