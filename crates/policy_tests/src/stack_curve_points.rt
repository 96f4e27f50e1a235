//! Marks, and curves of small traces, worked out by hand, beside LRU's replays.
use crate::rows::{CYCLE, trace_of};
use cache_rules::{Builder, Object, Trace};
use compared::same;
use replay_core::replay;
use replay_recency::Lru;
use stack_curve::{CurveFault, Marks, curve, curve_is_of_lru};
use std::alloc::Global;
use std::process::Abort;

// The greatest id of the long trace.
const LONG: u64 = 600_000;

const MIXED: [[u64; 2]; 6] = [[1, 1], [2, 1], [1, 1], [3, 1], [2, 1], [1, 1]];

// A trace, and LRU's hits at the capacities 1 to 4, worked out by hand.
#[derive(Clone, Copy)]
struct Row {
    shows: &'static str,
    requests: &'static [[u64; 2]],
    hits: [u64; 4],
}

const ROWS: [Row; 3] = [
    Row {
        shows: "three distances",
        requests: &MIXED,
        hits: [0, 1, 3, 3],
    },
    Row {
        shows: "a cycle",
        requests: &CYCLE,
        hits: [0, 0, 3, 3],
    },
    Row {
        shows: "no requests",
        requests: &[],
        hits: [0, 0, 0, 0],
    },
];

// The hits of LRU's replay.
fn lru_hits(rt: &impl Abort, alloc: Global, trace: &Trace, capacity: u64) -> u64 {
    assert!(rt; capacity >= 1 && capacity <= 1 << 56, "a capacity");
    let mut lru = Lru::new(alloc, capacity, trace.objects()).expect(rt, "memory");
    replay(alloc, trace, 0, &mut lru).expect(rt, "memory").hits
}

// Pushes the ids from 1 on in order.
fn push_ids(rt: &impl Abort, builder: &mut Builder) {
    for id in 1..=LONG {
        assert!(rt; builder.len() < 1 << 25, "room");
        let object = Object {
            volume: 0,
            id,
            size: 1,
        };
        builder.push(object).expect(rt, "memory");
    }
}

#[test]
fn marks_are_counted_over_ranges(rt: HostRuntime) {
    let mut marks = Marks::new(rt.alloc(), 4).expect(&rt, "memory");
    marks.set(1, true);
    marks.set(3, true);
    same("all", marks.count(0, 4), 2).expect(&rt, "a row");
    same("all but the last", marks.count(0, 3), 1).expect(&rt, "a row");
    marks.set(1, false);
    same("after one went", marks.count(0, 3), 0).expect(&rt, "a row");
}

#[test]
fn the_curve_has_lrus_hits(rt: HostRuntime) {
    curve_is_of_lru();
    for row in &ROWS {
        let trace = trace_of(&rt, rt.alloc(), row.requests);
        let found = curve(rt.alloc(), &trace).expect(&rt, "one size");
        let by_slots = [1, 2, 3, 4].map(|slots| found.hits(slots));
        let by_capacity = [1, 2, 3, 4].map(|capacity| found.hits_at(capacity));
        same(row.shows, by_slots, row.hits).expect(&rt, "hits by slots");
        same(row.shows, by_capacity, row.hits).expect(&rt, "hits by capacity");
        same(row.shows, lru_hits(&rt, rt.alloc(), &trace, 2), row.hits[1]).expect(&rt, "LRU at 2");
        same(row.shows, lru_hits(&rt, rt.alloc(), &trace, 3), row.hits[2]).expect(&rt, "LRU at 3");
    }
}

#[test]
fn a_slot_is_as_large_as_the_objects(rt: HostRuntime) {
    let trace = trace_of(&rt, rt.alloc(), &[[1, 4], [2, 4], [1, 4]]);
    let found = curve(rt.alloc(), &trace).expect(&rt, "one size");
    same("size", found.size(), 4).expect(&rt, "a row");
    same("one slot and a part", found.hits_at(7), 0).expect(&rt, "a row");
    same("two slots", found.hits_at(8), 1).expect(&rt, "a row");
    same("more slots than fit 32 bits", found.hits_at(1 << 40), 1).expect(&rt, "a row");
}

#[test]
fn two_sizes_have_no_curve(rt: HostRuntime) {
    let trace = trace_of(&rt, rt.alloc(), &[[1, 2], [2, 3], [1, 2], [2, 3]]);
    let fault = CurveFault::Unequal { first: 2, other: 3 };
    same(
        "four requests",
        curve(rt.alloc(), &trace).err(),
        Some(fault),
    )
    .expect(&rt, "a row");
}

#[test]
fn a_long_cycle_is_counted_in_time(rt: HostRuntime) {
    let mut builder = Builder::new(rt.alloc()).expect(&rt, "memory");
    push_ids(&rt, &mut builder);
    push_ids(&rt, &mut builder);
    let found = curve(rt.alloc(), &builder.finish()).expect(&rt, "one size");
    same("one slot less", found.hits(599_999), 0).expect(&rt, "a row");
    same("all slots", found.hits(600_000), LONG).expect(&rt, "a row");
}
