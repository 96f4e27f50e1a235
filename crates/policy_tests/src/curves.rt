//! LRU's hits at many capacities of made traces with marks, beside its replays.
use crate::helpers::{Row, made, trace_of};
use crate::rows::replays;
use crate::simulations::MADE;
use byte_curve::{greatest_size, lru_hits};
use compared::same;
use stack_curve::curve;
use std::alloc::Global;
use std::process::Abort;

// The curve of a made trace whose objects have one size, beside LRU's replays.
fn check_curve(rt: &impl Abort, alloc: Global, row: &Row, first: u32) {
    let (requests, objects, _, count) = *row;
    let asks = made(rt, alloc, &(requests, objects, 1, count), first);
    let trace = trace_of(rt, alloc, &asks);
    let found = curve(alloc, &trace).expect(rt, "one size");
    same(first, found.hits(0), 0).expect(rt, "no slots");
    for slots in 1..9 {
        let [lru, _, _, _, _] = replays(rt, alloc, &trace, slots as u64, 0);
        same((first, slots), found.hits(slots), lru.hits).expect(rt, "a row");
    }
    drop(found);
    drop(trace);
}

// The curve of each trace that is made of a row.
fn check_curves(rt: &impl Abort, alloc: Global, row: &Row) {
    for first in 0..row.3 {
        check_curve(rt, alloc, row, first);
    }
}

#[test]
fn the_curve_has_the_hits_of_each_replay(rt: HostRuntime) {
    for row in &MADE {
        check_curves(&rt, rt.alloc(), row);
    }
}

// LRU's hits at the greatest size of a made trace and at two greater capacities, beside its replays.
fn check_capacities(rt: &impl Abort, alloc: Global, row: &Row, first: u32) {
    let asks = made(rt, alloc, row, first);
    let trace = trace_of(rt, alloc, &asks);
    let least = greatest_size(&trace);
    let more = least.saturating_add(2);
    let most = more.saturating_add(5);
    let found = lru_hits(alloc, &trace, &[least, more, most], 3).expect(rt, "memory");
    same(first, found.len(), 3).expect(rt, "as many as capacities");
    for (capacity, hits) in [least, more, most].iter().zip(&found) {
        let [lru, _, _, _, _] = replays(rt, alloc, &trace, *capacity, 3);
        same(
            (first, *capacity),
            [u128::from(hits.hits), hits.bytes],
            [u128::from(lru.hits), lru.bytes],
        )
        .expect(rt, "a row");
    }
    drop(found);
    drop(trace);
}

// LRU's hits at capacities of each trace that is made of a row.
fn check_all_capacities(rt: &impl Abort, alloc: Global, row: &Row) {
    for first in 0..row.3 {
        check_capacities(rt, alloc, row, first);
    }
}

#[test]
fn one_pass_has_the_hits_of_each_replay(rt: HostRuntime) {
    for row in &MADE {
        check_all_capacities(&rt, rt.alloc(), row);
    }
}
