//! Replays with a time to live, in rows worked out by hand.
use crate::replay_fresh_rows::only_fill;
use crate::rows::{holds, trace_of};
use bit_list::BitList;
use compared::same;
use replay_recency::Lru;
use replay_ttl::{TtlSettings, replay_with_ttl};
use std::alloc::Global;
use std::process::Abort;

// One object of a byte, every two seconds.
const EVENLY: [[u64; 2]; 5] = [[1, 1], [1, 1], [1, 1], [1, 1], [1, 1]];

const TIMES: [u64; 5] = [0, 2, 4, 6, 8];

// A time to live, and how many of the requests are hits with it.
const ROWS: [(u64, u64); 5] = [(1, 0), (2, 2), (3, 2), (4, 3), (8, 4)];

// No request is stale.
fn none_stale(rt: &impl Abort, alloc: Global, count: u32) -> BitList {
    let mut stale = BitList::new(alloc);
    for _t in 0..count {
        stale.make_room().expect(rt, "memory");
        stale.push_reserved(false);
    }
    stale
}

// Replays LRU, which writes at each request that is no hit.
fn check(rt: &impl Abort, alloc: Global, ttl: u64, hits: u64) {
    let trace = trace_of(rt, alloc, &EVENLY);
    let stale = none_stale(rt, alloc, trace.len());
    holds(rt, only_fill(&trace, &stale));
    holds(rt, trace.objects() <= 100 && trace.len() == 5);
    let mut lru = Lru::new(alloc, 10, 100).expect(rt, "memory");
    let settings = TtlSettings {
        ttl,
        replace: false,
        warmup: 0,
    };
    let found = replay_with_ttl(alloc, &trace, &TIMES, &stale, settings, &mut lru);
    let found = found.expect(rt, "memory");
    same(ttl, found.counts.hits, hits).expect(rt, "hits");
    same(ttl, found.counts.written, u128::from(5 - hits.min(5))).expect(rt, "written bytes");
    same(ttl, found.hits.get(1), hits > 0).expect(rt, "a flag");
    same(ttl, found.hits.get(2), hits > 2).expect(rt, "a flag");
}

#[test]
fn a_hit_renews_nothing(rt: HostRuntime) {
    for (ttl, hits) in ROWS {
        check(&rt, rt.alloc(), ttl, hits);
    }
}
