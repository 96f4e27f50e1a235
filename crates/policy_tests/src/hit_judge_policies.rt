//! The hits of each policy are possible, and hits that no cache can have are not.
ghost use Rattle.std.specs.Prelude.{◌≡◌, ◌≤◌, [], length};
ghost use Rattle.cache_model.specs.Objects.{objects_of};
ghost use Rattle.replay_core.specs.Laws.{IsFresh};

use crate::helpers::{self, Ask};
use crate::rows::{CYCLE, holds, trace_of};
use crate::today::{FEW, MORE};
use bit_list::BitList;
use bound_base::NoMemory;
use cache_rules::Trace;
use compared::same;
use hit_judge::{Claimed, Impossible, judge};
use replay_core::{Outcome, Policy, replay};
use replay_queues::{Clock, S3Fifo, Sieve};
use replay_rank::{Belady, Gdsf, Gdsf98, Lfu, Lfuda};
use replay_recency::{Fifo, Lru};
use replay_tinylfu::WTinyLfu;
use std::alloc::Global;
use std::process::Abort;

// A policy, and a flag for each request that it answered: whether it was a hit.
#[derive(Drop)]
struct Recorded<P: Policy + Drop> {
    policy: P,
    flags: BitList,
}

impl<P: Policy + Drop> Policy for Recorded<P> {
    ghost contents = { λ r. P.contents r.policy };

    ghost objects = { λ r. P.objects r.policy };

    ghost room = { λ r. P.room r.policy };

    ghost known_state = { λ r. P.known_state r.policy };

    ghost tally = { λ r. P.tally r.policy };

    fn capacity(&self) -> u64 {
        self.policy.capacity()
    }

    fn holds(&self, object: u32) -> bool {
        self.policy.holds(object)
    }

    fn request(
        &mut self,
        alloc: Global,
        object: u32,
        size: u64,
        next: Option<u32>,
    ) -> Result<Outcome, NoMemory> {
        // Its clause says that what is held fits, whichever way this call ends.
        let _most = self.policy.capacity();
        self.flags.make_room()?;
        let outcome = self.policy.request(alloc, object, size, next)?;
        self.flags.push_reserved(outcome == Outcome::Hit);
        Ok(outcome)
    }

    ghost state_fits = { λ r. P.state_fits r.policy };
}

// The hits of the policy, as flags, are possible, and claim what its replay counts.
fn check_hits<P: Policy + Drop>(
    rt: &impl Abort,
    alloc: Global,
    trace: &Trace,
    capacity: u64,
    policy: P,
)
    requires objects { length (objects_of trace.now.objects) ≤ P.objects policy }
    requires empty { P.contents policy ≡ [] }
    requires fresh { IsFresh (P.known_state policy) }
{
    let mut recorded = Recorded {
        policy,
        flags: BitList::new(alloc),
    };
    let found = replay(alloc, trace, 0, &mut recorded).expect(rt, "memory");
    let stale = BitList::new(alloc);
    let claimed = judge(trace, &stale, &recorded.flags, capacity, 0).expect(rt, "possible hits");
    same("hits", claimed.hits, found.hits).expect(rt, "a row");
    same("bytes", claimed.bytes, found.bytes).expect(rt, "a row");
}

fn check_each(rt: &impl Abort, alloc: Global, trace: &Trace, capacity: u64) {
    holds(rt, capacity >= 1 && capacity <= 1 << 56);
    let objects = trace.objects();
    let lru = Lru::new(alloc, capacity, objects).expect(rt, "memory");
    check_hits(rt, alloc, trace, capacity, lru);
    let fifo = Fifo::new(alloc, capacity, objects).expect(rt, "memory");
    check_hits(rt, alloc, trace, capacity, fifo);
    let clock = Clock::new(alloc, capacity, objects).expect(rt, "memory");
    check_hits(rt, alloc, trace, capacity, clock);
    let lfu = Lfu::new(alloc, capacity, objects).expect(rt, "memory");
    check_hits(rt, alloc, trace, capacity, lfu);
    let belady = Belady::new(alloc, capacity, objects).expect(rt, "memory");
    check_hits(rt, alloc, trace, capacity, belady);
    let sieve = Sieve::new(alloc, capacity, objects).expect(rt, "memory");
    check_hits(rt, alloc, trace, capacity, sieve);
    let s3fifo = S3Fifo::new(alloc, capacity, objects).expect(rt, "memory");
    check_hits(rt, alloc, trace, capacity, s3fifo);
    let gdsf = Gdsf::new(alloc, capacity, objects).expect(rt, "memory");
    check_hits(rt, alloc, trace, capacity, gdsf);
    let lfuda = Lfuda::new(alloc, capacity, objects).expect(rt, "memory");
    check_hits(rt, alloc, trace, capacity, lfuda);
    let gdsf98 = Gdsf98::new(alloc, capacity, objects).expect(rt, "memory");
    check_hits(rt, alloc, trace, capacity, gdsf98);
    let wtinylfu = WTinyLfu::new(alloc, capacity, objects).expect(rt, "memory");
    check_hits(rt, alloc, trace, capacity, wtinylfu);
}

#[test]
fn the_hits_of_each_policy_are_possible(rt: HostRuntime) {
    let few = trace_of(&rt, rt.alloc(), &FEW);
    check_each(&rt, rt.alloc(), &few, 10);
    let more = trace_of(&rt, rt.alloc(), &MORE);
    check_each(&rt, rt.alloc(), &more, 20);
}

// This many flags, of which these are set.
fn flags_at(rt: &impl Abort, alloc: Global, requests: u32, flagged: &[u32]) -> BitList {
    let mut flags = BitList::new(alloc);
    for t in 0..requests {
        flags.make_room().expect(rt, "memory");
        flags.push_reserved(flagged.contains(&t));
    }
    flags
}

// A capacity, the requests that are flagged of A B C A B C, each of one byte, and what is judged.
const CLAIMS: [(u64, &[u32], Result<Claimed, Impossible>); 6] = [
    (
        2,
        &[3, 4],
        Ok(Claimed {
            hits: 2,
            bytes: 2,
            written: 2,
        }),
    ),
    (2, &[3, 4, 5], Err(Impossible::Load { step: 2, load: 3 })),
    (1, &[3, 4], Err(Impossible::Load { step: 1, load: 2 })),
    (3, &[1, 3], Err(Impossible::First { request: 1 })),
    (
        0,
        &[3],
        Err(Impossible::Size {
            request: 3,
            size: 1,
        }),
    ),
    (
        2,
        &[],
        Ok(Claimed {
            hits: 0,
            bytes: 0,
            written: 0,
        }),
    ),
];

#[test]
fn what_no_cache_hits_is_named(rt: HostRuntime) {
    let trace = trace_of(&rt, rt.alloc(), &CYCLE);
    for (capacity, flagged, judged) in &CLAIMS {
        let flags = flags_at(&rt, rt.alloc(), trace.len(), flagged);
        let stale = BitList::new(rt.alloc());
        let found = judge(&trace, &stale, &flags, *capacity, 0);
        same("a claim", found, *judged).expect(&rt, "a row");
    }
}

const LARGE: Ask = Ask {
    object: 1,
    size: 2,
    fills: false,
};

const SMALL: Ask = Ask {
    object: 2,
    size: 1,
    fills: false,
};

const FILLING: Ask = Ask {
    object: 1,
    size: 2,
    fills: true,
};

const COUNTING: [Ask; 5] = [LARGE, SMALL, LARGE, SMALL, LARGE];

const WITH_A_FILL: [Ask; 5] = [LARGE, SMALL, FILLING, SMALL, LARGE];

// Requests, those that are flagged, a warm-up, and what they claim and must write at 3 bytes, worked out by hand.
#[derive(Clone, Copy)]
struct WriteRow {
    shows: &'static str,
    asks: &'static [Ask],
    flagged: &'static [u32],
    warmup: u32,
    claimed: Claimed,
}

const WRITES: [WriteRow; 7] = [
    WriteRow {
        shows: "each first request writes",
        asks: &COUNTING,
        flagged: &[2, 3, 4],
        warmup: 0,
        claimed: Claimed {
            hits: 3,
            bytes: 5,
            written: 3,
        },
    },
    WriteRow {
        shows: "a hit that only fills writes again",
        asks: &WITH_A_FILL,
        flagged: &[2, 3, 4],
        warmup: 0,
        claimed: Claimed {
            hits: 2,
            bytes: 3,
            written: 5,
        },
    },
    WriteRow {
        shows: "what is written in the warm-up is left out",
        asks: &WITH_A_FILL,
        flagged: &[2, 3, 4],
        warmup: 1,
        claimed: Claimed {
            hits: 2,
            bytes: 3,
            written: 3,
        },
    },
    WriteRow {
        shows: "a fill past the warm-up alone",
        asks: &WITH_A_FILL,
        flagged: &[2, 3, 4],
        warmup: 2,
        claimed: Claimed {
            hits: 2,
            bytes: 3,
            written: 2,
        },
    },
    WriteRow {
        shows: "nothing is written past the fill",
        asks: &WITH_A_FILL,
        flagged: &[2, 3, 4],
        warmup: 3,
        claimed: Claimed {
            hits: 2,
            bytes: 3,
            written: 0,
        },
    },
    WriteRow {
        shows: "a fill without a later hit writes nothing",
        asks: &WITH_A_FILL,
        flagged: &[2, 3],
        warmup: 0,
        claimed: Claimed {
            hits: 1,
            bytes: 1,
            written: 3,
        },
    },
    WriteRow {
        shows: "the request before the only hit writes",
        asks: &COUNTING,
        flagged: &[4],
        warmup: 0,
        claimed: Claimed {
            hits: 1,
            bytes: 2,
            written: 2,
        },
    },
];

#[test]
fn what_hits_must_write_is_summed(rt: HostRuntime) {
    for row in &WRITES {
        let trace = helpers::trace_of(&rt, rt.alloc(), row.asks);
        let flags = flags_at(&rt, rt.alloc(), trace.len(), row.flagged);
        let stale = BitList::new(rt.alloc());
        same(
            row.shows,
            judge(&trace, &stale, &flags, 3, row.warmup),
            Ok(row.claimed),
        )
        .expect(&rt, "a row");
    }
}
