//! Replays from which stale objects leave, by every policy, in rows worked out by hand.
ghost use Rattle.std.specs.Prelude.{◌≡◌, ◌≤◌, [], true};
ghost use Rattle.bit_list.specs.Bits.{bits_of};
ghost use Rattle.replay_core.specs.Laws.{IsFresh};
ghost use Rattle.replay_fresh.specs.FreshRuns.{OnlyFill};

use crate::rows::holds;
use bit_list::BitList;
use cache_rules::{Builder, Object, Trace};
use compared::same;
use replay_core::LetGo;
use replay_fresh::replay_fresh;
use replay_queues::{Clock, S3Fifo, Sieve};
use replay_rank::{Belady, Gdsf, Gdsf98, Lfu, Lfuda};
use replay_recency::{Fifo, Lru};
use replay_tinylfu::WTinyLfu;
use std::alloc::Global;
use std::process::Abort;

// A request: its id, its size, and whether it is stale.
type Asked = (u64, u64, bool);

// What it shows, the requests, whether objects are replaced, and the hits, their bytes and the bytes that are written.
type Row = (&'static str, &'static [Asked], bool, u64, u128, u128);

const ROWS: [Row; 3] = [
    (
        "a stale request misses, and an old version is gone",
        &[
            (0, 2, false),
            (1, 1, false),
            (0, 2, true),
            (0, 2, false),
            (1, 3, false),
            (1, 1, true),
            (1, 1, false),
        ],
        true,
        2,
        3,
        9,
    ),
    (
        "an old version stays where nothing is replaced",
        &[
            (0, 2, false),
            (1, 1, false),
            (0, 2, true),
            (0, 2, false),
            (1, 3, false),
            (1, 1, false),
            (1, 1, false),
        ],
        false,
        3,
        4,
        8,
    ),
    (
        "nothing leaves where no request is stale",
        &[(0, 2, false), (0, 2, false), (1, 1, false), (0, 2, false)],
        true,
        2,
        4,
        3,
    ),
];

// An object that comes in anew stands behind the other, which is given up first.
const ORDER: Row = (
    "a stale object comes in as a new one",
    &[
        (0, 2, false),
        (1, 1, false),
        (0, 2, true),
        (2, 1, false),
        (0, 2, false),
    ],
    false,
    1,
    2,
    6,
);

// Adds a request, which only fills if it is stale.
fn push(rt: &impl Abort, builder: &mut Builder, asked: &Asked)
    requires { builder.old.marks ≡ true }
    ensures { builder.new.marks ≡ true }
{
    let (id, size, is_stale) = *asked;
    let object = Object {
        volume: 0,
        id,
        size,
    };
    holds(rt, builder.len() < 100 && size >= 1 && size <= 1 << 48);
    if is_stale {
        builder.push_filling(object).expect(rt, "memory");
    } else {
        builder.push(object).expect(rt, "memory");
    }
}

// The trace of the requests, of which the stale ones only fill.
fn trace_of(rt: &impl Abort, alloc: Global, requests: &[Asked]) -> Trace {
    let mut builder = Builder::marking(alloc).expect(rt, "memory");
    for asked in requests {
        push(rt, &mut builder, asked);
    }
    builder.finish()
}

// Which of the requests are stale.
fn stale_of(rt: &impl Abort, alloc: Global, requests: &[Asked]) -> BitList {
    let mut stale = BitList::new(alloc);
    for asked in requests {
        stale.make_room().expect(rt, "memory");
        stale.push_reserved(asked.2);
    }
    stale
}

/// Whether each stale request of the trace only fills.
pub fn only_fill(trace: &Trace, stale: &BitList) -> bool
    ensures { result ≡ true → OnlyFill (bits_of stale.now) trace.now.fills trace.now.objects }
{
    for t in 0..trace.len() {
        if stale.get(t as usize) && !trace.only_fills(t) {
            return false;
        }
    }
    true
}

// The replay of a row by a policy that has had no request.
fn check<P: LetGo>(rt: &impl Abort, alloc: Global, row: &Row, policy: &mut P)
    requires objects { 100 ≤ P.objects policy.old }
    requires empty { P.contents policy.old ≡ [] }
    requires fresh { IsFresh (P.known_state policy.old) }
{
    let trace = trace_of(rt, alloc, row.1);
    let stale = stale_of(rt, alloc, row.1);
    holds(rt, only_fill(&trace, &stale) && trace.objects() <= 100);
    let found = replay_fresh(alloc, &trace, &stale, row.2, 0, policy).expect(rt, "memory");
    same(row.0, found.hits, row.3).expect(rt, "hits");
    same(row.0, found.bytes, row.4).expect(rt, "bytes");
    same(row.0, found.written, row.5).expect(rt, "written bytes");
}

// The replays of a row by policies that have room for all its objects.
fn check_all(rt: &impl Abort, alloc: Global, row: &Row) {
    check(
        rt,
        alloc,
        row,
        &mut Lru::new(alloc, 1000, 100).expect(rt, "memory"),
    );
    check(
        rt,
        alloc,
        row,
        &mut Fifo::new(alloc, 1000, 100).expect(rt, "memory"),
    );
    check(
        rt,
        alloc,
        row,
        &mut Clock::new(alloc, 1000, 100).expect(rt, "memory"),
    );
    check(
        rt,
        alloc,
        row,
        &mut Lfu::new(alloc, 1000, 100).expect(rt, "memory"),
    );
    check(
        rt,
        alloc,
        row,
        &mut Belady::new(alloc, 1000, 100).expect(rt, "memory"),
    );
    check(
        rt,
        alloc,
        row,
        &mut Sieve::new(alloc, 1000, 100).expect(rt, "memory"),
    );
    check(
        rt,
        alloc,
        row,
        &mut S3Fifo::new(alloc, 1000, 100).expect(rt, "memory"),
    );
    check(
        rt,
        alloc,
        row,
        &mut Gdsf::new(alloc, 1000, 100).expect(rt, "memory"),
    );
    check(
        rt,
        alloc,
        row,
        &mut Lfuda::new(alloc, 1000, 100).expect(rt, "memory"),
    );
    check(
        rt,
        alloc,
        row,
        &mut Gdsf98::new(alloc, 1000, 100).expect(rt, "memory"),
    );
    check(
        rt,
        alloc,
        row,
        &mut WTinyLfu::new(alloc, 1000, 100).expect(rt, "memory"),
    );
}

#[test]
fn what_is_stale_or_replaced_is_no_hit(rt: HostRuntime) {
    for row in &ROWS {
        check_all(&rt, rt.alloc(), row);
    }
}

#[test]
fn what_has_left_comes_in_as_a_new_object(rt: HostRuntime) {
    let alloc = rt.alloc();
    check(
        &rt,
        alloc,
        &ORDER,
        &mut Fifo::new(alloc, 3, 100).expect(&rt, "memory"),
    );
}
