//! `demo_trace`, and the text of a demo in `bound_report`.
use bound_report::{DemoFacts, PolicyReplays, demo_text};
use compared::{holds, same};
use demo_trace::{demo_trace, webcache_text};
use replay_core::Replay;
use std::alloc::Global;
use std::process::Abort;

// A seed, how many requests and objects, and the lines of the trace.
type Row = (u64, u32, u32, &'static [u8]);

// The lines are those of a program in another language, which draws the words by itself.
const TRACES: [Row; 4] = [
    (1, 4, 200, b"1 14 275\n2 17 3552\n3 35 2734\n4 112 2193\n"),
    (u64::MAX, 3, 10, b"1 2 3551\n2 3 3278\n3 2 3551\n"),
    (7, 2, 1, b"1 0 1\n2 0 1\n"),
    (1, 0, 5, b""),
];

fn check_lines(rt: &impl Abort, alloc: Global, (seed, requests, objects, want): Row) {
    holds(seed, requests < 10 && objects > 0).expect(rt, "a row");
    let trace = demo_trace(alloc, seed, requests, objects).expect(rt, "memory");
    let lines = webcache_text(alloc, &trace).expect(rt, "memory");
    same(seed, lines.as_slice(), want).expect(rt, "a row");
    drop(lines);
    drop(trace);
}

#[test]
fn a_seed_draws_its_trace(rt: HostRuntime) {
    for row in &TRACES {
        check_lines(&rt, rt.alloc(), *row);
    }
}

// A demo prints no written bytes.
fn counts(hits: u64, bytes: u128) -> Replay {
    Replay {
        hits,
        bytes,
        written: 99,
    }
}

#[test]
fn a_demo_names_each_policy(rt: HostRuntime) {
    let facts = DemoFacts {
        seed: 3,
        requests: 20,
        objects: 4,
        capacity: 77,
    };
    let replays = PolicyReplays {
        lru: counts(1, 10),
        fifo: counts(2, 9),
        clock: counts(3, 8),
        lfu: counts(4, 7),
        belady: counts(5, 11),
    };
    let text = demo_text(rt.alloc(), &facts, b"bounds\n", &replays).expect(&rt, "memory");
    let want: &[u8] =
        b"demo seed 3 requests 20 objects 4 capacity 77\nbounds\ncheck valid\nreplay lru hits 1 bytes 10\n\
replay fifo hits 2 bytes 9\nreplay clock hits 3 bytes 8\nreplay lfu hits 4 bytes 7\nreplay belady hits 5 bytes 11\n";
    same("a demo", text.as_slice(), want).expect(&rt, "a row");
    drop(text);
}
