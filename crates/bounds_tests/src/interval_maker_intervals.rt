//! The intervals of small traces, worked out by hand.
use crate::helpers::{CYCLE, intervals_of_sizes, intervals_past};
use cache_rules::Objective;
use compared::{holds, same};
use interval_maker::Interval;

const SIZES: [u64; 7] = [2, 3, 2, 7, 3, 2, 7];

// A capacity, an objective, and the intervals.
const FITTING: [(u64, Objective, &[Interval]); 3] = [
    (
        5,
        Objective::Bytes,
        &[
            Interval {
                start: 0,
                end: 2,
                size: 2,
                gain: 2,
            },
            Interval {
                start: 1,
                end: 4,
                size: 3,
                gain: 3,
            },
            Interval {
                start: 2,
                end: 5,
                size: 2,
                gain: 2,
            },
        ],
    ),
    (
        2,
        Objective::Object,
        &[
            Interval {
                start: 0,
                end: 2,
                size: 2,
                gain: 1,
            },
            Interval {
                start: 2,
                end: 5,
                size: 2,
                gain: 1,
            },
        ],
    ),
    (1, Objective::Object, &[]),
];

#[test]
fn finds_all_that_fit_by_start_and_end(rt: HostRuntime) {
    for (capacity, objective, want) in &FITTING {
        let made = intervals_of_sizes(&rt, rt.alloc(), &SIZES, *capacity, *objective);
        same(*capacity, made.as_slice(), *want).expect(&rt, "a row");
        same(*capacity, made.steps(), 7).expect(&rt, "a row");
        drop(made);
    }
}

// The numbers of the intervals that start and end at each request, at capacity 5.
const NUMBERS: [(Option<u32>, Option<u32>); 7] = [
    (Some(0), None),
    (Some(1), None),
    (Some(2), Some(0)),
    (None, None),
    (None, Some(1)),
    (None, Some(2)),
    (None, None),
];

#[test]
fn numbers_them_by_start(rt: HostRuntime) {
    let made = intervals_of_sizes(&rt, rt.alloc(), &SIZES, 5, Objective::Bytes);
    for (t, want) in NUMBERS.iter().enumerate() {
        let t = t as u32;
        holds(t, t < made.steps()).expect(&rt, "a row");
        same(t, (made.starting(t), made.ending(t)), *want).expect(&rt, "a row");
    }
    drop(made);
}

// A warm-up, and the starts of the intervals that end past it.
const WARM: [(u32, &[u32]); 5] = [
    (0, &[0, 1, 2]),
    (3, &[0, 1, 2]),
    (4, &[1, 2]),
    (5, &[2]),
    (6, &[]),
];

#[test]
fn leaves_out_those_that_end_in_the_warmup(rt: HostRuntime) {
    for (warmup, starts) in &WARM {
        let made = intervals_past(&rt, rt.alloc(), &CYCLE, 2, Objective::Object, *warmup);
        same(*warmup, made.as_slice().len(), starts.len()).expect(&rt, "a row");
        for start in *starts {
            let at = (*warmup, *start);
            holds(at, *start < made.steps()).expect(&rt, "a row");
            same(at, made.starting(*start).is_some(), true).expect(&rt, "a row");
        }
        drop(made);
    }
}
