//! No policy scores more on a made trace with marks than the best of all contents, which are enumerated.
use crate::helpers::{Ask, Row, made, trace_of};
use crate::rows::{holds, replays};
use crate::today;
use cache_rules::Trace;
use std::alloc::Global;
use std::process::Abort;

// Up to 6 requests of up to 3 objects.
const TINY: [Row; 4] = [(6, 3, 1, 20), (6, 3, 3, 40), (5, 3, 2, 20), (3, 2, 2, 10)];

// The bit of an object, 0 to 2, in a set of them.
fn bit_of(object: u32) -> u32 {
    match object {
        0 => 1,
        1 => 2,
        _ => 4,
    }
}

// The size of an object, and 0 if it is never asked for.
fn size_of(asks: &[Ask], object: u32) -> u64 {
    for ask in asks {
        if ask.object == object {
            return ask.size;
        }
    }
    0
}

// The size of a set of the objects 0 to 2, as bits.
fn size_of_set(asks: &[Ask], set: u32) -> u64 {
    let mut sum = 0;
    for object in 0..3 {
        if set & bit_of(object) != 0 {
            sum = u64::wrapping_add(sum, size_of(asks, object));
        }
    }
    sum
}

// The greatest score by the set that is held, and none for one that can't be.
type Scores = [Option<u128>; 8];

fn score_of(scores: &Scores, set: u32) -> Option<u128> {
    match scores.get(set as usize) {
        Some(score) => *score,
        None => None,
    }
}

// The greater of two scores, of which each may be none.
fn greater(one: Option<u128>, other: Option<u128>) -> Option<u128> {
    match (one, other) {
        (Some(a), Some(b)) => Some(a.max(b)),
        (Some(a), None) => Some(a),
        (None, b) => b,
    }
}

// A score with what a hit earns.
fn more(score: Option<u128>, earned: u128) -> Option<u128> {
    match score {
        Some(score) => Some(score.wrapping_add(earned)),
        None => None,
    }
}

// The greatest score of a set after a request: but for the object that it asks for, all was held before.
fn score_after(before: &Scores, asked: u32, gain: u128, set: u32) -> Option<u128> {
    let mut most = None;
    for from in 0..8u32 {
        let enters = set & !(from | asked);
        let earned = if from & asked != 0 { gain } else { 0 };
        if enters == 0 {
            most = greater(most, more(score_of(before, from), earned));
        }
    }
    most
}

// The greatest scores after a request, of the sets that fit.
fn scores_after(before: &Scores, asks: &[Ask], asked: u32, gain: u128, capacity: u64) -> Scores {
    let mut after: Scores = [None; 8];
    for set in 0..8u32 {
        if size_of_set(asks, set) <= capacity {
            if let Some(score) = after.get_mut(set as usize) {
                *score = score_after(before, asked, gain, set);
            }
        }
    }
    after
}

// The greatest of the scores.
fn most_of(scores: &Scores) -> u128 {
    let mut most = None;
    for score in scores {
        most = greater(most, *score);
    }
    most.unwrap_or(0)
}

// What a hit earns: one, or its bytes, and nothing if it doesn't count.
fn gain_of(ask: &Ask, bytes: bool, is_past: bool) -> u128 {
    if !is_past || ask.fills {
        0
    } else if bytes {
        ask.size as u128
    } else {
        1
    }
}

// The greatest score of all contents that the rules allow, by the sets of objects that may be held. A hit counts one,
// or its bytes.
fn greatest(asks: &[Ask], bytes: bool, capacity: u64, warmup: u32) -> u128 {
    let mut best: Scores = [Some(0), None, None, None, None, None, None, None];
    for (t, ask) in asks.iter().enumerate() {
        let gain = gain_of(ask, bytes, t >= warmup as usize);
        best = scores_after(&best, asks, bit_of(ask.object), gain, capacity);
    }
    most_of(&best)
}

// That no policy scores more over a trace than all contents.
fn check_scores(
    rt: &impl Abort,
    alloc: Global,
    asks: &[Ask],
    trace: &Trace,
    capacity: u64,
    warmup: u32,
) {
    let hits = greatest(asks, false, capacity, warmup);
    let bytes = greatest(asks, true, capacity, warmup);
    for found in replays(rt, alloc, trace, capacity, warmup) {
        holds(rt, u128::from(found.hits) <= hits && found.bytes <= bytes);
    }
    for found in today::replays(rt, alloc, trace, capacity, warmup) {
        holds(rt, u128::from(found.hits) <= hits && found.bytes <= bytes);
    }
}

// The scores of a made trace.
fn check_tiny(rt: &impl Abort, alloc: Global, row: &Row, first: u32) {
    let asks = made(rt, alloc, row, first);
    let trace = trace_of(rt, alloc, &asks);
    for (capacity, warmup) in [(1, 0), (2, 1), (3, 0), (4, 2)] {
        check_scores(rt, alloc, &asks, &trace, capacity, warmup);
    }
    drop(trace);
}

// The scores of each trace that is made of a row.
fn check_all_tiny(rt: &impl Abort, alloc: Global, row: &Row) {
    for first in 0..row.3 {
        check_tiny(rt, alloc, row, first);
    }
}

#[test]
fn no_policy_scores_more_than_all_contents(rt: HostRuntime) {
    for row in &TINY {
        check_all_tiny(&rt, rt.alloc(), row);
    }
}
