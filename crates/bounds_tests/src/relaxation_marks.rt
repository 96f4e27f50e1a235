//! Bounds of tiny traces with marks, beside the greatest score of all contents that the rules allow.
ghost use Rattle.std.specs.Prelude.{◌≡◌, true};

use crate::flow_sparse_instances::next_of;
use cache_rules::{Builder, Object, Objective, Trace};
use compared::{holds, same};
use flow_solver::Solver;
use interval_maker::{Intervals, make};
use relaxation::{
    DenominatorChoice, Sums, bound_of, denominator_for, flow_value, instance, unit_of,
};
use std::alloc::Global;
use std::process::Abort;

// A request: its object's number, 0 to 2, its size, and whether it only fills.
#[derive(Clone, Copy)]
struct Ask {
    object: u32,
    size: u64,
    fills: bool,
}

// How many requests there are, how large an object is at most, whether all sizes are that, and how many traces are
// made.
const MADE: [(u32, u64, bool, u32); 6] = [
    (6, 3, false, 30),
    (6, 1, true, 10),
    (6, 2, true, 10),
    (6, 3, true, 10),
    (5, 2, false, 10),
    (3, 3, false, 10),
];

// The size of a made object.
fn size_of_made(object: u32, largest: u64, is_equal: bool, first: u32) -> u64 {
    if is_equal {
        largest
    } else {
        1 + (next_of(first ^ object) >> 8) as u64 % largest.max(1)
    }
}

// Made requests, about a third of which only fill.
fn made(rt: &impl Abort, alloc: Global, row: &(u32, u64, bool, u32), first: u32) -> Vec<Ask> {
    let (requests, largest, is_equal, _) = *row;
    let mut asks = Vec::new(alloc);
    let mut number = first;
    for _ in 0..requests {
        number = next_of(number);
        let object = (number >> 8) % 3;
        number = next_of(number);
        let ask = Ask {
            object,
            size: size_of_made(object, largest, is_equal, first),
            fills: (number >> 8) % 3 == 0,
        };
        asks.push(ask).expect(rt, "memory");
    }
    asks
}

// Appends a request with its mark.
fn push(rt: &impl Abort, builder: &mut Builder, ask: &Ask)
    requires { builder.old.marks ≡ true }
    ensures { builder.new.marks ≡ true }
{
    let Ask {
        object,
        size,
        fills,
    } = *ask;
    holds(object, builder.len() < 100 && size >= 1 && size <= 1 << 48).expect(rt, "a row");
    let object = Object {
        volume: 0,
        id: object as u64,
        size,
    };
    if fills {
        builder.push_filling(object).expect(rt, "memory");
    } else {
        builder.push(object).expect(rt, "memory");
    }
}

// The trace of the requests, with their marks.
fn trace_of(rt: &impl Abort, alloc: Global, asks: &[Ask]) -> Trace {
    let mut builder = Builder::marking(alloc).expect(rt, "memory");
    for ask in asks {
        push(rt, &mut builder, ask);
    }
    builder.finish()
}

// The bound of optimal prices, and its denominator. The flows have the same value.
fn upper_of(rt: &impl Abort, alloc: Global, intervals: &Intervals, capacity: u64) -> (u128, u64) {
    let unit = unit_of(intervals);
    let units = capacity / unit;
    let denominator = denominator_for(intervals, unit, DenominatorChoice::Exact);
    let denominator = denominator.expect(rt, "small sizes").value;
    holds(capacity, units >= 1 && units <= 1 << 56).expect(rt, "a row");
    holds(capacity, denominator >= 1 && denominator <= 1 << 48).expect(rt, "a row");
    let whole = instance(alloc, intervals, unit, units, denominator).expect(rt, "memory");
    let found = Solver::new(alloc, &whole).expect(rt, "memory").solve();
    let prices = found.prices();
    let steps = intervals.steps() as usize;
    holds(capacity, prices.len() == steps).expect(rt, "a price of each step");
    let sums = Sums::new(alloc, prices, units).expect(rt, "a sum within the limit");
    let upper = bound_of(intervals, unit, units, denominator, &sums);
    let flows = found.flows();
    let arcs = intervals.as_slice().len();
    holds(capacity, flows.len() == arcs).expect(rt, "a flow of each interval");
    let value = flow_value(intervals, unit, units, denominator, flows);
    same(capacity, value, Ok(upper)).expect(rt, "the value of the flows");
    (upper, denominator)
}

// The size of an object, and 0 if it is not asked for.
fn size_of(asks: &[Ask], object: u32) -> u64 {
    for ask in asks {
        if ask.object == object {
            return ask.size;
        }
    }
    0
}

// The size of a set of the objects 0 to 2, as bits.
fn size_of_set(asks: &[Ask], set: u32) -> u64 {
    let mut sum = 0;
    for object in 0..3u32 {
        if set >> object & 1 == 1 {
            sum = u64::wrapping_add(sum, size_of(asks, object));
        }
    }
    sum
}

// The greatest score with which a set may be held after a request, by those with which the sets may be held before it:
// what enters was asked for, and a hit adds the gain.
fn most_after(best: &[Option<u128>; 8], to: u32, asked: u32, gain: u128) -> Option<u128> {
    let mut most = None;
    for from in 0..8u32 {
        let Some(Some(score)) = best.get(from as usize) else {
            continue;
        };
        let hit = if from & asked != 0 { gain } else { 0 };
        let score = score.wrapping_add(hit);
        let is_more = match most {
            Some(old) => score > old,
            None => true,
        };
        if to & !(from | asked) == 0 && is_more {
            most = Some(score);
        }
    }
    most
}

// The greatest scores of the sets that fit, after a request.
fn all_after(
    asks: &[Ask],
    capacity: u64,
    best: &[Option<u128>; 8],
    asked: u32,
    gain: u128,
) -> [Option<u128>; 8] {
    let mut after = [None; 8];
    for to in 0..8u32 {
        if size_of_set(asks, to) <= capacity {
            after[to as usize] = most_after(best, to, asked, gain);
        }
    }
    after
}

// What a hit of a request adds.
fn gain_of(ask: &Ask, objective: Objective, is_past: bool) -> u128 {
    if ask.fills || !is_past {
        return 0;
    }
    match objective {
        Objective::Object => 1,
        Objective::Bytes => ask.size as u128,
    }
}

// The greatest score of all contents that the rules allow, by the sets of objects that may be held. In the end all may
// be dropped.
fn greatest(asks: &[Ask], objective: Objective, capacity: u64, warmup: u32) -> u128 {
    let mut best = [Some(0), None, None, None, None, None, None, None];
    for (t, ask) in asks.iter().enumerate() {
        let asked = 1 << (ask.object % 3);
        let gain = gain_of(ask, objective, t >= warmup as usize);
        best = all_after(asks, capacity, &best, asked, gain);
    }
    most_after(&best, 0, 0, 0).unwrap_or(0)
}

// The bound of the requests is no less than the greatest score, and equal to it if all sizes are equal.
fn check_bound(
    rt: &impl Abort,
    alloc: Global,
    asks: &[Ask],
    is_equal: bool,
    objective: Objective,
    capacity: u64,
    warmup: u32,
) {
    let trace = trace_of(rt, alloc, asks);
    let intervals = make(alloc, &trace, capacity, objective, warmup).expect(rt, "memory");
    let (upper, denominator) = upper_of(rt, alloc, &intervals, capacity);
    drop(intervals);
    drop(trace);
    let most = greatest(asks, objective, capacity, warmup);
    let most = most.wrapping_mul(denominator as u128);
    holds((capacity, warmup), upper >= most).expect(rt, "a bound");
    if is_equal {
        same((capacity, warmup), upper, most).expect(rt, "a bound that is reached");
    }
}

// The same for warm-ups of 0 to 2 requests and both objectives.
fn check_warmups(rt: &impl Abort, alloc: Global, asks: &[Ask], is_equal: bool, capacity: u64) {
    for warmup in 0..3 {
        check_bound(
            rt,
            alloc,
            asks,
            is_equal,
            Objective::Object,
            capacity,
            warmup,
        );
        check_bound(
            rt,
            alloc,
            asks,
            is_equal,
            Objective::Bytes,
            capacity,
            warmup,
        );
    }
}

// The same for capacities from 1 to 5.
fn check_capacities(rt: &impl Abort, alloc: Global, asks: &[Ask], is_equal: bool) {
    for capacity in 1..6 {
        check_warmups(rt, alloc, asks, is_equal, capacity);
    }
}

// The same for the traces of a row.
fn check_traces(rt: &impl Abort, alloc: Global, row: &(u32, u64, bool, u32)) {
    let (_, _, is_equal, traces) = *row;
    for first in 0..traces {
        let asks = made(rt, alloc, row, first);
        check_capacities(rt, alloc, &asks, is_equal);
    }
}

#[test]
fn bounds_hold_for_all_contents_of_tiny_traces(rt: HostRuntime) {
    for row in &MADE {
        check_traces(&rt, rt.alloc(), row);
    }
}

// A set of an object of size 1, which only fills, and a get of it.
const SET: Ask = Ask {
    object: 0,
    size: 1,
    fills: true,
};

const GET: Ask = Ask {
    fills: false,
    ..SET
};

// The same of another object.
const OTHER_SET: Ask = Ask { object: 1, ..SET };

const OTHER_GET: Ask = Ask { object: 1, ..GET };

const SETS: [Ask; 5] = [SET, GET, OTHER_SET, OTHER_GET, GET];

// The same requests without those that only fill.
const GETS: [Ask; 3] = [GET, OTHER_GET, GET];

// The bound over its denominator, at capacity 1.
fn bound_at_one(rt: &impl Abort, alloc: Global, asks: &[Ask]) -> (u128, u64) {
    let trace = trace_of(rt, alloc, asks);
    let intervals = make(alloc, &trace, 1, Objective::Object, 0).expect(rt, "memory");
    let found = upper_of(rt, alloc, &intervals, 1);
    drop(intervals);
    drop(trace);
    found
}

// Held after its set each object is hit by its get: two hits. Without the sets only the last get can hit. Worked out
// by hand.
#[test]
fn a_trace_without_its_fills_is_bounded_too_low(rt: HostRuntime) {
    let most = greatest(&SETS, Objective::Object, 1, 0);
    same("a schedule", most, 2).expect(&rt, "a row");
    same("with marks", bound_at_one(&rt, rt.alloc(), &SETS), (2, 1)).expect(&rt, "a row");
    same(
        "without fills",
        bound_at_one(&rt, rt.alloc(), &GETS),
        (1, 1),
    )
    .expect(&rt, "a row");
}
