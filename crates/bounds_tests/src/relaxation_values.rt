//! The calls over small traces, with what was worked out by hand.
ghost use Rattle.std.specs.Prelude.{◌≡◌, ◌≤◌, ◌^◌, length, true};
ghost use Rattle.relaxation.specs.Denominators.{IsChoice};

use crate::helpers::{CYCLE, arc, intervals_of_sizes, intervals_past};
use bound_base::NoMemory;
use cache_rules::Objective;
use compared::{holds, same};
use interval_maker::Intervals;
use relaxation::{
    DenominatorChoice, DenominatorLimit, FlowFault, Instance, PriceFault, Sums, bound_of,
    denominator_for, flow_value, instance, unit_of, value_of_schedule,
};
use std::alloc::Global;
use std::process::Abort;

// A capacity at which each interval fits.
const LARGEST: u64 = 1 << 56;

const HITS: Objective = Objective::Object;

const UNITS: [(&[u64], u64); 4] = [
    (&[12, 18, 12, 18], 6),
    (&[5, 7, 5], 5),
    (&[5, 7], 1),
    (&[1 << 48, 1 << 48], 1 << 48),
];

#[test]
fn weighs_by_the_greatest_divisor(rt: HostRuntime) {
    for (sizes, want) in &UNITS {
        let intervals = intervals_of_sizes(&rt, rt.alloc(), sizes, LARGEST, HITS);
        same(*sizes, unit_of(&intervals), *want).expect(&rt, "a row");
        drop(intervals);
    }
}

const HALF: u128 = 1 << 125;

const SUMS: [(&[u128], u64, Option<u32>); 5] = [
    (&[HALF, HALF], 1, None),
    (&[HALF, HALF, 1], 1, Some(2)),
    (&[HALF, 0, 0], 3, Some(0)),
    (&[u128::MAX, 0], 1, Some(0)),
    (&[], 1 << 56, None),
];

// The step at which the sum passes its limit. u32::MAX if memory runs out.
fn limit_step(rt: &impl Abort, alloc: Global, prices: &[u128], units: u64) -> Option<u32> {
    holds(units, prices.len() <= 3 && units >= 1).expect(rt, "a row");
    match Sums::new(alloc, prices, units) {
        Ok(_) => None,
        Err(PriceFault::SumLimit { step }) => Some(step),
        Err(PriceFault::NoMemory) => Some(u32::MAX),
    }
}

#[test]
fn sums_no_further_than_the_limit(rt: HostRuntime) {
    for (prices, units, want) in &SUMS {
        let step = limit_step(&rt, rt.alloc(), prices, *units);
        same((*prices, *units), step, *want).expect(&rt, "a row");
    }
}

// The denominator of a choice over the intervals of a trace of these sizes.
#[derive(Drop)]
struct Row<'a> {
    sizes: &'a [u64],
    objective: Objective,
    choice: DenominatorChoice,
    want: Result<(u64, bool), DenominatorLimit>,
}

// Sizes 2 and 3 by turns, whose weights are themselves: each interval covers two steps.
const BY_TURNS: [u64; 4] = [2, 3, 2, 3];

// The least common multiple of 65536, 59049 and 78125 is 302330880000000, and 2^48 is less.
const LARGE: [u64; 6] = [65536, 65536, 59049, 59049, 78125, 78125];

const DENOMINATORS: [Row<'static>; 5] = [
    Row {
        sizes: &BY_TURNS,
        objective: HITS,
        choice: DenominatorChoice::Exact,
        want: Ok((6, true)),
    },
    Row {
        sizes: &BY_TURNS,
        objective: HITS,
        choice: DenominatorChoice::Given(4),
        want: Ok((4, false)),
    },
    Row {
        sizes: &LARGE,
        objective: HITS,
        choice: DenominatorChoice::Exact,
        want: Err(DenominatorLimit { intervals: 3 }),
    },
    Row {
        sizes: &LARGE,
        objective: HITS,
        choice: DenominatorChoice::Auto,
        want: Ok((1 << 48, false)),
    },
    Row {
        sizes: &LARGE,
        objective: Objective::Bytes,
        choice: DenominatorChoice::Auto,
        want: Ok((1, true)),
    },
];

fn is_choice(choice: DenominatorChoice) -> bool
    ensures { result ≡ true → IsChoice choice }
{
    match choice {
        DenominatorChoice::Given(number) => number >= 1 && number <= 1 << 48,
        _ => true,
    }
}

fn denominator_of(
    intervals: &Intervals,
    choice: DenominatorChoice,
) -> Result<(u64, bool), DenominatorLimit>
    requires { IsChoice choice }
{
    let found = denominator_for(intervals, 1, choice)?;
    Ok((found.value, found.exact))
}

#[test]
fn denominator_is_within_its_limit(rt: HostRuntime) {
    for row in &DENOMINATORS {
        let intervals = intervals_of_sizes(&rt, rt.alloc(), row.sizes, LARGEST, row.objective);
        holds(row.sizes, is_choice(row.choice)).expect(&rt, "a row");
        let found = denominator_of(&intervals, row.choice);
        same(row.sizes, found, row.want).expect(&rt, "a row");
        drop(intervals);
    }
}

#[test]
fn bounds_are_over_the_denominator(rt: HostRuntime) {
    let intervals = intervals_of_sizes(&rt, rt.alloc(), &BY_TURNS, LARGEST, HITS);
    holds("four steps", intervals.steps() == 4).expect(&rt, "a row");
    let sums = Sums::new(rt.alloc(), &[0, 2, 0, 0], 4).expect(&rt, "memory");
    same("the bound", bound_of(&intervals, 1, 4, 6, &sums), 10).expect(&rt, "a row");
    let known = Sums::within_limit(rt.alloc(), &[0, 2, 0, 0], 4).expect(&rt, "memory");
    same("of known sums", bound_of(&intervals, 1, 4, 6, &known), 10).expect(&rt, "a row");
    drop(intervals);
}

#[test]
fn bounds_past_a_warmup_count_one_interval(rt: HostRuntime) {
    let intervals = intervals_past(&rt, rt.alloc(), &CYCLE, 2, HITS, 5);
    holds("six steps", intervals.steps() == 6).expect(&rt, "a row");
    let sums = Sums::new(rt.alloc(), &[0, 0, 0, 0, 0, 0], 2).expect(&rt, "memory");
    same("the bound", bound_of(&intervals, 1, 2, 1, &sums), 1).expect(&rt, "a row");
    drop(intervals);
}

const FLOWS: [([u64; 2], Result<u128, FlowFault>); 4] = [
    ([2, 2], Ok(10)),
    ([3, 9], Err(FlowFault::AboveWeight { interval: 0 })),
    ([1, 4], Err(FlowFault::AboveWeight { interval: 1 })),
    ([2, 3], Err(FlowFault::Overfull { step: 1, load: 5 })),
];

// The value of flows that are tested first. That of flows that pass is the same where they aren't tested.
fn value_of(rt: &impl Abort, intervals: &Intervals, flows: &[u64]) -> Result<u128, FlowFault>
    requires { length flows.now ≡ length intervals.now.items }
{
    let value = flow_value(intervals, 1, 4, 6, flows)?;
    same(value, value_of_schedule(intervals, 1, 6, flows), value).expect(rt, "a row");
    Ok(value)
}

#[test]
fn values_are_over_the_denominator(rt: HostRuntime) {
    let intervals = intervals_of_sizes(&rt, rt.alloc(), &BY_TURNS, LARGEST, HITS);
    holds("two intervals", intervals.as_slice().len() == 2).expect(&rt, "a row");
    for (flows, want) in &FLOWS {
        let value = value_of(&rt, &intervals, flows);
        same(*flows, value, *want).expect(&rt, "a row");
    }
    drop(intervals);
}

fn whole_over(alloc: Global, intervals: &Intervals, denominator: u64) -> Result<Instance, NoMemory>
    requires { (1 ≤ denominator) × (denominator ≤ 2 ^ 48) }
{
    instance(alloc, intervals, 1, 4, denominator)
}

// Sizes 2 and 3 by turns: the costs are 6 / 2 and 6 / 3, and over 4 the second is 4 / 3, rounded up.
#[test]
fn has_an_arc_for_each_interval(rt: HostRuntime) {
    let intervals = intervals_of_sizes(&rt, rt.alloc(), &BY_TURNS, LARGEST, HITS);
    for (denominator, cost) in [(6, 3), (4, 2)] {
        let whole = whole_over(rt.alloc(), &intervals, denominator).expect(&rt, "memory");
        same(denominator, (whole.steps(), whole.units()), (4, 4)).expect(&rt, "a row");
        let arcs = [arc(0, 2, 2, cost), arc(1, 3, 3, 2)];
        same(denominator, whole.arcs(), arcs.as_slice()).expect(&rt, "a row");
    }
    drop(intervals);
}
