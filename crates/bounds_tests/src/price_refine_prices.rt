//! Prices of small traces, refined.
ghost use Rattle.std.specs.Prelude.{◌≡◌, ◌≤◌, ◌^◌, length};

use crate::helpers::{CYCLE, intervals_of};
use cache_rules::Objective;
use compared::{holds, same};
use interval_maker::Intervals;
use price_refine::{Refined, refine};
use relaxation::Sums;
use std::alloc::Global;
use std::process::Abort;

// Requests by id and size, with prices over a denominator, and what they become by blocks of a width.
#[derive(Clone, Copy)]
struct Row<'a> {
    shows: &'a str,
    width: u32,
    prices: [u128; 6],
    want: [u128; 6],
    upper: u128,
}

// Three intervals of one gain over three steps each, with one unit over denominator 1. A Python search over all prices
// of a block up to 2, block after block until no bound falls, found these, and that no other prices of the blocks that
// it changed are as good.
const ROWS: [Row<'static>; 6] = [
    Row {
        shows: "single steps from nothing",
        width: 1,
        prices: [0; 6],
        want: [0, 1, 0, 0, 0, 0],
        upper: 2,
    },
    Row {
        shows: "two steps from nothing",
        width: 2,
        prices: [0; 6],
        want: [0, 0, 1, 0, 0, 0],
        upper: 1,
    },
    Row {
        shows: "three steps from nothing",
        width: 3,
        prices: [0; 6],
        want: [0, 0, 1, 0, 0, 0],
        upper: 1,
    },
    Row {
        shows: "three steps from settled prices",
        width: 3,
        prices: [1, 0, 0, 1, 0, 0],
        want: [1, 0, 0, 1, 0, 0],
        upper: 2,
    },
    Row {
        shows: "all steps from these",
        width: 100,
        prices: [1, 0, 0, 1, 0, 0],
        want: [0, 0, 1, 0, 0, 0],
        upper: 1,
    },
    Row {
        shows: "all steps from great prices",
        width: u32::MAX,
        prices: [1 << 124, 0, 0, 1 << 125, 0, 0],
        want: [0, 0, 1, 0, 0, 0],
        upper: 1,
    },
];

// The prices refined by blocks of the width, in units of one byte.
fn refined(
    rt: &impl Abort,
    alloc: Global,
    intervals: &Intervals,
    units: u64,
    denominator: u64,
    width: u32,
    prices: &[u128],
) -> Refined
    requires units { (1 ≤ units) × (units ≤ 2 ^ 56) }
    requires denominator { (1 ≤ denominator) × (denominator ≤ 2 ^ 48) }
    requires width { 1 ≤ width }
{
    let steps = intervals.steps() as usize;
    let last = prices.last().copied();
    holds("a price of each step", prices.len() == steps).expect(rt, "a row");
    holds("no last price", last == Some(0)).expect(rt, "a row");
    let _sums = Sums::new(alloc, prices, units).expect(rt, "a sum within the limit");
    refine(alloc, intervals, 1, units, denominator, width, prices).expect(rt, "memory")
}

#[test]
fn settles_the_blocks_of_each_width(rt: HostRuntime) {
    let intervals = intervals_of(&rt, rt.alloc(), &CYCLE, 1, Objective::Object);
    for row in &ROWS {
        holds(row.shows, row.width >= 1).expect(&rt, "a row");
        let found = refined(&rt, rt.alloc(), &intervals, 1, 1, row.width, &row.prices);
        same(row.shows, found.prices(), row.want.as_slice()).expect(&rt, "a row");
        same(row.shows, found.upper(), row.upper).expect(&rt, "a row");
    }
    drop(intervals);
}

// Three intervals of sizes 2, 1 and 3, all over step 2, where there are three units: two hits fit. In rounds the
// bound of these prices falls by 3 of 7 * 10^14 each.
#[test]
fn does_not_creep(rt: HostRuntime) {
    let requests = [[1, 2], [2, 1], [3, 3], [1, 2], [2, 1], [3, 3]];
    let intervals = intervals_of(&rt, rt.alloc(), &requests, 3, Objective::Object);
    let dear = 31274997412295;
    let prices = [dear, dear, dear, dear, dear, 0];
    let found = refined(&rt, rt.alloc(), &intervals, 3, 1 << 48, 3, &prices);
    same("the bound", found.upper(), 2 << 48).expect(&rt, "a row");
    drop(intervals);
}
