//! Schedules of small traces, rounded by hand.
ghost use Rattle.std.specs.Prelude.{◌≡◌, false, replicate, IfOk};

use crate::helpers::intervals_of;
use bound_base::NoMemory;
use cache_rules::Objective;
use compared::same;
use interval_maker::Intervals;
use schedule_round::{Keeps, round};
use std::alloc::Global;
use std::process::Abort;

// Requests by id and size, and what is kept of them with no flags where each hit counts one.
#[derive(Drop)]
struct Row<'a> {
    shows: &'a str,
    requests: &'a [[u64; 2]],
    capacity: u64,
    keeps: &'a [bool],
}

// Worked out by hand.
const ROWS: [Row<'static>; 5] = [
    Row {
        shows: "rank 1 before rank 9",
        requests: &[[1, 3], [2, 1], [2, 1], [1, 3]],
        capacity: 3,
        keeps: &[false, true, false, false],
    },
    Row {
        shows: "rank 2 of size 2 before rank 3 of size 1",
        requests: &[[1, 1], [2, 2], [2, 2], [1, 1]],
        capacity: 2,
        keeps: &[false, true, false, false],
    },
    Row {
        shows: "two of three of one rank, by start",
        requests: &[[1, 1], [2, 1], [3, 1], [1, 1], [2, 1], [3, 1]],
        capacity: 2,
        keeps: &[true, true, false, false, false, false],
    },
    Row {
        shows: "of one rank the first start, which has the last end",
        requests: &[[1, 1], [2, 2], [3, 1], [2, 2], [1, 1]],
        capacity: 2,
        keeps: &[true, false, false, false, false],
    },
    Row {
        shows: "no request",
        requests: &[],
        capacity: 1,
        keeps: &[],
    },
];

fn no_flags(alloc: Global, count: usize) -> Result<Vec<bool>, NoMemory>
    ensures { IfOk result (λ flags. flags.items ≡ replicate count false) }
{
    Ok(vec![in alloc; false; count]?)
}

fn keeps_of(alloc: Global, intervals: &Intervals, capacity: u64) -> Result<Keeps, NoMemory> {
    let full = no_flags(alloc, intervals.as_slice().len())?;
    round(alloc, intervals, capacity, &full)
}

fn keeps_of_row(rt: &impl Abort, alloc: Global, row: &Row<'_>) -> Keeps {
    let intervals = intervals_of(rt, alloc, row.requests, row.capacity, Objective::Object);
    let keeps = keeps_of(alloc, &intervals, row.capacity).expect(rt, "memory");
    drop(intervals);
    keeps
}

#[test]
fn takes_what_fits_in_order_of_rank(rt: HostRuntime) {
    for row in &ROWS {
        let keeps = keeps_of_row(&rt, rt.alloc(), row);
        same(row.shows, keeps.as_slice(), row.keeps).expect(&rt, "a row");
    }
}
