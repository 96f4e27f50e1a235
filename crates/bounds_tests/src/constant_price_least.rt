//! The least constant prices of small traces.
use crate::helpers::intervals_of;
use cache_rules::Objective;
use compared::{holds, same};
use constant_price::least;
use std::alloc::Global;
use std::process::Abort;

// Requests by id and size, how their bound is made, and its least price.
#[derive(Clone, Copy)]
struct Row<'a> {
    shows: &'a str,
    requests: &'a [[u64; 2]],
    capacity: u64,
    objective: Objective,
    unit: u64,
    denominator: u64,
    price: u128,
}

// Three intervals over three of five priced steps each, with one unit. Worked out by hand: while they are worth
// more than they pay, the next price adds 5 and takes away 9.
const THREE: Row<'static> = Row {
    shows: "three intervals over 1",
    requests: &[[1, 1], [2, 1], [3, 1], [1, 1], [2, 1], [3, 1]],
    capacity: 1,
    objective: Objective::Object,
    unit: 1,
    denominator: 1,
    price: 0,
};

const WHILE_THEY_PAY: [Row<'static>; 5] = [
    THREE,
    Row {
        shows: "three intervals over 2",
        denominator: 2,
        price: 1,
        ..THREE
    },
    Row {
        shows: "three intervals over 3",
        denominator: 3,
        price: 1,
        ..THREE
    },
    Row {
        shows: "three intervals over 6",
        denominator: 6,
        price: 2,
        ..THREE
    },
    Row {
        shows: "three intervals over 2^48",
        denominator: 1 << 48,
        price: 93824992236885,
        ..THREE
    },
];

const SIZE: u64 = 1 << 48;

// The first is a third of 2^96, rounded down. In the second price 1 gives 14, and price 0 gives 12. In the third the
// prices 0 to 4 give the bounds 24, 21, 18, 18 and 22. In the fourth the ids 1 to 4 have the sizes 8, 2, 2 and 6: a
// program that tries every price found the bound 420 at price 6 alone.
const OTHERS: [Row<'static>; 6] = [
    Row {
        shows: "the same with sizes and gains of 2^48",
        requests: &[
            [1, SIZE],
            [2, SIZE],
            [3, SIZE],
            [1, SIZE],
            [2, SIZE],
            [3, SIZE],
        ],
        capacity: SIZE,
        objective: Objective::Bytes,
        unit: SIZE,
        denominator: SIZE,
        price: 26409387504754779197847983445,
    },
    Row {
        shows: "no price is least where room is dear",
        requests: &[[1, 2], [2, 3], [1, 2], [2, 3]],
        capacity: 4,
        denominator: 6,
        price: 0,
        ..THREE
    },
    Row {
        shows: "the lesser of two that are equal",
        requests: &[[1, 2], [2, 2], [1, 2], [1, 2], [2, 2], [1, 2]],
        capacity: 2,
        unit: 2,
        denominator: 6,
        price: 2,
        ..THREE
    },
    Row {
        shows: "sizes in units",
        requests: &[
            [1, 8],
            [4, 6],
            [1, 8],
            [2, 2],
            [1, 8],
            [4, 6],
            [4, 6],
            [3, 2],
            [1, 8],
            [3, 2],
            [3, 2],
        ],
        capacity: 8,
        objective: Objective::Bytes,
        unit: 2,
        denominator: 12,
        price: 6,
    },
    Row {
        shows: "no request",
        requests: &[],
        denominator: 1 << 48,
        price: 0,
        ..THREE
    },
    Row {
        shows: "no step with a price",
        requests: &[[1, 1]],
        denominator: 1 << 48,
        price: 0,
        ..THREE
    },
];

fn least_of(rt: &impl Abort, alloc: Global, row: &Row<'_>) -> u128 {
    let intervals = intervals_of(rt, alloc, row.requests, row.capacity, row.objective);
    holds(row.shows, row.unit >= 1 && row.denominator <= 1 << 48).expect(rt, "a row");
    let units = row.capacity / row.unit;
    let price = least(&intervals, row.unit, units, row.denominator);
    drop(intervals);
    price
}

fn check_all(rt: &impl Abort, alloc: Global, rows: &[Row<'_>]) {
    for row in rows {
        let price = least_of(rt, alloc, row);
        same(row.shows, price, row.price).expect(rt, "a row");
    }
}

#[test]
fn grows_while_the_intervals_pay(rt: HostRuntime) {
    check_all(&rt, rt.alloc(), &WHILE_THEY_PAY);
}

#[test]
fn finds_the_least_of_each_shape(rt: HostRuntime) {
    check_all(&rt, rt.alloc(), &OTHERS);
}
