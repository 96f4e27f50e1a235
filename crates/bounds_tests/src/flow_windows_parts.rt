//! The windows of small instances, with parts that were worked out by hand.
ghost use Rattle.std.specs.Prelude.{◌≡◌, IfOk};

use crate::helpers::arc;
use bound_base::NoMemory;
use compared::{holds, same};
use flow_windows::Windows;
use relaxation::{Instance, OuterArc, window_instance};
use std::alloc::Global;

// Eleven steps. An arc over ten of them, two arcs of three steps, and one that begins late but comes first.
fn whole(alloc: Global) -> Result<Instance, NoMemory>
    ensures { IfOk result (λ i. (i.steps ≡ 11) × (i.units ≡ 2)) }
{
    let arcs = [
        arc(5, 7, 4, 3),
        arc(1, 11, 1, 9),
        arc(1, 4, 2, 1),
        arc(2, 5, 1, 1),
    ];
    Instance::from_arcs(alloc, 11, 2, &arcs)
}

// The number of a window, its steps and its arcs. The arc over ten steps has two in the first window and three in each
// of the next ones: 9 * 2 / 10 is 1, 9 * 3 / 10 is 2, and the last part costs the other 4.
const PARTS: [(u32, u32, &[OuterArc]); 3] = [
    (
        0,
        3,
        &[
            OuterArc {
                start: 1,
                end: 3,
                weight: 1,
                cost: 1,
            },
            OuterArc {
                start: 1,
                end: 3,
                weight: 2,
                cost: 0,
            },
            OuterArc {
                start: 2,
                end: 3,
                weight: 1,
                cost: 0,
            },
        ],
    ),
    (
        1,
        3,
        &[
            OuterArc {
                start: 2,
                end: 3,
                weight: 4,
                cost: 1,
            },
            OuterArc {
                start: 0,
                end: 3,
                weight: 1,
                cost: 2,
            },
            OuterArc {
                start: 0,
                end: 1,
                weight: 2,
                cost: 1,
            },
            OuterArc {
                start: 0,
                end: 2,
                weight: 1,
                cost: 1,
            },
        ],
    ),
    (
        3,
        2,
        &[OuterArc {
            start: 0,
            end: 2,
            weight: 1,
            cost: 4,
        }],
    ),
];

#[test]
fn shares_the_cost_and_leaves_the_rest_to_the_last(rt: HostRuntime) {
    let whole = whole(rt.alloc()).expect(&rt, "memory");
    for (number, steps, arcs) in &PARTS {
        holds(*number, *number < 4).expect(&rt, "a row");
        let part = window_instance(rt.alloc(), &whole, 3, *number).expect(&rt, "memory");
        same(*number, (part.steps(), part.units()), (*steps, 2)).expect(&rt, "a row");
        same(*number, part.arcs(), *arcs).expect(&rt, "a row");
    }
}

const NUMBERS: [&[u32]; 4] = [&[1, 2, 3], &[0, 1, 2, 3], &[0, 1], &[1]];

#[test]
fn goes_through_the_windows_in_order(rt: HostRuntime) {
    let alloc = rt.alloc();
    let whole = whole(alloc).expect(&rt, "memory");
    let mut windows = Windows::new(alloc, &whole, 3).expect(&rt, "memory");
    for numbers in &NUMBERS {
        holds(*numbers, windows.has_step()).expect(&rt, "a row");
        same(*numbers, windows.numbers(), *numbers).expect(&rt, "a row");
        let parts = windows.instance(alloc).expect(&rt, "memory");
        same(*numbers, parts.arcs().len(), numbers.len()).expect(&rt, "a row");
        windows.advance();
    }
    holds("the end", !windows.has_step()).expect(&rt, "a row");
}
