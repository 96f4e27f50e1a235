//! Instances whose costs differ, solved by paths and by opening steps.
ghost use Rattle.std.specs.Prelude.{◌≡◌, ◌≤◌};

use crate::flow_uniform_instances::{all_fit, instance_of, values};
use compared::{holds, same};
use flow_model::{Instance, OuterArc};
use flow_solver::Solver;
use flow_sparse::Solver as SparseSolver;
use flow_windows::Windows;
use std::alloc::Global;
use std::process::Abort;

// What is tried; steps, units, the start, end, weight and cost of each arc; and the value, worked out by hand.
const CASES: [(&str, u32, u64, &[[u64; 4]], u128); 11] = [
    ("no steps", 0, 1, &[], 0),
    ("no arcs", 5, 3, &[], 0),
    ("one arc that fits", 2, 1, &[[0, 1, 1, 5]], 5),
    (
        "the dearer of two arcs",
        4,
        4,
        &[[0, 2, 2, 3], [1, 3, 3, 2]],
        10,
    ),
    (
        "two short arcs for a dear one",
        4,
        1,
        &[[1, 3, 1, 5], [0, 2, 1, 4], [2, 4, 1, 4]],
        8,
    ),
    (
        "two short arcs for a long one",
        4,
        1,
        &[[0, 4, 1, 9], [0, 2, 1, 5], [2, 4, 1, 5]],
        10,
    ),
    (
        "a long arc for two short ones",
        4,
        1,
        &[[0, 4, 1, 11], [0, 2, 1, 5], [2, 4, 1, 5]],
        11,
    ),
    (
        "a part of an arc wider than the units",
        4,
        3,
        &[[0, 3, 5, 7], [1, 2, 2, 9]],
        25,
    ),
    (
        "an arc of cost 0",
        3,
        1,
        &[[0, 3, 1, 0], [0, 1, 1, 2], [1, 3, 1, 3]],
        5,
    ),
    (
        "three prices under one arc",
        6,
        1,
        &[[0, 6, 1, 10], [0, 2, 1, 4], [2, 4, 1, 4], [4, 6, 1, 4]],
        12,
    ),
    (
        "steps without arcs",
        9,
        1,
        &[[1, 3, 1, 7], [2, 3, 1, 8], [6, 8, 1, 3]],
        11,
    ),
];

// How many steps and arcs, how long an arc at most is, the units, and the first number of a row of numbers.
const MADE: [(u32, u32, u32, u64, u32); 8] = [
    (7, 9, 3, 2, 1),
    (20, 40, 9, 3, 2),
    (20, 40, 20, 12, 3),
    (60, 90, 12, 7, 4),
    (60, 90, 60, 20, 5),
    (700, 900, 40, 25, 6),
    (1400, 900, 300, 90, 7),
    (9000, 1200, 2500, 300, 8),
];

/// The next number of a row that is made: Numerical Recipes' generator.
pub fn next_of(number: u32) -> u32 {
    number.wrapping_mul(1664525).wrapping_add(1013904223)
}

// An instance of made arcs, with weights to 7 and costs to 63.
fn made(rt: &impl Abort, alloc: Global, row: &(u32, u32, u32, u64, u32)) -> Instance {
    let (steps, count, longest, units, first) = *row;
    let mut arcs = Vec::new(alloc);
    let mut number = first;
    for _ in 0..count {
        number = next_of(number);
        let start = (number >> 8) % steps.max(1);
        number = next_of(number);
        let end = start.saturating_add(1 + (number >> 8) % longest.max(1));
        number = next_of(number);
        let arc = OuterArc {
            start,
            end: end.min(steps),
            weight: 1 + (number >> 8) as u64 % 7,
            cost: 1 + (number >> 16) as u128 % 63,
        };
        arcs.push(arc).expect(rt, "memory");
    }
    holds(first, steps < 10000 && arcs.len() < 10000).expect(rt, "a row");
    holds(first, all_fit(steps, &arcs)).expect(rt, "a row");
    holds(first, units > 0 && units < 1000).expect(rt, "a row");
    Instance::from_arcs(alloc, steps, units, &arcs).expect(rt, "memory")
}

// Solves the instance in both ways, and compares the values of their prices and flows. It answers the value.
fn solve_both(rt: &impl Abort, alloc: Global, name: &str, instance: &Instance) -> u128 {
    let sparse = {
        let solver = SparseSolver::new(alloc, instance).expect(rt, "memory");
        values(instance, &solver.solve())
    };
    let by_paths = {
        let solver = Solver::new(alloc, instance).expect(rt, "memory");
        values(instance, &solver.solve())
    };
    same(name, sparse, by_paths).expect(rt, "a row");
    same(name, sparse[0], sparse[1]).expect(rt, "a row");
    sparse[0]
}

// Solves the windows of that width in both ways.
fn solve_windows(rt: &impl Abort, alloc: Global, name: &str, whole: &Instance, width: u32)
    requires { 1 ≤ width }
{
    let mut windows = Windows::new(alloc, whole, width).expect(rt, "memory");
    while windows.has_step() {
        let window = windows.instance(alloc).expect(rt, "memory");
        let _ = solve_both(rt, alloc, name, &window);
        windows.advance();
    }
}

#[test]
fn both_solvers_find_the_value(rt: HostRuntime) {
    let alloc = rt.alloc();
    for (name, steps, units, rows, value) in &CASES {
        let instance = instance_of(&rt, alloc, *steps, *units, *rows);
        let found = solve_both(&rt, alloc, *name, &instance);
        same(*name, found, *value).expect(&rt, "a row");
    }
}

// The last has more than 8,192 steps, so that blocks of 4,096 are settled before the whole.
#[test]
fn both_solvers_agree_on_made_arcs(rt: HostRuntime) {
    let alloc = rt.alloc();
    for row in &MADE {
        let instance = made(&rt, alloc, row);
        let _ = solve_both(&rt, alloc, "made arcs", &instance);
    }
}

#[test]
fn both_solvers_agree_on_each_window(rt: HostRuntime) {
    let alloc = rt.alloc();
    for (name, steps, units, rows, _) in &CASES {
        let whole = instance_of(&rt, alloc, *steps, *units, *rows);
        for width in 1..4 {
            solve_windows(&rt, alloc, *name, &whole, width);
        }
    }
    for row in &MADE {
        let whole = made(&rt, alloc, row);
        solve_windows(&rt, alloc, "made arcs", &whole, 50);
    }
}
