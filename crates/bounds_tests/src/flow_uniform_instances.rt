//! Small instances in which all arcs that cost something cost the same, solved in both ways.
ghost use Rattle.std.specs.Prelude.{◌≡◌, ◌≤◌, All, IsTrue};
ghost use Rattle.flow_model.specs.Instances.{IsArc};

use compared::{holds, same};
use flow_model::{Instance, OuterArc, Solution};
use flow_solver::Solver;
use flow_uniform::{Solver as UniformSolver, common_cost};
use flow_windows::Windows;
use std::alloc::Global;
use std::process::Abort;

// What is tried; steps, units, the start, end, weight and cost of each arc; and the value, worked out by hand.
const CASES: [(&str, u32, u64, &[[u64; 4]], u128); 12] = [
    ("no steps", 0, 1, &[], 0),
    ("no arcs", 5, 3, &[], 0),
    ("one arc that fits", 2, 1, &[[0, 1, 1, 5]], 5),
    (
        "parallel arcs, one too many",
        3,
        2,
        &[[0, 2, 1, 4], [0, 2, 1, 4], [0, 2, 1, 4]],
        8,
    ),
    (
        "ties of starts and ends",
        4,
        2,
        &[[0, 2, 1, 1], [1, 2, 1, 1], [0, 3, 1, 1], [1, 3, 1, 1]],
        2,
    ),
    ("an arc wider than the units", 3, 2, &[[0, 2, 5, 3]], 6),
    (
        "a wide arc over another",
        4,
        3,
        &[[0, 3, 7, 2], [1, 2, 2, 2]],
        6,
    ),
    (
        "an arc of cost 0",
        3,
        1,
        &[[0, 3, 1, 0], [0, 1, 1, 2], [1, 3, 1, 2]],
        4,
    ),
    (
        "only arcs of cost 0",
        2,
        1,
        &[[0, 2, 1, 0], [1, 2, 4, 0]],
        0,
    ),
    (
        "steps without arcs",
        9,
        1,
        &[[1, 3, 1, 7], [6, 8, 1, 7]],
        14,
    ),
    (
        "many arcs at the first and the last node",
        3,
        2,
        &[
            [0, 3, 1, 1],
            [0, 3, 1, 1],
            [0, 3, 2, 1],
            [0, 1, 1, 1],
            [1, 3, 1, 1],
            [2, 3, 1, 1],
        ],
        3,
    ),
    (
        "short arcs beside a long one",
        4,
        1,
        &[
            [0, 4, 1, 6],
            [0, 1, 1, 6],
            [1, 2, 1, 6],
            [2, 3, 1, 6],
            [3, 4, 1, 6],
        ],
        24,
    ),
];

fn fits(steps: u32, arc: &OuterArc) -> bool
    ensures { IsTrue result → IsArc steps arc.now }
{
    arc.start < arc.end
        && arc.end <= steps
        && arc.weight > 0
        && arc.weight <= 1 << 48
        && arc.cost <= 1 << 97
}

/// Whether the arcs are in their ranges.
pub fn all_fit(steps: u32, arcs: &[OuterArc]) -> bool
    ensures { IsTrue result → All (IsArc steps) arcs.now }
{
    for arc in arcs {
        if !fits(steps, arc) {
            return false;
        }
    }
    true
}

/// The instance of arcs by start, end, weight and cost.
pub fn instance_of(
    rt: &impl Abort,
    alloc: Global,
    steps: u32,
    units: u64,
    rows: &[[u64; 4]],
) -> Instance {
    let mut arcs = Vec::new(alloc);
    for row in rows {
        let [start, end, weight, cost] = *row;
        holds(*row, start < 100 && end < 100).expect(rt, "a row");
        let arc = OuterArc {
            start: start as u32,
            end: end as u32,
            weight,
            cost: cost as u128,
        };
        arcs.push(arc).expect(rt, "memory");
    }
    holds(
        steps,
        steps < 100 && arcs.len() < 100 && all_fit(steps, &arcs),
    )
    .expect(rt, "a row");
    holds(units, units > 0 && units < 100).expect(rt, "a row");
    Instance::from_arcs(alloc, steps, units, &arcs).expect(rt, "memory")
}

// The prices of the steps that the arc covers, summed.
fn price_over(prices: &[u128], arc: &OuterArc) -> u128 {
    let mut sum = 0;
    for step in arc.start..arc.end {
        if let Some(price) = prices.get(step as usize) {
            sum = u128::wrapping_add(sum, *price);
        }
    }
    sum
}

// The value at the prices.
fn worth(instance: &Instance, prices: &[u128]) -> u128 {
    let mut sum = 0;
    for price in prices {
        sum = u128::wrapping_add(sum, price.wrapping_mul(instance.units() as u128));
    }
    for arc in instance.arcs() {
        let surplus = arc.cost.saturating_sub(price_over(prices, arc));
        sum = u128::wrapping_add(sum, surplus.wrapping_mul(arc.weight as u128));
    }
    sum
}

// What the flows earn.
fn earned(instance: &Instance, flows: &[u64]) -> u128 {
    let mut sum = 0;
    for (arc, flow) in instance.arcs().iter().zip(flows) {
        sum = u128::wrapping_add(sum, arc.cost.wrapping_mul(*flow as u128));
    }
    sum
}

/// The value at the prices, and what the flows earn.
pub fn values(instance: &Instance, solution: &Solution) -> [u128; 2] {
    [
        worth(instance, solution.prices()),
        earned(instance, solution.flows()),
    ]
}

// Solves the instance in both ways, and compares the values of their prices and flows. It answers the value, or none
// where the costs differ.
fn solve_both(rt: &impl Abort, alloc: Global, name: &str, instance: &Instance) -> Option<u128> {
    let cost = common_cost(instance)?;
    let alone = {
        let solver = UniformSolver::new(alloc, instance, cost).expect(rt, "memory");
        values(instance, &solver.solve())
    };
    let by_paths = {
        let solver = Solver::new(alloc, instance).expect(rt, "memory");
        values(instance, &solver.solve())
    };
    same(name, alone, by_paths).expect(rt, "a row");
    same(name, alone[0], alone[1]).expect(rt, "a row");
    Some(alone[0])
}

// Solves the windows of that width in both ways.
fn solve_windows(rt: &impl Abort, alloc: Global, name: &str, whole: &Instance, width: u32)
    requires { 1 ≤ width }
{
    let mut windows = Windows::new(alloc, whole, width).expect(rt, "memory");
    while windows.has_step() {
        let window = windows.instance(alloc).expect(rt, "memory");
        let _ = solve_both(rt, alloc, name, &window);
        windows.advance();
    }
}

#[test]
fn both_solvers_find_the_value(rt: HostRuntime) {
    let alloc = rt.alloc();
    for (name, steps, units, rows, value) in &CASES {
        let instance = instance_of(&rt, alloc, *steps, *units, *rows);
        let found = solve_both(&rt, alloc, *name, &instance);
        same(*name, found, Some(*value)).expect(&rt, "a row");
    }
}

// The windows of those instances, as far as their parts cost nothing or one cost.
#[test]
fn both_solvers_find_the_value_of_each_window(rt: HostRuntime) {
    let alloc = rt.alloc();
    for (name, steps, units, rows, _) in &CASES {
        let whole = instance_of(&rt, alloc, *steps, *units, *rows);
        for width in 1..4 {
            solve_windows(&rt, alloc, *name, &whole, width);
        }
    }
}

#[test]
fn differing_costs_are_none(rt: HostRuntime) {
    let rows = [[0, 2, 1, 4], [1, 3, 1, 5]];
    let instance = instance_of(&rt, rt.alloc(), 3, 1, &rows);
    same("two costs", common_cost(&instance), None).expect(&rt, "a row");
}
