//! Small instances by windows. The numbers were worked out by hand.
ghost use Rattle.std.specs.Prelude.{◌≡◌, ◌≤◌};
ghost use Rattle.flow_model.specs.Instances.{IsInstance};

use crate::helpers::{THREE_ARCS, arc};
use bound_base::NoMemory;
use compared::{holds, same};
use relaxation::{Instance, OuterArc};
use std::alloc::Global;
use window_bounds::{WindowSolution, solve_windows};

fn solved(
    alloc: Global,
    steps: u32,
    units: u64,
    arcs: &[OuterArc],
    width: u32,
) -> Result<WindowSolution, NoMemory>
    requires instance { IsInstance (record { steps = steps; units = units; arcs = arcs.now }) }
    requires width { 1 ≤ width }
{
    let whole = Instance::from_arcs(alloc, steps, units, arcs)?;
    solve_windows(alloc, &whole, width)
}

// Three arcs of three steps, of which two fit over step 2. In one window that step has the price of the third.
#[test]
fn one_window_prices_the_narrow_step(rt: HostRuntime) {
    for width in [6, 7, u32::MAX] {
        let found = solved(rt.alloc(), 6, 2, &THREE_ARCS, width).expect(&rt, "memory");
        let prices = found.prices();
        same(width, prices, [0, 0, 1, 0, 0, 0].as_slice()).expect(&rt, "a row");
        let flow = found.flows().iter().filter(|flow| **flow == 1).count();
        same(width, flow, 2).expect(&rt, "a row");
    }
}

// In windows of three steps no step of the first has a price: the second and third arc cost nothing in it.
#[test]
fn narrow_windows_price_less(rt: HostRuntime) {
    let found = solved(rt.alloc(), 6, 2, &THREE_ARCS, 3).expect(&rt, "memory");
    same("prices", found.prices().len(), 6).expect(&rt, "a row");
    for (step, price) in found.prices().iter().enumerate() {
        holds(step, step == 3 || *price == 0).expect(&rt, "a row");
    }
    same("a flow", found.flows().first().copied(), Some(1)).expect(&rt, "a row");
    same("its flag", found.full().first().copied(), Some(true)).expect(&rt, "a row");
}

// The first arc has room in its first window, and in its second one the other arc earns more.
#[test]
fn flow_is_the_least_of_its_parts(rt: HostRuntime) {
    let arcs = [arc(0, 4, 1, 10), arc(2, 4, 1, 20)];
    let found = solved(rt.alloc(), 4, 1, &arcs, 2).expect(&rt, "memory");
    same("flows", found.flows(), [0, 1].as_slice()).expect(&rt, "a row");
    same("flags", found.full(), [false, true].as_slice()).expect(&rt, "a row");
}

// Three arcs pass through all windows, and one is in the second alone. There the second arc has no flow, since the
// other earns more. In the others it has a part, so the price of each is what it earns there.
#[test]
fn an_arc_with_a_part_prices_the_windows_that_it_passes(rt: HostRuntime) {
    let arcs = [
        arc(0, 8, 2, 80),
        arc(0, 8, 2, 40),
        arc(0, 8, 2, 16),
        arc(2, 4, 1, 15),
    ];
    let found = solved(rt.alloc(), 8, 3, &arcs, 2).expect(&rt, "memory");
    same("flows", found.flows(), [2, 0, 0, 1].as_slice()).expect(&rt, "a row");
    let full = [true, false, false, true];
    same("flags", found.full(), full.as_slice()).expect(&rt, "a row");
    for (window, prices) in found.prices().chunks(2).enumerate() {
        let price = prices
            .iter()
            .fold(0, |sum: u128, price| sum.saturating_add(*price));
        holds(window, window == 1 || price == 10).expect(&rt, "a row");
    }
}

#[test]
fn no_step_has_no_price(rt: HostRuntime) {
    let found = solved(rt.alloc(), 0, 1, &[], 1).expect(&rt, "memory");
    let counts = [found.prices().len(), found.flows().len()];
    same("counts", counts, [0, 0]).expect(&rt, "a row");
}
