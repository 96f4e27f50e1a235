//! Small instances, solved.
ghost use Rattle.std.specs.Prelude.{◌≡◌};
ghost use Rattle.flow_model.specs.Instances.{IsInstance};

use crate::helpers::{THREE_ARCS, arc};
use bound_base::NoMemory;
use compared::same;
use flow_solver::{Solution, Solver};
use relaxation::{Instance, OuterArc};
use std::alloc::Global;

fn solved(alloc: Global, steps: u32, units: u64, arcs: &[OuterArc]) -> Result<Solution, NoMemory>
    requires { IsInstance (record { steps = steps; units = units; arcs = arcs.now }) }
{
    let instance = Instance::from_arcs(alloc, steps, units, arcs)?;
    Ok(Solver::new(alloc, &instance)?.solve())
}

// What the flows earn.
fn earned(arcs: &[OuterArc], flows: &[u64]) -> u128 {
    let mut sum = 0;
    for (arc, flow) in arcs.iter().zip(flows) {
        sum = u128::wrapping_add(sum, arc.cost.wrapping_mul(*flow as u128));
    }
    sum
}

// Three arcs of which two fit over step 2: its price is what the third would earn. Worked out by hand.
#[test]
fn prices_the_step_that_is_too_narrow(rt: HostRuntime) {
    let found = solved(rt.alloc(), 6, 2, &THREE_ARCS).expect(&rt, "memory");
    let want = [0, 0, 1, 0, 0, 0];
    same("prices", found.prices(), want.as_slice()).expect(&rt, "a row");
    let earned = earned(&THREE_ARCS, found.flows());
    same("what is earned", earned, 2).expect(&rt, "a row");
}

// The greater cost goes first, and the other arc gets the rest of the room. Worked out by hand.
#[test]
fn splits_the_room_by_cost(rt: HostRuntime) {
    let found = solved(rt.alloc(), 4, 4, &[arc(0, 2, 2, 3), arc(1, 3, 3, 2)]).expect(&rt, "memory");
    same("prices", found.prices(), [0, 2, 0, 0].as_slice()).expect(&rt, "a row");
    same("flows", found.flows(), [2, 2].as_slice()).expect(&rt, "a row");
}

// Units that went along the first arc are taken back for the other two. Worked out by hand.
#[test]
fn takes_back_what_went_along_an_arc(rt: HostRuntime) {
    let arcs = [arc(1, 3, 1, 5), arc(0, 2, 1, 4), arc(2, 4, 1, 4)];
    let found = solved(rt.alloc(), 4, 1, &arcs).expect(&rt, "memory");
    same("flows", found.flows(), [0, 1, 1].as_slice()).expect(&rt, "a row");
}

#[test]
fn solves_without_steps(rt: HostRuntime) {
    let found = solved(rt.alloc(), 0, 1, &[]).expect(&rt, "memory");
    let counts = [found.prices().len(), found.flows().len()];
    same("counts", counts, [0, 0]).expect(&rt, "a row");
}
