//! Prices of the steps and flows of the intervals, by the mode that is asked for.
ghost use Rattle.std.specs.Prelude.{◌≡◌, ◌≤◌, ◌<◌, ◌*◌, ◌-◌, ◌^◌, All, IfOk, false, length, replicate, slice_index_or, sum};
ghost use Prim.Native.Nat.{◌∣◌};
ghost use Rattle.cache_model.specs.Intervals.{bound_of};
ghost use Rattle.cache_model.specs.Schedules.{IsFractionalSchedule};
ghost use Rattle.constant_price.specs.Constants.{constant_bound, constant_prices};
ghost use Rattle.bound_terms.specs.declared.modes.Mode.TheVariants.{Flow};
ghost use Rattle.interval_maker.specs.Timelines.{IsTimeline};
ghost use Rattle.relaxation.specs.Prices.{most_paid};
ghost use Rattle.schedule_round.specs.Laws.{full_flags};
ghost use Rattle.bound_run.specs.BoundsMade.{IsOfMode, width_of};
ghost use Rattle.bound_words.specs.Ranges.{IsModeInRange};
ghost use Rattle.bound_run.specs.Relaxations.{IsRelaxed};

use crate::prices::PricesAndFlows;
use bound_base::NoMemory;
use bound_terms::{Mode, Window};
use bound_words::BoundSettings;
use constant_price::bound_at;
use flow_model::Solution;
use interval_maker::Intervals;
use relaxation::{Scale, Sums, bound_of, instance, value_of_schedule};
use std::alloc::Global;
use window_bounds::solve_windows;

/// Prices and flows, with what they are worth over the denominator: the bound of the prices, and the value of the flows.
/// For each interval it is said whether its flow is its whole weight, and the price of all steps but the last is named
/// if they have one.
#[derive(Drop)]
pub(crate) struct Relaxed {
    pub solution: PricesAndFlows,
    pub full: Vec<bool>,
    pub price: u128,
    pub upper: u128,
    pub flow: u128,
}

// One price and no flow, and so no full flow.
fn at_one_price(
    alloc: Global,
    intervals: &Intervals,
    scale: Scale,
    price: u128,
) -> Result<Relaxed, NoMemory>
    requires price { price ≤ 2 ^ 96 }
    requires paid { scale.units * sum (constant_prices price intervals.now.steps) ≤ 2 ^ 121 }
    ensures prices { IfOk result (λ r. r.solution.prices ≡ constant_prices price intervals.now.steps) }
    ensures flows { IfOk result (λ r. r.solution.flows ≡ replicate (length intervals.now.items) 0) }
    ensures full { IfOk result (λ r. r.full.items ≡ replicate (length intervals.now.items) false) }
    ensures price { IfOk result (λ r. r.price ≡ price) }
    ensures bound { IfOk result (λ r. r.upper ≡ constant_bound intervals.now scale.unit scale.units scale.denominator price) }
    ensures small { IfOk result (λ r. r.upper < 2 ^ 127) }
    ensures value { IfOk result (λ r. r.flow ≡ 0) }
{
    let Scale {
        unit,
        units,
        denominator,
    } = scale;
    let count = intervals.as_slice().len();
    let full = vec![in alloc; false; count]?;
    Ok(Relaxed {
        solution: PricesAndFlows::one_price(price, intervals.steps(), count as u32),
        full,
        price,
        upper: bound_at(intervals, unit, units, denominator, price),
        flow: 0,
    })
}

// The bound of prices.
fn upper_of(
    alloc: Global,
    intervals: &Intervals,
    scale: Scale,
    prices: &[u128],
) -> Result<u128, NoMemory>
    requires few { length prices.now ≤ 2 ^ 25 }
    requires each { length prices.now ≡ intervals.now.steps }
    requires paid { scale.units * sum prices.now ≤ most_paid }
    ensures bound { IfOk result (λ u. u ≡ bound_of intervals.now.items scale.unit scale.units scale.denominator prices.now) }
    ensures small { IfOk result (λ u. u < 2 ^ 127) }
{
    let sums = Sums::within_limit(alloc, prices, scale.units)?;
    Ok(bound_of(intervals, scale.unit, scale.units, scale.denominator, &sums))
}

/// How many steps a window has, if there are this many in all.
pub(crate) fn width_of(window: Window, steps: u32) -> u32
    ensures { result ≡ width_of window steps }
{
    match window {
        Window::All => steps.max(1),
        Window::Steps(width) => width,
    }
}

// The prices and flows of windows, each of which is solved by itself, and which flows are full.
fn by_windows(
    alloc: Global,
    window: Window,
    intervals: &Intervals,
    scale: Scale,
) -> Result<(Solution, Vec<bool>), NoMemory>
    requires mode { IsModeInRange (Flow window) }
    requires divides { All (λ i. scale.unit ∣ i.size) intervals.now.items }
    ensures of_mode { IfOk result (λ r. IsOfMode (Flow window) intervals.now scale.unit scale.units scale.denominator r.0.prices r.0.flows 0) }
    ensures each { IfOk result (λ r. length r.0.prices ≡ intervals.now.steps) }
    ensures paid { IfOk result (λ r. scale.units * sum r.0.prices ≤ most_paid) }
    ensures last { IfOk result (λ r. slice_index_or r.0.prices (intervals.now.steps - 1) 0 ≡ 0) }
    ensures schedule { IfOk result (λ r. IsFractionalSchedule intervals.now.items scale.unit scale.units r.0.flows) }
    ensures full { IfOk result (λ r. r.1.items ≡ full_flags scale.unit intervals.now.items r.0.flows) }
{
    // Dropped here, for the proof.
    let solved = {
        let whole = instance(alloc, intervals, scale.unit, scale.units, scale.denominator)?;
        solve_windows(alloc, &whole, width_of(window, intervals.steps()))
    };
    let found = solved?;
    Ok(found.into_parts())
}

// The prices and flows of windows, with what they are worth.
fn by_flow(
    alloc: Global,
    window: Window,
    intervals: &Intervals,
    scale: Scale,
) -> Result<Relaxed, NoMemory>
    requires mode { IsModeInRange (Flow window) }
    requires timeline { IsTimeline intervals.now }
    requires divides { All (λ i. scale.unit ∣ i.size) intervals.now.items }
    ensures of_mode { IfOk result (λ r. IsOfMode (Flow window) intervals.now scale.unit scale.units scale.denominator
        r.solution.prices r.solution.flows r.price) }
    ensures relaxed { IfOk result (IsRelaxed intervals.now scale.unit scale.units scale.denominator) }
{
    let (solution, full) = by_windows(alloc, window, intervals, scale)?;
    let upper = upper_of(alloc, intervals, scale, solution.prices())?;
    let flow = value_of_schedule(intervals, scale.unit, scale.denominator, solution.flows());
    Ok(Relaxed {
        solution: PricesAndFlows::of_solution(solution),
        full,
        price: 0,
        upper,
        flow,
    })
}

/// The prices and flows of a mode, which flows are full, and what prices and flows are worth.
pub(crate) fn relax(
    alloc: Global,
    asked: &BoundSettings,
    intervals: &Intervals,
    scale: Scale,
) -> Result<Relaxed, NoMemory>
    requires timeline { IsTimeline intervals.now }
    requires divides { All (λ i. scale.unit ∣ i.size) intervals.now.items }
    ensures of_mode { IfOk result (λ r. IsOfMode asked.now.mode intervals.now scale.unit scale.units scale.denominator
        r.solution.prices r.solution.flows r.price) }
    ensures relaxed { IfOk result (IsRelaxed intervals.now scale.unit scale.units scale.denominator) }
{
    let Scale {
        unit,
        units,
        denominator,
    } = scale;
    match asked.mode {
        Mode::Flow { window } => by_flow(alloc, window, intervals, scale),
        Mode::Constant => {
            let price = constant_price::least(intervals, unit, units, denominator);
            at_one_price(alloc, intervals, scale, price)
        }
        Mode::Infinite => at_one_price(alloc, intervals, scale, 0),
    }
}
