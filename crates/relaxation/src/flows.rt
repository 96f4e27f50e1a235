//! Flows of intervals, whether they are a schedule, and their value.
ghost use Rattle.std.specs.Prelude.{ℕ, ◌≡◌, ◌<◌, ◌≤◌, ◌*◌, ◌^◌, length, Some, None, All, IfOk, IfErr, OnOk, MatchResult};
ghost use Rattle.std.specs.List.{AllZip};
ghost use Rattle.std.specs.Option.{ForSome};
ghost use Prim.Native.Nat.{◌∣◌};
ghost use Rattle.cache_model.specs.Schedules.{IsFractionalSchedule, flow_value, load_at};
ghost use Rattle.cache_model.specs.Units.{weight};
ghost use Rattle.interval_maker.specs.Timelines.{IsInterval};
ghost use Rattle.relaxation.specs.Faults.{IsFirstFault, amount_of, fault_from};

use cache_model::Interval;
use interval_maker::Intervals;

/// Where flows are first no schedule. Intervals and steps count from 0.
#[derive(Clone, Copy, Debug, PartialEq, Eq)]
pub enum FlowFault {
    /// The flow of the interval of this number passes its weight.
    AboveWeight { interval: u32 },
    /// The flows over the step pass the units. The load is their sum.
    Overfull { step: u32, load: u128 },
}

// The flow of the interval of a number, and 0 of none.
fn flow_at(flows: &[u64], number: Option<u32>) -> u64
    requires { ForSome number (λ n. n < length flows.now) }
    ensures { result ≡ amount_of flows.now number }
{
    match number {
        Some(number) => flows[number as usize],
        None => 0,
    }
}

// What fails at a step, with the number of the interval that starts there and the load of the step.
fn check_step(
    intervals: &[Interval],
    unit: u64,
    units: u64,
    flows: &[u64],
    step: u32,
    starting: Option<u32>,
    load: u128,
) -> Result<(), FlowFault>
    requires unit { 1 ≤ unit }
    requires load { load ≡ load_at intervals.now flows.now step }
    requires known { ForSome starting (λ n. n < length intervals.now) }
    requires each { length flows.now ≡ length intervals.now }
    ensures { MatchResult result
        (λ _. fault_from intervals.now unit units flows.now step starting ≡ None)
        (λ fault. fault_from intervals.now unit units flows.now step starting ≡ Some fault) }
{
    if let Some(number) = starting {
        if intervals[number as usize].size / unit < flows[number as usize] {
            return Err(FlowFault::AboveWeight { interval: number });
        }
    }
    if load > units as u128 {
        return Err(FlowFault::Overfull { step, load });
    }
    Ok(())
}

// Whether the flows are a schedule, or else the first fault.
fn check_flows(intervals: &Intervals, unit: u64, units: u64, flows: &[u64]) -> Result<(), FlowFault>
    requires unit { 1 ≤ unit }
    requires each { length flows.now ≡ length intervals.now.items }
    ensures schedule { OnOk result (IsFractionalSchedule intervals.now.items unit units flows.now) }
    ensures fault { IfErr result (IsFirstFault intervals.now unit units flows.now) }
{
    let mut load = 0;
    for step in 0..intervals.steps() {
        let starting = intervals.starting(step);
        let ending = intervals.ending(step);
        load = load + flow_at(flows, starting) as u128 - flow_at(flows, ending) as u128;
        check_step(
            intervals.as_slice(),
            unit,
            units,
            flows,
            step,
            starting,
            load,
        )?;
    }
    Ok(())
}

// The value of flows that are within their weights.
fn value_of(intervals: &[Interval], unit: u64, denominator: u64, flows: &[u64]) -> u128
    requires unit { 1 ≤ unit }
    requires weights { All (λ i. 1 ≤ weight unit i) intervals.now }
    requires gains { All (λ i. i.gain ≤ 2 ^ 48) intervals.now }
    requires few { length intervals.now ≤ 2 ^ 25 }
    requires denominator { denominator ≤ 2 ^ 48 }
    requires within { AllZip (λ i f. f ≤ weight unit i) intervals.now flows.now }
    ensures value { result ≡ flow_value intervals.now unit denominator flows.now }
    ensures small { result ≤ 2 ^ 121 }
{
    let mut value = 0;
    for (at, interval) in intervals.iter().enumerate() {
        let earned = denominator as u128 * interval.gain as u128;
        value += earned / (interval.size / unit) as u128 * flows[at] as u128;
    }
    value
}

/// The value of flows that are known to be a schedule, over the denominator. It takes one pass over the intervals.
pub fn value_of_schedule(intervals: &Intervals, unit: u64, denominator: u64, flows: &[u64]) -> u128
    requires unit { 1 ≤ unit }
    requires divides { All (λ i. unit ∣ i.size) intervals.now.items }
    requires denominator { denominator ≤ 2 ^ 48 }
    requires schedule { (units : ℕ) × IsFractionalSchedule intervals.now.items unit units flows.now }
    ensures value { result ≡ flow_value intervals.now.items unit denominator flows.now }
    ensures small { result ≤ 2 ^ 121 }
{
    value_of(intervals.as_slice(), unit, denominator, flows)
}

/// The value of the flows, one for each interval, over the denominator. They are refused at the first step at which
/// they are no schedule; there a flow past its weight comes before a load past the units. It takes two passes.
pub fn flow_value(
    intervals: &Intervals,
    unit: u64,
    units: u64,
    denominator: u64,
    flows: &[u64],
) -> Result<u128, FlowFault>
    requires unit { 1 ≤ unit }
    requires divides { All (λ i. unit ∣ i.size) intervals.now.items }
    requires denominator { denominator ≤ 2 ^ 48 }
    requires each { length flows.now ≡ length intervals.now.items }
    ensures value { IfOk result (λ v. v ≡ flow_value intervals.now.items unit denominator flows.now) }
    ensures small { IfOk result (λ v. v ≤ 2 ^ 121) }
    ensures schedule { OnOk result (IsFractionalSchedule intervals.now.items unit units flows.now) }
    ensures fault { IfErr result (IsFirstFault intervals.now unit units flows.now) }
{
    check_flows(intervals, unit, units, flows)?;
    Ok(value_of_schedule(intervals, unit, denominator, flows))
}
