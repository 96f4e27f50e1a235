//! The denominator over which prices and values are whole numbers.
ghost use Rattle.std.specs.Prelude.{◌≡◌, ◌≤◌, ◌^◌, ◌↔◌, length, IsTrue, All, IfOk, IfErr, IsErr};
ghost use Rattle.std.specs.List.{list_all};
ghost use Prim.Native.Nat.{◌∣◌};
ghost use Rattle.cache_model.specs.Units.{HasWholeCosts, IsLeastWhole, weight};
ghost use Rattle.relaxation.specs.Denominators.{IsChoice, IsChosen, IsFirstPast, PassesMost, has_whole_cost, most};

use bound_base::{gcd, lcm_to};
use cache_model::Interval;
use interval_maker::Intervals;

/// The greatest denominator.
const MOST: u64 = 1 << 48;

/// Which denominator is wanted.
#[derive(Clone, Copy, Debug, PartialEq, Eq)]
pub enum DenominatorChoice {
    /// The least that rounds no cost, or 2^48 if that passes 2^48.
    Auto,
    /// The least that rounds no cost.
    Exact,
    /// This one, from 1 to 2^48.
    Given(u64),
}

/// A denominator, and whether it rounds no cost.
#[derive(Clone, Copy, Debug, PartialEq, Eq)]
pub struct Denominator {
    pub value: u64,
    pub exact: bool,
}

/// The least denominator that rounds no cost of the first `intervals` intervals passes 2^48, and that of no fewer does.
#[derive(Clone, Copy, Debug, PartialEq, Eq)]
pub struct DenominatorLimit {
    pub intervals: u32,
}

// The least denominator that rounds no cost.
fn least_whole(intervals: &[Interval], unit: u64) -> Result<u64, DenominatorLimit>
    requires weights { All (λ i. 1 ≤ weight unit i) intervals.now }
    requires unit { 1 ≤ unit }
    requires few { length intervals.now ≤ 2 ^ 25 }
    ensures least { IfOk result (λ d. IsLeastWhole intervals.now unit d × (d ≤ most)) }
    ensures limit { IfErr result (λ e. IsFirstPast intervals.now unit e.intervals) }
{
    let mut multiple = 1;
    for (at, interval) in intervals.iter().enumerate() {
        let weight = interval.size / unit;
        match lcm_to(multiple, weight / gcd(weight, interval.gain), MOST) {
            Some(next) => multiple = next,
            None => {
                return Err(DenominatorLimit {
                    intervals: at as u32 + 1,
                });
            }
        }
    }
    Ok(multiple)
}

// Whether the weight of each interval divides its gain times the denominator.
fn has_whole_costs(intervals: &[Interval], unit: u64, denominator: u64) -> bool
    requires weights { All (λ i. 1 ≤ weight unit i) intervals.now }
    requires unit { 1 ≤ unit }
    ensures { result ≡ list_all (has_whole_cost unit denominator) intervals.now }
{
    intervals.iter().all(|interval| {
        let earned = denominator as u128 * interval.gain as u128;
        earned % (interval.size / unit) as u128 == 0
    })
}

/// The denominator of a choice. It takes one pass over the intervals.
pub fn denominator_for(
    intervals: &Intervals,
    unit: u64,
    choice: DenominatorChoice,
) -> Result<Denominator, DenominatorLimit>
    requires unit { 1 ≤ unit }
    requires divides { All (λ i. unit ∣ i.size) intervals.now.items }
    requires choice { IsChoice choice }
    ensures value { IfOk result (λ d. IsChosen choice intervals.now.items unit d.value) }
    ensures exact { IfOk result (λ d. IsTrue d.exact ↔ HasWholeCosts intervals.now.items unit d.value) }
    ensures range { IfOk result (λ d. (1 ≤ d.value) × (d.value ≤ most)) }
    ensures refused { IsErr result ↔ ((choice ≡ DenominatorChoice.Exact) × PassesMost intervals.now.items unit) }
    ensures limit { IfErr result (λ e. IsFirstPast intervals.now.items unit e.intervals) }
{
    let intervals = intervals.as_slice();
    match choice {
        DenominatorChoice::Given(value) => Ok(Denominator {
            value,
            exact: has_whole_costs(intervals, unit, value),
        }),
        DenominatorChoice::Exact => match least_whole(intervals, unit) {
            Ok(value) => Ok(Denominator { value, exact: true }),
            Err(limit) => Err(limit),
        },
        DenominatorChoice::Auto => match least_whole(intervals, unit) {
            Ok(value) => Ok(Denominator { value, exact: true }),
            Err(_) => Ok(Denominator {
                value: MOST,
                exact: false,
            }),
        },
    }
}
