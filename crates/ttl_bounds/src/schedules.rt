//! The schedule, and what it scores and writes with a time to live.
ghost use Rattle.std.specs.Prelude.{◌≡◌, ℕ, ◌≤◌, false, length, replicate, IfOk};
ghost use Rattle.cache_model.specs.Claim.{marked};
ghost use Rattle.cache_model.specs.Rounding.{IsMaximal, IsRounded, by_rank, taken_load};
ghost use Rattle.interval_maker.specs.Timelines.{timeline_of};
ghost use Rattle.ttl_bounds.specs.Schedules.{IsScheduleWithTtl};

use crate::asked::TtlAsked;
use bound_base::NoMemory;
use interval_maker::Intervals;
use schedule_round::Keeps;
use std::alloc::Global;
use ttl_prices::TimedTrace;
use ttl_scores::{FreshTotals, fresh_totals};

/// What a schedule keeps, and its totals.
#[derive(Drop)]
pub(crate) struct Schedule {
    pub(crate) keeps: Keeps,
    pub(crate) totals: FreshTotals,
}

// The keeps that are rounded without any flag.
fn rounded(alloc: Global, intervals: &Intervals, capacity: u64) -> Result<Keeps, NoMemory>
    ensures rounded { IfOk result
        (IsRounded by_rank intervals.now.items capacity intervals.now.steps (replicate (length intervals.now.items) false)) }
    ensures maximal { IfOk result (IsMaximal intervals.now.items capacity) }
    ensures fits { IfOk result (λ keeps. (t : ℕ) → taken_load intervals.now.items keeps t ≤ capacity) }
{
    let flags = vec![in alloc; false; intervals.as_slice().len()]?;
    schedule_round::round(alloc, intervals, capacity, &flags)
}

/// The schedule that is rounded from no flags.
pub(crate) fn schedule_of(
    alloc: Global,
    asked: &TtlAsked,
    timed: &TimedTrace<'_>,
    intervals: &Intervals,
) -> Result<Schedule, NoMemory>
    requires times { length timed.now.times.now ≡ length timed.now.trace.now.objects }
    requires intervals { intervals.now ≡ timeline_of (marked asked.now.terms timed.now.trace.now.fills) timed.now.trace.now.objects }
    ensures made { IfOk result (λ s. IsScheduleWithTtl asked.now.terms timed.now.trace.now timed.now.times.now timed.now.ttl s.keeps s.totals) }
{
    let terms = asked.terms;
    let keeps = rounded(alloc, intervals, terms.capacity)?;
    let totals = fresh_totals(
        alloc,
        timed.trace,
        timed.times,
        timed.ttl,
        terms,
        keeps.as_slice(),
    )?;
    Ok(Schedule { keeps, totals })
}
