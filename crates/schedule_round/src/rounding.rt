//! Rounding: flagged intervals, and then what still fits.
ghost use Rattle.std.specs.Prelude.{◌≡◌, ◌≤◌, ℕ, false, replicate, IfOk};
ghost use Rattle.std.specs.List.{AllZip};
ghost use Rattle.cache_model.specs.Claim.{is_kept};
ghost use Rattle.cache_model.specs.Rounding.{FitTogether, IsMaximal, IsRounded, by_rank, taken_load};
ghost use Rattle.schedule_round.specs.Taken.{IsTaken};

use crate::keeps::Keeps;
use crate::order::order_of;
use crate::schedule::Schedule;
use bound_base::NoMemory;
use interval_maker::Intervals;
use std::alloc::Global;

// The schedule of the flagged intervals alone.
fn flagged_alone(
    alloc: Global,
    intervals: &Intervals,
    capacity: u64,
    full: &[bool],
) -> Result<Schedule, NoMemory>
    requires flags { FitTogether intervals.now.items capacity full.now }
    ensures capacity { IfOk result (λ s. s.capacity ≡ capacity) }
    ensures taken { IfOk result (λ s. IsTaken intervals.now capacity s.keeps.items s.loads) }
    ensures flagged { IfOk result
        (λ s. AllZip (λ i flagged. is_kept s.keeps.items i.start ≡ flagged) intervals.now.items full.now) }
{
    let mut schedule = Schedule::new(alloc, intervals.steps(), capacity)?;
    for (number, interval) in intervals.as_slice().iter().enumerate() {
        if full[number] {
            schedule.take(interval);
        }
    }
    Ok(schedule)
}

/// Makes a schedule of whole intervals: the flagged ones, and then each other one that fits at every step that it
/// covers, in order of size times steps covered over gain, ties by start. There is one flag for each interval, in
/// their order, and the capacity is in bytes.
pub fn round(
    alloc: Global,
    intervals: &Intervals,
    capacity: u64,
    full: &[bool],
) -> Result<Keeps, NoMemory>
    requires flags { FitTogether intervals.now.items capacity full.now }
    ensures rounded { IfOk result
        (λ keeps. IsRounded by_rank intervals.now.items capacity intervals.now.steps full.now keeps) }
    ensures maximal { IfOk result (λ keeps. IsMaximal intervals.now.items capacity keeps) }
    ensures fits { IfOk result (λ keeps. (t : ℕ) → taken_load intervals.now.items keeps t ≤ capacity) }
{
    let mut schedule = flagged_alone(alloc, intervals, capacity, full)?;
    let items = intervals.as_slice();
    let order = order_of(alloc, intervals, full)?;
    for ranked in &order {
        let interval = &items[ranked.number() as usize];
        if schedule.fits(interval) {
            schedule.take(interval);
        }
    }
    Ok(Keeps {
        keeps: schedule.keeps,
    })
}
