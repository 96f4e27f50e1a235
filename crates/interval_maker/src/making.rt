//! The eligible intervals of a trace, by the next request of each request's object.
ghost use Rattle.std.specs.Prelude.{◌≡◌, ◌<◌, ◌≤◌, ◌-◌, ◌^◌, ◌∷◌, ◌++◌, [], length, replicate, slice_set, All, IfOk, MatchOption, OnOk};
ghost use Rattle.cache_model.specs.Claim.{marked, terms_from};
ghost use Rattle.cache_model.specs.Intervals.{eligible_from};
ghost use Rattle.interval_maker.specs.Stored.{no_number};
ghost use Rattle.interval_maker.specs.Timelines.{IsInterval, IsTimeline, timeline_of};

use crate::intervals::{Intervals, NO_INTERVAL};
use bound_base::NoMemory;
use cache_model::Interval;
use cache_rules::{Objective, Terms, Trace, gain};
use std::alloc::Global;

// The eligible interval that starts at a request.
fn interval_from(trace: &Trace, t: u32, terms: Terms) -> Option<Interval>
    requires { t < length trace.now.objects }
    ensures { MatchOption result (eligible_from (marked terms trace.now.fills) trace.now.objects t ≡ [])
        (λ i. (eligible_from (marked terms trace.now.fills) trace.now.objects t ≡ i ∷ []) × IsInterval (length trace.now.objects) i) }
{
    let object = trace.object(trace.request(t));
    if terms.capacity < object.size {
        return None;
    }
    let Some(end) = trace.next(t) else {
        return None;
    };
    if !trace.counts(end, terms.warmup) {
        return None;
    }
    Some(Interval {
        start: t,
        end,
        size: object.size,
        gain: gain(terms.objective, &object),
    })
}

// A number for each step, of no interval yet.
fn no_numbers(alloc: Global, steps: u32) -> Result<Vec<u32>, NoMemory>
    ensures { IfOk result (λ numbers. numbers.items ≡ replicate steps no_number) }
{
    Ok(vec![in alloc; NO_INTERVAL; steps as usize]?)
}

/// The eligible intervals of a trace, in order of start, at a capacity in bytes. An interval whose end
/// doesn't count, since it is before request `warmup` or only fills the cache, is none of them. Takes time in the number of requests.
pub fn make(
    alloc: Global,
    trace: &Trace,
    capacity: u64,
    objective: Objective,
    warmup: u32,
) -> Result<Intervals, NoMemory>
    ensures intervals { IfOk result (λ made. made ≡ timeline_of (terms_from objective capacity warmup trace.now.fills) trace.now.objects) }
    ensures timeline { IfOk result IsTimeline }
    ensures fit { IfOk result (λ made. All (λ i. i.size ≤ capacity) made.items) }
{
    let terms = Terms {
        objective,
        capacity,
        warmup,
    };
    let steps = trace.len();
    let mut items = Vec::with_capacity(alloc, (steps - trace.objects()) as usize)?;
    let mut starting = no_numbers(alloc, steps)?;
    let mut ending = no_numbers(alloc, steps)?;
    for t in 0..steps {
        match interval_from(trace, t, terms) {
            Some(interval) => {
                starting[interval.start as usize] = items.len() as u32;
                ending[interval.end as usize] = items.len() as u32;
                items.push(interval)?;
            }
            None => {}
        }
    }
    Ok(Intervals {
        items,
        starting,
        ending,
    })
}
