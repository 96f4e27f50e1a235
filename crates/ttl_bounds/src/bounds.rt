//! The bounds of a trace with a time to live, and their certificate.
ghost use Rattle.std.specs.Prelude.{◌≡◌, ◌≤◌, ◌/◌, ◌<◌, All, IfOk, IfErr, length, slice_index_or};
ghost use Rattle.constant_price.specs.Constants.{constant_prices};
ghost use Rattle.cache_model.specs.Claim.{marked};
ghost use Rattle.cache_model.specs.Units.{IsUnit};
ghost use Rattle.interval_maker.specs.Timelines.{IsTimeline, timeline_of};
ghost use Rattle.relaxation.specs.Denominators.{IsChosen};
ghost use Rattle.ttl_bounds.specs.Asked.{AreTtlAskedInRange};
ghost use Rattle.ttl_bounds.specs.Faults.{FailsTtlBounds};
ghost use Rattle.ttl_bounds.specs.Made.{IsMadeWithTtl};
ghost use Rattle.ttl_bounds.specs.Records.{header_with, records_in};

use crate::asked::TtlAsked;
use crate::faults::TtlBoundsFault;
use crate::prices::price_of;
use crate::scales::scale_of;
use crate::schedules::{Schedule, schedule_of};
use bound_base::NoMemory;
use cache_model::{Header, Record};
use cache_rules::Trace;
use cert_format::Records;
use interval_maker::Intervals;
use relaxation::Scale;
use schedule_round::Keeps;
use std::alloc::Global;
use ttl_prices::TimedTrace;

/// A certificate with a time to live, and what is told beside it: the header, the price of all steps but the last over the
/// denominator, the number of eligible intervals, the bytes that the schedule writes, and what it keeps.
#[derive(Drop)]
pub struct TtlBounds {
    pub header: Header,
    pub price: u128,
    pub intervals: u32,
    pub written: u128,
    pub keeps: Keeps,
}

// The eligible intervals of a trace.
fn intervals_of(alloc: Global, asked: &TtlAsked, trace: &Trace) -> Result<Intervals, NoMemory>
    ensures intervals { IfOk result (λ made. made ≡ timeline_of (marked asked.now.terms trace.now.fills) trace.now.objects) }
    ensures timeline { IfOk result IsTimeline }
    ensures fit { IfOk result (λ made. All (λ i. i.size ≤ asked.now.terms.capacity) made.items) }
{
    let terms = asked.terms;
    interval_maker::make(alloc, trace, terms.capacity, terms.objective, terms.warmup)
}

// The header of these numbers.
fn header_with(asked: &TtlAsked, requests: u32, scale: Scale, upper: u128, lower: u128) -> Header
    ensures header { result ≡ header_with asked.now requests scale.unit scale.denominator upper lower }
    ensures asked { AreTtlAskedInRange asked.now }
{
    let terms = asked.terms;
    Header {
        objective: terms.objective,
        capacity: terms.capacity,
        requests,
        unit: scale.unit,
        denominator: scale.denominator,
        exact: false,
        upper,
        flow: 0,
        lower,
        warmup: terms.warmup,
        version: asked.version,
    }
}

// The bounds in this scale, if the intervals are those of the trace.
fn bounds_in(
    alloc: Global,
    asked: &TtlAsked,
    timed: &TimedTrace<'_>,
    intervals: &Intervals,
    scale: Scale,
) -> Result<TtlBounds, NoMemory>
    requires times { length timed.now.times.now ≡ length timed.now.trace.now.objects }
    requires intervals { intervals.now ≡ timeline_of (marked asked.now.terms timed.now.trace.now.fills) timed.now.trace.now.objects }
    requires timeline { IsTimeline intervals.now }
    requires fit { All (λ i. i.size ≤ asked.now.terms.capacity) intervals.now.items }
    requires unit { IsUnit intervals.now.items scale.unit }
    requires units { scale.units ≡ asked.now.terms.capacity / scale.unit }
    requires chosen { IsChosen asked.now.denominator intervals.now.items scale.unit scale.denominator }
    ensures { IfOk result (λ b.
        IsMadeWithTtl asked.now timed.now.trace.now timed.now.times.now timed.now.ttl b.price b.intervals b.written b.header (records_in b)) }
{
    let found = price_of(alloc, asked, timed, intervals, scale)?;
    let Schedule { keeps, totals } = schedule_of(alloc, asked, timed, intervals)?;
    let requests = timed.trace.len();
    Ok(TtlBounds {
        header: header_with(asked, requests, scale, found.bound, totals.score),
        price: found.price,
        intervals: intervals.as_slice().len() as u32,
        written: totals.written,
        keeps,
    })
}

/// The bounds of a trace with a time to live, and their certificate. The marks of the trace are those in which what is stale
/// only fills.
///
/// It sorts the eligible intervals once. If a price is sought, it goes over them some fifteen times, and over the requests up
/// to ten times, and thirteen times for one of 32 objects alone; else over both three times. Beside the intervals, of 24 bytes
/// each and 8 for each request, it takes the memory of one pass, or of rounding. A denominator is refused before a price is
/// sought.
pub fn bounds_with_ttl(
    alloc: Global,
    asked: &TtlAsked,
    timed: &TimedTrace<'_>,
) -> Result<TtlBounds, TtlBoundsFault>
    requires times { length timed.now.times.now ≡ length timed.now.trace.now.objects }
    ensures made { IfOk result (λ b.
        IsMadeWithTtl asked.now timed.now.trace.now timed.now.times.now timed.now.ttl b.price b.intervals b.written b.header (records_in b)) }
    ensures refused { IfErr result (FailsTtlBounds asked.now timed.now.trace.now) }
{
    let intervals = intervals_of(alloc, asked, timed.trace)?;
    let scale = scale_of(asked, timed.trace, &intervals)?;
    let bounds = bounds_in(alloc, asked, timed, &intervals, scale)?;
    Ok(bounds)
}

// The price of step `t`, if this is the price of all steps but the last.
fn step_price(steps: usize, t: u32, price: u128) -> u128
    requires { t < steps }
    ensures { result ≡ slice_index_or (constant_prices price steps) t 0 }
{
    if (t as usize) < steps - 1 { price } else { 0 }
}

impl Records for TtlBounds {
    ghost use Rattle.std.specs.Prelude.{⊤};
    ghost use Rattle.ttl_bounds.specs.Records.{records_in};

    ghost list = { λ b. records_in b };

    ghost is_sound = { λ _. ⊤ };

    fn record_at(&self, t: u32) -> Record {
        let keeps = self.keeps.as_slice();
        Record {
            price: step_price(keeps.len(), t, self.price),
            keep: keeps[t as usize],
            flow: 0,
        }
    }
}
