//! The bounds of a trace, and their texts.
ghost use Rattle.std.specs.Prelude.{◌≡◌, ◌≤◌, ◌<◌, ◌^◌, length, All, IfOk, IfErr, IsTrue, ◌↔◌, ◌&&◌};
ghost use Rattle.cache_model.specs.Certificates.{eligible_of};
ghost use Rattle.cache_model.specs.Units.{HasWholeCosts, IsUnit};
ghost use Rattle.cache_model.specs.Claim.{IsAllowed, marked, score, contents_of};
ghost use Rattle.cache_model.specs.Rounding.{FitTogether, IsMaximal, IsRounded, by_rank};
ghost use Rattle.interval_maker.specs.Timelines.{IsTimeline, starting_at, timeline_of};
ghost use Rattle.relaxation.specs.Denominators.{IsChosen};
ghost use Rattle.relaxation.specs.Faults.{amount_of};
ghost use Rattle.bound_run.specs.BoundsFaults.{FailsBounds};
ghost use Rattle.bound_run.specs.BoundsMade.{AreTexts, IsMade, is_unwindowed, records_of};
ghost use Rattle.bound_run.specs.Records.{HasEach, records_in};
ghost use Rattle.bound_run.specs.Reports.{written_by};

use crate::relaxed::{Relaxed, relax, width_of};
use crate::writing::Texts;
use bound_base::NoMemory;
use bound_report::{BoundFacts, render};
use bound_terms::Mode;
use bound_words::BoundSettings;
use cache_model::{Header, Record, Terms};
use cache_rules::{Trace, score_of_fitting, written_bytes};
use cert_format::{Records, cert_of};
use interval_maker::Intervals;
use relaxation::{Denominator, Scale, denominator_for, unit_of};
use run_counts::counting_of;
use schedule_round::Keeps;
use std::alloc::Global;
use trace_any::{Format, TraceNotes};

/// Why there are no bounds.
#[derive(Clone, Copy)]
pub(crate) enum BoundsFault {
    /// The least denominator that rounds no cost passes 2^48, and no other may be taken.
    Denominator,
    /// There was not enough memory.
    NoMemory,
}

// What a schedule keeps, and its score.
#[derive(Drop)]
struct Schedule {
    keeps: Keeps,
    lower: u128,
}

// A certificate: its header, the prices of the steps, the flows of the intervals, and what its schedule keeps.
#[derive(Drop)]
struct Bounds {
    header: Header,
    relaxed: Relaxed,
    keeps: Keeps,
    intervals: Intervals,
}

impl From<NoMemory> for BoundsFault {
    ghost use Rattle.std.specs.Prelude.{◌≡◌};
    ghost use Rattle.bound_run.specs.declared.bounds.BoundsFault.TheVariants.{NoMemory};

    ghost from_gives = { λ _ f. f ≡ NoMemory };

    fn from(_: NoMemory) -> Self {
        BoundsFault::NoMemory
    }
}

/// The eligible intervals of a trace.
pub(crate) fn intervals_of(
    alloc: Global,
    terms: Terms,
    trace: &Trace,
) -> Result<Intervals, NoMemory>
    ensures intervals { IfOk result (λ made. made ≡ timeline_of (marked terms trace.now.fills) trace.now.objects) }
    ensures timeline { IfOk result IsTimeline }
    ensures fit { IfOk result (λ made. All (λ i. i.size ≤ terms.capacity) made.items) }
{
    interval_maker::make(alloc, trace, terms.capacity, terms.objective, terms.warmup)
}

// The schedule that is rounded from the flagged intervals.
fn schedule_of(
    alloc: Global,
    terms: Terms,
    trace: &Trace,
    intervals: &Intervals,
    full: &[bool],
) -> Result<Schedule, NoMemory>
    requires intervals { intervals.now ≡ timeline_of (marked terms trace.now.fills) trace.now.objects }
    requires fit { All (λ i. i.size ≤ terms.capacity) intervals.now.items }
    requires flags { FitTogether intervals.now.items terms.capacity full.now }
    ensures rounded { IfOk result (λ s. IsRounded by_rank intervals.now.items terms.capacity (length trace.now.objects) full.now s.keeps) }
    ensures maximal { IfOk result (λ s. IsMaximal intervals.now.items terms.capacity s.keeps) }
    ensures allowed { IfOk result (λ s. IsAllowed terms.capacity trace.now.objects (contents_of trace.now.objects s.keeps)) }
    ensures lower { IfOk result (λ s. s.lower ≡ score (marked terms trace.now.fills) trace.now.objects (contents_of trace.now.objects s.keeps)) }
{
    let keeps = schedule_round::round(alloc, intervals, terms.capacity, full)?;
    let lower = score_of_fitting(trace, terms, keeps.as_slice());
    Ok(Schedule { keeps, lower })
}

// The denominator that is asked for.
fn denominator_of(
    asked: &BoundSettings,
    trace: &Trace,
    intervals: &Intervals,
    unit: u64,
) -> Result<Denominator, BoundsFault>
    requires intervals { intervals.now ≡ timeline_of (marked asked.now.terms trace.now.fills) trace.now.objects }
    requires unit { IsUnit intervals.now.items unit }
    requires positive { 1 ≤ unit }
    ensures chosen { IfOk result (λ d. IsChosen asked.now.denominator intervals.now.items unit d.value) }
    ensures range { IfOk result (λ d. (1 ≤ d.value) × (d.value ≤ 2 ^ 48)) }
    ensures exact { IfOk result (λ d. IsTrue d.exact ↔ HasWholeCosts intervals.now.items unit d.value) }
    ensures refused { IfErr result (FailsBounds asked.now trace.now) }
{
    match denominator_for(intervals, unit, asked.denominator) {
        Ok(denominator) => Ok(denominator),
        Err(_) => Err(BoundsFault::Denominator),
    }
}

// Whether the mode is flow, with one window for all steps.
fn is_unwindowed(mode: Mode, steps: u32) -> bool
    ensures { result ≡ is_unwindowed mode steps }
{
    match mode {
        Mode::Flow { window } => steps <= width_of(window, steps),
        Mode::Constant | Mode::Infinite => false,
    }
}

// Whether the form is exact: one window has all steps, and no cost is rounded.
fn is_exact(mode: Mode, steps: u32, whole_costs: bool) -> bool
    ensures { result ≡ (is_unwindowed mode steps && whole_costs) }
{
    is_unwindowed(mode, steps) && whole_costs
}

// The header, the prices and flows, and what the schedule keeps, if the intervals are those of the trace.
fn parts_of(
    alloc: Global,
    asked: &BoundSettings,
    trace: &Trace,
    intervals: &Intervals,
) -> Result<(Header, Relaxed, Keeps), BoundsFault>
    requires intervals { intervals.now ≡ timeline_of (marked asked.now.terms trace.now.fills) trace.now.objects }
    requires timeline { IsTimeline intervals.now }
    requires fit { All (λ i. i.size ≤ asked.now.terms.capacity) intervals.now.items }
    ensures made { IfOk result (λ p. IsMade asked.now trace.now p.1.price p.0
        (records_of p.1.solution.prices p.2 intervals.now.items p.1.solution.flows)) }
    ensures intervals { IfOk result (λ p. intervals.now.items ≡ eligible_of trace.now.objects trace.now.fills p.0) }
    ensures each { IfOk result (λ p. HasEach (record { header = p.0; relaxed = p.1; keeps = p.2; intervals = intervals.now })) }
    ensures refused { IfErr result (FailsBounds asked.now trace.now) }
{
    let terms = asked.terms;
    let unit = unit_of(intervals);
    let units = terms.capacity / unit;
    let denominator = denominator_of(asked, trace, intervals, unit)?;
    let scale = Scale {
        unit,
        units,
        denominator: denominator.value,
    };
    let relaxed = relax(alloc, asked, intervals, scale)?;
    let schedule = schedule_of(alloc, terms, trace, intervals, &relaxed.full)?;
    let requests = trace.len();
    let header = Header {
        objective: terms.objective,
        capacity: terms.capacity,
        requests,
        unit,
        denominator: denominator.value,
        exact: is_exact(asked.mode, requests, denominator.exact),
        upper: relaxed.upper,
        flow: relaxed.flow,
        lower: schedule.lower,
        warmup: terms.warmup,
        version: asked.version,
    };
    Ok((header, relaxed, schedule.keeps))
}

// The certificate of a trace, in parts.
fn bounds_of(alloc: Global, asked: &BoundSettings, trace: &Trace) -> Result<Bounds, BoundsFault>
    ensures made { IfOk result (λ b. IsMade asked.now trace.now b.relaxed.price b.header (records_in b)) }
    ensures intervals { IfOk result (λ b. b.intervals.items ≡ eligible_of trace.now.objects trace.now.fills b.header) }
    ensures each { IfOk result HasEach }
    ensures refused { IfErr result (FailsBounds asked.now trace.now) }
{
    let intervals = intervals_of(alloc, asked.terms, trace)?;
    let (header, relaxed, keeps) = parts_of(alloc, asked, trace, &intervals)?;
    Ok(Bounds {
        header,
        relaxed,
        keeps,
        intervals,
    })
}

// The flow of the interval that starts at a request, and 0 if none does.
fn flow_from(bounds: &Bounds, t: u32) -> u64
    requires within { t < bounds.now.intervals.steps }
    requires each { HasEach bounds.now }
    ensures { result ≡ amount_of bounds.now.relaxed.solution.flows (starting_at bounds.now.intervals.items t) }
{
    match bounds.intervals.starting(t) {
        Some(number) => bounds.relaxed.solution.flow_of(number),
        None => 0,
    }
}

impl Records for Bounds {
    ghost use Rattle.bound_run.specs.Records.{HasEach, records_in};

    ghost list = { λ b. records_in b };

    ghost is_sound = { λ b. HasEach b };

    fn record_at(&self, t: u32) -> Record {
        Record {
            price: self.relaxed.solution.price_at(t),
            keep: self.keeps.as_slice()[t as usize],
            flow: flow_from(self, t),
        }
    }
}

// The bytes that a schedule writes, if they are counted.
fn written_by(asked: &BoundSettings, trace: &Trace, keeps: &[bool]) -> Option<u128>
    requires one_keep_each { length keeps.now ≡ length trace.now.objects }
    ensures { result ≡ written_by asked.now trace.now keeps.now }
{
    if asked.writes {
        Some(written_bytes(trace, asked.terms.warmup, keeps))
    } else {
        None
    }
}

// The texts of a certificate that is made of the trace.
fn texts_with(
    alloc: Global,
    format: Format,
    asked: &BoundSettings,
    trace: &Trace,
    notes: &TraceNotes,
    bounds: &Bounds,
) -> Result<Texts, NoMemory>
    requires made { IsMade asked.now trace.now bounds.now.relaxed.price bounds.now.header (records_in bounds.now) }
    requires intervals { bounds.now.intervals.items ≡ eligible_of trace.now.objects trace.now.fills bounds.now.header }
    requires each { HasEach bounds.now }
    ensures { IfOk result (λ texts. AreTexts format asked.now trace.now notes.now texts.cert.items texts.report.items) }
{
    let facts = BoundFacts {
        header: bounds.header,
        objects: trace.objects(),
        dropped: notes.dropped,
        mode: asked.mode,
        price: bounds.relaxed.price,
        intervals: bounds.intervals.as_slice().len() as u32,
        written: written_by(asked, trace, bounds.keeps.as_slice()),
    };
    let cert = cert_of(alloc, &bounds.header, bounds)?;
    let report = render(
        alloc,
        &facts,
        counting_of(format, &bounds.header, trace, &notes.noted),
    )?;
    Ok(Texts { cert, report })
}

/// The certificate and the report of a trace of this form as asked for, with what is told beside it.
pub(crate) fn texts_of(
    alloc: Global,
    format: Format,
    asked: &BoundSettings,
    trace: &Trace,
    notes: &TraceNotes,
) -> Result<Texts, BoundsFault>
    ensures texts { IfOk result (λ texts. AreTexts format asked.now trace.now notes.now texts.cert.items texts.report.items) }
    ensures refused { IfErr result (FailsBounds asked.now trace.now) }
{
    // Dropped here, for the proof.
    let texts = {
        let bounds = bounds_of(alloc, asked, trace)?;
        texts_with(alloc, format, asked, trace, notes, &bounds)
    };
    Ok(texts?)
}
