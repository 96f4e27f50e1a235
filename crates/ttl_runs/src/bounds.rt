//! The bounds of a trace with a time to live, and their texts.
ghost use Rattle.std.specs.Prelude.{◌≡◌, length, IfOk, IfErr};
ghost use Rattle.ttl_bounds.specs.Faults.{FailsTtlBounds};
ghost use Rattle.ttl_bounds.specs.Made.{IsMadeWithTtl};
ghost use Rattle.ttl_bounds.specs.Records.{records_in};
ghost use Rattle.ttl_runs.specs.Bounds.{AreTextsWithTtl, asked_of, is_free};

use bound_base::NoMemory;
use bound_report::{BoundFacts, render};
use bound_terms::Mode;
use bound_words::BoundSettings;
use cert_format::cert_of;
use run_counts::{counting_of, if_counted};
use std::alloc::Global;
use trace_any::{Format, TraceNotes};
use ttl_bounds::{TtlAsked, TtlBounds, TtlBoundsFault, bounds_with_ttl};
use ttl_prices::TimedTrace;

/// A certificate and a report.
#[derive(Drop)]
pub struct TtlTexts {
    pub cert: Vec<u8>,
    pub report: Vec<u8>,
}

// Whether all prices are 0 in the mode.
fn is_free(mode: Mode) -> bool
    ensures { result ≡ is_free mode }
{
    match mode {
        Mode::Infinite => true,
        Mode::Constant | Mode::Flow { .. } => false,
    }
}

// The bounds that are asked for.
fn asked_of(asked: &BoundSettings) -> TtlAsked
    ensures { result ≡ asked_of asked.now }
{
    TtlAsked::new(
        asked.terms,
        is_free(asked.mode),
        asked.denominator,
        asked.version,
    )
}

// The texts of bounds that are made of the trace.
fn texts_of(
    alloc: Global,
    format: Format,
    asked: &BoundSettings,
    timed: &TimedTrace<'_>,
    notes: &TraceNotes,
    bounds: &TtlBounds,
) -> Result<TtlTexts, NoMemory>
    requires made { IsMadeWithTtl (asked_of asked.now) timed.now.trace.now timed.now.times.now timed.now.ttl
        bounds.now.price bounds.now.intervals bounds.now.written bounds.now.header (records_in bounds.now) }
    ensures { IfOk result (λ texts.
        AreTextsWithTtl format asked.now timed.now.trace.now notes.now timed.now.times.now timed.now.ttl texts.cert.items texts.report.items) }
{
    let facts = BoundFacts {
        header: bounds.header,
        objects: timed.trace.objects(),
        dropped: notes.dropped,
        mode: asked.mode,
        price: bounds.price,
        intervals: bounds.intervals,
        written: if_counted(asked.writes, bounds.written),
    };
    let cert = cert_of(alloc, &bounds.header, bounds)?;
    let counting = counting_of(format, &bounds.header, timed.trace, &notes.noted);
    let report = render(alloc, &facts, counting)?;
    Ok(TtlTexts { cert, report })
}

/// The certificate and the report of a trace of this form as asked for, with a time to live and what is told beside the
/// trace. The marks of the trace are those in which what is stale only fills.
///
/// It takes the time and the memory of `bounds_with_ttl`, and the memory of the two texts.
pub fn texts_with_ttl(
    alloc: Global,
    format: Format,
    asked: &BoundSettings,
    timed: &TimedTrace<'_>,
    notes: &TraceNotes,
) -> Result<TtlTexts, TtlBoundsFault>
    requires times { length timed.now.times.now ≡ length timed.now.trace.now.objects }
    ensures texts { IfOk result (λ texts.
        AreTextsWithTtl format asked.now timed.now.trace.now notes.now timed.now.times.now timed.now.ttl texts.cert.items texts.report.items) }
    ensures refused { IfErr result (FailsTtlBounds (asked_of asked.now) timed.now.trace.now) }
{
    // Dropped here, for the proof.
    let texts = {
        let bounds = bounds_with_ttl(alloc, &asked_of(asked), timed)?;
        texts_of(alloc, format, asked, timed, notes, &bounds)
    };
    Ok(texts?)
}
