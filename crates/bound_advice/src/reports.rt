//! What looks odd in the report of a run that ended well.
ghost use Rattle.std.specs.Prelude.{◌≡◌, is_some, slice_index_or, IfOk};
ghost use Rattle.bound_advice.specs.Oddities.{may_be_packed};

use crate::devices::Seen;
use crate::starts::packed_by;
use crate::traces::packed_advice;
use crate::words::Words;
use bound_report::Numbers;
use bound_words::MOST_DENOMINATOR;
use std::alloc::{AllocError, Global};
use trace_any::Layout;

// That the trace has nothing to count.
fn empty_advice(alloc: Global, report: Numbers) -> Result<Option<String>, AllocError> {
    let dropped = report.dropped.unwrap_or(0);
    match (report.requests, report.warmup) {
        (Some(0), _) if dropped > 0 => Ok(Some(format!(in alloc;
            "the trace has no request: all its {dropped} lines have the size 0"
        )?)),
        (Some(0), _) => Ok(Some(String::from_str(alloc, "the trace has no request")?)),
        (Some(requests), Some(warmup)) if warmup >= requests => Ok(Some(format!(in alloc;
            "the warm-up of {warmup} takes in all {requests} requests, so none counts"
        )?)),
        _ => Ok(None),
    }
}

// How many requests ask for an object again.
fn asked_again(report: Numbers) -> u64 {
    let requests = report.requests.unwrap_or(0);
    requests.saturating_sub(report.objects.unwrap_or(0))
}

// What unit the times of a layout are in.
fn unit_of(layout: Layout) -> &'static str {
    match layout {
        Layout::Msr { .. } | Layout::MsrReads { .. } => {
            "the times of msr are in units of 100 nanoseconds, 10000000 of them a second"
        }
        _ => "the unit of the time is that of the trace, as seconds or milliseconds",
    }
}

// That the time after which objects expire may be in another unit, since whatever is asked for again is stale.
fn idle_advice(
    alloc: Global,
    words: Words<'_>,
    report: Numbers,
) -> Result<Option<String>, AllocError> {
    let again = asked_again(report);
    match (words.form(), report.idle, report.stale) {
        (Some(form), Some(idle), Some(stale))
            if again > 0 && stale >= again && !form.fresh.replace => {
            let unit = unit_of(form.layout);
            Ok(Some(format!(in alloc;
                "each request that asks for an object again comes more than {idle} after the one before it: {unit}"
            )?))
        }
        _ => Ok(None),
    }
}

// That the capacity may be too small for nearly all that is asked for again. A warm-up leaves fewer intervals, and so do
// stale requests.
fn capacity_advice(alloc: Global, report: Numbers) -> Result<Option<String>, AllocError> {
    let again = asked_again(report).saturating_sub(report.stale.unwrap_or(0));
    match (report.intervals, report.capacity, report.warmup) {
        (Some(fitting), Some(capacity), None) if again > 0 && fitting <= again / 10 => {
            Ok(Some(format!(in alloc;
                "of {again} requests that ask for an object again, {fitting} ask for one that fits {capacity} bytes; is the capacity in bytes?"
            )?))
        }
        _ => Ok(None),
    }
}

// That costs were shared among windows in numbers that are too coarse.
fn window_advice(alloc: Global, report: Numbers) -> Result<Option<String>, AllocError> {
    let requests = report.requests.unwrap_or(0);
    match (report.window, report.denominator) {
        (Some(window), Some(denominator)) if window < requests && denominator < MOST_DENOMINATOR =>
            Ok(Some(format!(in alloc;
                "windows share costs in whole numbers over the denominator, here {denominator}; denominator={MOST_DENOMINATOR} rounds least"
            )?)),
        _ => Ok(None),
    }
}

// That records may be those of a packed file.
fn packed_records(
    alloc: Global,
    words: Words<'_>,
    trace: Seen<'_>,
    start: &[u8],
) -> Result<Option<String>, AllocError>
    ensures { IfOk result (λ odd. is_some odd ≡ may_be_packed words.entry start.now) }
{
    match (packed_by(start), words.form().map(|form| form.layout)) {
        (Some((by, unpack)), Some(Layout::Oracle)) => Ok(Some(packed_advice(
            alloc,
            trace,
            words.command_word(),
            by,
            unpack,
        )?)),
        _ => Ok(None),
    }
}

/// What looks odd in a run that ended well, of which the report has these numbers, and the trace begins with these bytes.
pub fn oddities_of(
    alloc: Global,
    words: Words<'_>,
    trace: Seen<'_>,
    trace_start: &[u8],
    report: Numbers,
) -> Result<[Option<String>; 5], AllocError>
    ensures { IfOk result (λ odd. is_some (slice_index_or odd 0 None) ≡ may_be_packed words.entry trace_start.now) }
{
    Ok([
        packed_records(alloc, words, trace, trace_start)?,
        empty_advice(alloc, report)?,
        idle_advice(alloc, words, report)?,
        capacity_advice(alloc, report)?,
        window_advice(alloc, report)?,
    ])
}
