//! How the requests of a trace count, and what is counted only if it is asked for.
ghost use Rattle.std.specs.Prelude.{◌≡◌, if◌then◌else◌, count_by, false, slice_index_or, None, Some};
ghost use Rattle.bit_list.specs.Bits.{bits_of};
ghost use Rattle.cache_model.specs.Claim.{counts_past};
ghost use Rattle.cache_model.specs.Objects.{numbers_of};
ghost use Rattle.trace_any.specs.Counts.{counted_in, stale_in};
ghost use Rattle.freshness.specs.Seen.{noted_of};
ghost use Rattle.run_counts.specs.Countings.{counting_found, counting_from, counting_of};

use bit_list::BitList;
use bound_report::{Counting, StaleCounts};
use cache_model::Header;
use cache_rules::Trace;
use cert_checker::Passed;
use trace_any::{Format, StaleRequests};

// How many requests from the warm-up on don't only fill the cache.
fn count_marked(warmup: u32, trace: &Trace) -> u32
    ensures { result ≡ count_by (counts_past warmup trace.now.fills) (numbers_of trace.now.objects) }
{
    (0..trace.len())
        .filter(|t| trace.counts(*t, warmup))
        .count() as u32
}

// How many don't by the marks that are noted of them.
fn count_noted(warmup: u32, trace: &Trace, own: &BitList) -> u32
    ensures { result ≡ count_by (counts_past warmup (bits_of own.now)) (numbers_of trace.now.objects) }
{
    (0..trace.len())
        .filter(|t| *t >= warmup && !own.get(*t as usize))
        .count() as u32
}

// How many requests are stale.
fn count_stale(trace: &Trace, stale: &BitList) -> u32
    ensures { result ≡ count_by (λ t. slice_index_or (bits_of stale.now) t false) (numbers_of trace.now.objects) }
{
    (0..trace.len()).filter(|t| stale.get(*t as usize)).count() as u32
}

// How many requests from the warm-up on count by their own marks, if the form of the trace has marks.
fn counted_in(format: Format, warmup: u32, trace: &Trace, noted: &StaleRequests) -> Option<u32>
    ensures { result ≡ counted_in format warmup trace.now (noted_of noted.now) }
{
    if !format.layout.has_marks() {
        return None;
    }
    if format.fresh.can_end() {
        Some(count_noted(warmup, trace, &noted.own))
    } else {
        Some(count_marked(warmup, trace))
    }
}

// How many requests are stale, if any can be.
fn stale_in(format: Format, trace: &Trace, noted: &StaleRequests) -> Option<u32>
    ensures { result ≡ stale_in format trace.now (noted_of noted.now) }
{
    if format.fresh.can_end() {
        Some(count_stale(trace, &noted.stale))
    } else {
        None
    }
}

/// How the requests of a trace of this form count from a warm-up on.
pub fn counting_from(format: Format, warmup: u32, trace: &Trace, noted: &StaleRequests) -> Counting
    ensures { result ≡ counting_from format warmup trace.now (noted_of noted.now) }
{
    Counting {
        warmup,
        counted: counted_in(format, warmup, trace, noted),
        stale: StaleCounts {
            idle: format.fresh.idle,
            ttl: format.fresh.ttl,
            late: noted.late,
            stale: stale_in(format, trace, noted),
        },
    }
}

/// How the requests of a trace of this form count from the warm-up of a certificate on.
pub fn counting_of(
    format: Format,
    header: &Header,
    trace: &Trace,
    noted: &StaleRequests,
) -> Counting
    ensures { result ≡ counting_of format header.now trace.now (noted_of noted.now) }
{
    counting_from(format, header.warmup, trace, noted)
}

/// Bytes that are written, if they are to be counted.
pub fn if_counted(counted: bool, written: u128) -> Option<u128>
    ensures { result ≡ (if counted then Some written else None) }
{
    counted.then_some(written)
}

/// How they count as a check of a certificate found it.
pub fn counting_found(format: Format, passed: &Passed) -> Counting
    ensures { result ≡ counting_found format passed.now }
{
    Counting {
        warmup: passed.verdict.header.warmup,
        counted: passed.counted,
        stale: StaleCounts {
            idle: format.fresh.idle,
            ttl: format.fresh.ttl,
            late: passed.late,
            stale: passed.stale,
        },
    }
}
