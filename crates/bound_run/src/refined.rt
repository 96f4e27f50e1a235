//! A certificate whose prices are refined: it is checked, its prices are settled block by block, and it is written again.
ghost use Rattle.std.specs.Prelude.{◌≡◌, ◌≤◌, IfOk, IfErr, OnOk};
ghost use Rattle.bound_io.specs.Devices.{seen};
ghost use Rattle.bound_io.specs.Reading.{LosesPrefix};
ghost use Rattle.cache_model.specs.Certificates.{IsValid, prices_of};
ghost use Rattle.trace_any.specs.Readings.{IsFormat};
ghost use Rattle.bound_run.specs.Refusals.{RefusesCheck};
ghost use Rattle.bound_run.specs.Refined.{AreRefinedTexts, IsKept, IsRefined, RefinesPrices, verdict_on, with_price, with_upper};

use crate::bounds::intervals_of;
use crate::status::refusal_of_check;
use crate::writing::Texts;
use bound_base::NoMemory;
use bound_io::Source;
use bound_report::{CheckFacts, RefinementFacts, Refusal, render};
use cache_model::{Header, Record, Terms};
use cert_checker::{Kept, Verdict, keep_all};
use cert_format::{Records, cert_of};
use price_refine::{Refined, refine};
use run_counts::counting_of;
use std::alloc::Global;
use trace_any::{Format, TraceNotes};

// The terms of a certificate.
fn terms_of(header: &Header) -> Terms
    ensures { result ≡ record { objective = header.now.objective; capacity = header.now.capacity; warmup = header.now.warmup } }
{
    Terms {
        objective: header.objective,
        capacity: header.capacity,
        warmup: header.warmup,
    }
}

// The price of each step.
fn prices_of(alloc: Global, records: &[Record]) -> Result<Vec<u128>, NoMemory>
    ensures { IfOk result (λ prices. prices.items ≡ prices_of records.now) }
{
    Ok(records.iter().map(|record| record.price).collect(alloc)?)
}

// Refined prices of a certificate that is valid for the trace.
fn refine_kept(alloc: Global, kept: &Kept, width: u32) -> Result<Refined, NoMemory>
    requires valid { IsValid kept.now.trace.objects kept.now.trace.fills kept.now.verdict.header kept.now.records }
    requires width { 1 ≤ width }
    ensures refined { IfOk result (RefinesPrices width kept.now.trace kept.now.verdict.header) }
{
    let header = &kept.verdict().header;
    let intervals = intervals_of(alloc, terms_of(header), kept.trace())?;
    let prices = prices_of(alloc, kept.records())?;
    refine(
        alloc,
        &intervals,
        header.unit,
        header.capacity / header.unit,
        header.denominator,
        width,
        &prices,
    )
}

// The record with another price.
fn with_price(entry: &Record, price: u128) -> Record
    ensures { result ≡ with_price entry.now price }
{
    Record {
        price,
        keep: entry.keep,
        flow: entry.flow,
    }
}

// The records of a certificate with other prices.
#[derive(Drop)]
struct Repriced<'a> {
    records: &'a [Record],
    prices: &'a [u128],
}

impl<'a> Records for Repriced<'a> {
    ghost use Rattle.std.specs.Prelude.{◌≡◌, length};
    ghost use Rattle.bound_run.specs.Refined.{with_prices};

    ghost list = { λ r. with_prices r.records.now r.prices.now };

    ghost is_sound = { λ r. length r.prices.now ≡ length r.records.now };

    fn record_at(&self, t: u32) -> Record {
        with_price(&self.records[t as usize], self.prices[t as usize])
    }
}

// The verdict of a certificate with another upper bound.
fn with_upper(verdict: &Verdict, upper: u128) -> Verdict
    ensures { result ≡ record { header = with_upper verdict.now.header upper; objects = verdict.now.objects } }
{
    let mut changed = *verdict;
    changed.header.upper = upper;
    changed
}

// The certificate and the report of a refinement of one that is valid for the trace.
fn texts_of_kept(
    alloc: Global,
    format: Format,
    kept: &Kept,
    notes: &TraceNotes,
    width: u32,
) -> Result<Texts, NoMemory>
    requires valid { IsValid kept.now.trace.objects kept.now.trace.fills kept.now.verdict.header kept.now.records }
    requires verdict { kept.now.verdict ≡ verdict_on kept.now.trace kept.now.verdict.header }
    requires width { 1 ≤ width }
    ensures { IfOk result (λ texts. AreRefinedTexts format width kept.now.trace notes.now
        kept.now.verdict.header kept.now.records texts.cert.items texts.report.items) }
{
    let refined = refine_kept(alloc, kept, width)?;
    let made = with_upper(kept.verdict(), refined.upper());
    let records = Repriced {
        records: kept.records(),
        prices: refined.prices(),
    };
    let cert = cert_of(alloc, &made.header, &records)?;
    let read = kept.verdict().header;
    let facts = RefinementFacts {
        read_upper: read.upper,
        check: CheckFacts {
            verdict: made,
            dropped: notes.dropped,
        },
    };
    let report = render(
        alloc,
        &facts,
        counting_of(format, &read, kept.trace(), &notes.noted),
    )?;
    Ok(Texts { cert, report })
}

// Checks the certificate against the trace, and keeps both, as they are read to their ends.
fn keep_read<T: Source, Q: Source>(
    alloc: Global,
    format: Format,
    trace: &mut T,
    cert: &mut Q,
) -> Result<(Kept, TraceNotes), Refusal>
    requires { IsFormat format }
    ensures kept { IfOk result (λ k. IsKept format
        (seen T.left T.faults trace.old trace.new) (seen Q.left Q.faults cert.old cert.new) k.0 k.1) }
    ensures refused { IfErr result (RefusesCheck format
        (seen T.left T.faults trace.old trace.new) (seen Q.left Q.faults cert.old cert.new)) }
    ensures trace_source { LosesPrefix (T.left trace.old) (T.left trace.new) }
    ensures cert_source { LosesPrefix (Q.left cert.old) (Q.left cert.new) }
    ensures none_failed { OnOk result ((T.faults trace.new ≡ T.faults trace.old) × (Q.faults cert.new ≡ Q.faults cert.old)) }
{
    match keep_all(alloc, format, trace, cert) {
        Ok((kept, dropped, noted)) => Ok((kept, TraceNotes { dropped, noted })),
        Err(fault) => Err(refusal_of_check(fault)),
    }
}

/// The certificate and the report of a refinement of all that the sources have left, with blocks of this number of
/// steps.
pub(crate) fn refine_all<T: Source, Q: Source>(
    alloc: Global,
    format: Format,
    width: u32,
    trace: &mut T,
    cert: &mut Q,
) -> Result<Texts, Refusal>
    requires format { IsFormat format }
    requires width { 1 ≤ width }
    ensures refined { IfOk result (λ texts. IsRefined format width
        (seen T.left T.faults trace.old trace.new) (seen Q.left Q.faults cert.old cert.new) texts.cert.items texts.report.items) }
    ensures refused { IfErr result (RefusesCheck format
        (seen T.left T.faults trace.old trace.new) (seen Q.left Q.faults cert.old cert.new)) }
    ensures trace_source { LosesPrefix (T.left trace.old) (T.left trace.new) }
    ensures cert_source { LosesPrefix (Q.left cert.old) (Q.left cert.new) }
    ensures none_failed { OnOk result ((T.faults trace.new ≡ T.faults trace.old) × (Q.faults cert.new ≡ Q.faults cert.old)) }
{
    // Dropped here, for the proof.
    let texts = {
        let (kept, notes) = keep_read(alloc, format, trace, cert)?;
        texts_of_kept(alloc, format, &kept, &notes, width)
    };
    Ok(texts?)
}
