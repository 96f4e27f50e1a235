//! A check that keeps what it reads.
ghost use Rattle.std.specs.Prelude.{◌≡◌, ◌≤◌, ◌<◌, ◌^◌, [], true, IfOk, IfErr, OnOk, length};
ghost use Rattle.bound_io.specs.Devices.{seen};
ghost use Rattle.bound_io.specs.Reading.{LosesPrefix};
ghost use Rattle.cert_format.specs.Readers.{fresh};
ghost use Rattle.cache_rules.specs.Stored.{made_more};
ghost use Rattle.cert_checker.specs.Checks.{IsCalmBut, IsEvent, IsFresh, IsNear, KeepsAnswer, seen_inputs};
ghost use Rattle.cert_checker.specs.Keeping.{HasKept};
ghost use Rattle.cert_checker.specs.Whole.{Fails, Keeps};
ghost use Rattle.freshness.specs.Seen.{noted_of};
ghost use Rattle.trace_any.specs.Readings.{IsFormat};

use crate::keeper::Keeper;
use crate::verdict::Verdict;
use crate::walking::{CheckFault, check_with};
use crate::whole::check_new;
use bound_base::NoMemory;
use bound_io::Source;
use cache_model::Object;
use cache_rules::{Builder, Trace};
use cert_format::{CertReader, Record};
use std::alloc::Global;
use std::marker::Model;
use trace_any::{Format, RequestReader, StaleRequests};

/// A yes, with the requests of the trace and the records of the certificate.
#[derive(Debug, Drop)]
pub struct Kept {
    verdict: Verdict,
    trace: Trace,
    records: Vec<Record>,
}

impl Model for Kept {
    ghost use Rattle.cert_checker.specs.Keeping.{Checked};

    ghost Value = { Checked };

    ghost view = { λ k. record { verdict = k.verdict; trace = k.trace; records = k.records.items } };
}

impl Kept {
    /// The yes.
    pub fn verdict(&self) -> &Verdict
        ensures { result.now ≡ self.now.verdict }
    {
        &self.verdict
    }

    /// The requests of the trace, with their marks.
    pub fn trace(&self) -> &Trace
        ensures { result.now ≡ self.now.trace }
    {
        &self.trace
    }

    /// The record of each request.
    pub fn records(&self) -> &[Record]
        ensures { result.now ≡ self.now.records }
    {
        &self.records
    }
}

// A builder without requests, which keeps marks or not.
fn builder_of(alloc: Global, marks: bool) -> Result<Builder, NoMemory>
    ensures { IfOk result (λ b. b ≡ record { requests = record { objects = []; fills = [] }; marks = marks }) }
{
    if marks {
        Builder::marking(alloc)
    } else {
        Builder::new(alloc)
    }
}

// Appends a request that only fills the cache, or counts.
fn push(requests: &mut Builder, object: Object, only: bool) -> Result<(), NoMemory>
    requires marks { only ≡ true → requests.old.marks ≡ true }
    requires few { length requests.old.requests.objects < 2 ^ 25 }
    requires size { (1 ≤ object.size) × (object.size ≤ 2 ^ 48) }
    ensures { OnOk result (requests.new ≡ made_more requests.old object only) }
{
    if only {
        requests.push_filling(object)
    } else {
        requests.push(object)
    }
}

// Keeps all.
#[derive(Drop)]
struct Lists {
    requests: Builder,
    records: Vec<Record>,
}

impl Keeper for Lists {
    ghost use Rattle.std.specs.Prelude.{◌≡◌};

    ghost has = { λ lists given records. (lists.requests ≡ given) × (lists.records.items ≡ records) };

    fn keep(&mut self, object: Object, only: bool, entry: Record) -> Result<(), NoMemory> {
        push(&mut self.requests, object, only)?;
        self.records.push(entry)?;
        Ok(())
    }
}

/// The check of `check_streams` that keeps the trace and the records.
///
/// Besides it takes, for each request, what a `Trace` takes and at most 64 bytes of the list of records, which grows by
/// doubling: 96 while it is moved.
pub fn check_and_keep<T: Source, Q: Source>(
    alloc: Global,
    reader: &mut RequestReader,
    trace: &mut T,
    cert: &mut CertReader,
    certificate: &mut Q,
) -> Result<Kept, CheckFault>
    requires fresh_reader { IsFresh reader.old }
    requires fresh_cert { cert.old ≡ fresh }
    ensures yes { IfOk result (HasKept
        (seen_inputs T.left T.faults Q.left Q.faults reader.old trace.old cert.old certificate.old)
        (seen_inputs T.left T.faults Q.left Q.faults reader.new trace.new cert.new certificate.new)) }
    ensures event { IfErr result (IsEvent
        (seen_inputs T.left T.faults Q.left Q.faults reader.old trace.old cert.old certificate.old)
        (seen_inputs T.left T.faults Q.left Q.faults reader.new trace.new cert.new certificate.new)) }
    ensures near { IfErr result (IsNear
        (seen_inputs T.left T.faults Q.left Q.faults reader.old trace.old cert.old certificate.old)
        (seen_inputs T.left T.faults Q.left Q.faults reader.new trace.new cert.new certificate.new)) }
    ensures else_none_failed { IfErr result (IsCalmBut
        (seen_inputs T.left T.faults Q.left Q.faults reader.old trace.old cert.old certificate.old)
        (seen_inputs T.left T.faults Q.left Q.faults reader.new trace.new cert.new certificate.new)) }
    ensures kept { KeepsAnswer reader.new.fault cert.new.fault result }
    ensures trace_source { LosesPrefix (T.left trace.old) (T.left trace.new) }
    ensures trace_later { T.faults trace.old ≤ T.faults trace.new }
    ensures trace_ahead { length reader.new.lines.held ≤ 65536 }
    ensures cert_source { LosesPrefix (Q.left certificate.old) (Q.left certificate.new) }
    ensures cert_later { Q.faults certificate.old ≤ Q.faults certificate.new }
{
    let mut lists = Lists {
        requests: builder_of(alloc, reader.is_marked())?,
        records: Vec::new(alloc),
    };
    let verdict = check_with(alloc, reader, trace, cert, certificate, &mut lists)?;
    Ok(Kept {
        verdict,
        trace: lists.requests.finish(),
        records: lists.records,
    })
}

/// The check of `check_all` that keeps the trace and the records, as `check_and_keep` does, and what is noted of the requests.
pub fn keep_all<T: Source, Q: Source>(
    alloc: Global,
    format: Format,
    trace: &mut T,
    certificate: &mut Q,
) -> Result<(Kept, u64, StaleRequests), CheckFault>
    requires { IsFormat format }
    ensures yes { IfOk result (λ p. Keeps format
        (seen T.left T.faults trace.old trace.new) (seen Q.left Q.faults certificate.old certificate.new) p.0 p.1 (noted_of p.2)) }
    ensures no { IfErr result (Fails format
        (seen T.left T.faults trace.old trace.new) (seen Q.left Q.faults certificate.old certificate.new)) }
    ensures trace_source { LosesPrefix (T.left trace.old) (T.left trace.new) }
    ensures cert_source { LosesPrefix (Q.left certificate.old) (Q.left certificate.new) }
{
    let mut lists = Lists {
        requests: builder_of(alloc, format.is_marked())?,
        records: Vec::new(alloc),
    };
    let (verdict, dropped, noted) = check_new(alloc, format, trace, certificate, &mut lists)?;
    let kept = Kept {
        verdict,
        trace: lists.requests.finish(),
        records: lists.records,
    };
    Ok((kept, dropped, noted))
}
