//! The check of a certificate against a trace, both read as streams.
ghost use Rattle.std.specs.Prelude.{◌≡◌, ◌≤◌, ◌<◌, ◌+◌, ◌^◌, [], IfOk, IfErr, IfSome, None, OnOk, length};
ghost use Rattle.bound_io.specs.Devices.{seen};
ghost use Rattle.bound_io.specs.Reading.{LosesPrefix, ReadsSource};
ghost use Rattle.cache_model.specs.Certificates.{IsRecordInRange};
ghost use Rattle.cert_checker.specs.declared.invalid.InvalidKind.TheVariants.{RequestCount};
ghost use Rattle.cert_format.specs.Lines.{IsTaken};
ghost use Rattle.cert_format.specs.Readers.{fresh};
ghost use Rattle.cert_checker.specs.declared.walking.CheckFault.TheVariants.{Invalid};
ghost use Rattle.cert_checker.specs.Checks.{ChecksNext, IsCalmBut, IsEvent, IsFresh, IsInSomeStep, IsInStep, IsNear};
ghost use Rattle.cert_checker.specs.Checks.{IsPassed, IsSteppedAt, KeepsAnswer, seen_cert, seen_inputs};
ghost use Rattle.cert_checker.specs.Keeping.{ChecksLast, IsCheckEnd, no_requests};
ghost use Rattle.cert_checker.specs.Summaries.{IsSized};
ghost use Rattle.cert_checker.specs.Walks.{text_kind};

use crate::checker::{Checker, StepFault};
use crate::invalid::InvalidKind;
use crate::keeper::Keeper;
use crate::verdict::Verdict;
use bound_base::NoMemory;
use bound_io::Source;
use cache_model::Object;
use cert_format::{CertFault, CertReader, Header, Record, TextKind};
use std::alloc::Global;
use thiserror::Error;
use trace_any::{RequestReader, TraceFault};

/// Why a check does not say yes.
#[derive(Clone, Copy, Debug, Error, PartialEq, Eq)]
pub enum CheckFault {
    /// The certificate fails at this line of it, which counts from 1.
    #[error("the certificate fails at line {line}: {kind:?}")]
    Invalid { line: u64, kind: InvalidKind },
    /// The trace is not read, for another reason than memory.
    #[error("the trace is not read: {0}")]
    Trace(TraceFault),
    /// A read of the certificate failed.
    #[error("a read of the certificate failed")]
    CertReadFault,
    /// There was not enough memory.
    #[error("there was not enough memory")]
    NoMemory,
}

impl From<NoMemory> for CheckFault {
    ghost use Rattle.std.specs.Prelude.{◌≡◌};
    ghost use Rattle.cert_checker.specs.declared.walking.CheckFault.TheVariants.{NoMemory as OutOfMemory};

    ghost from_gives = { λ _ f. f ≡ OutOfMemory };

    fn from(_: NoMemory) -> Self {
        CheckFault::NoMemory
    }
}

impl From<TraceFault> for CheckFault {
    ghost use Rattle.std.specs.Prelude.{◌≡◌};
    ghost use Rattle.cert_checker.specs.Checks.{of_trace};

    ghost from_gives = { λ fault f. f ≡ of_trace fault };

    fn from(fault: TraceFault) -> Self {
        match fault {
            TraceFault::NoMemory => CheckFault::NoMemory,
            _ => CheckFault::Trace(fault),
        }
    }
}

// The kind of a fault of a text.
fn kind_of(kind: TextKind) -> InvalidKind
    ensures { result ≡ text_kind kind }
{
    match kind {
        TextKind::Shape => InvalidKind::Shape,
        TextKind::Number => InvalidKind::Number,
        TextKind::Range => InvalidKind::Range,
        TextKind::TooLong => InvalidKind::TooLong,
    }
}

impl From<CertFault> for CheckFault {
    ghost use Rattle.std.specs.Prelude.{◌≡◌};
    ghost use Rattle.cert_checker.specs.Checks.{of_text};

    ghost from_gives = { λ fault f. f ≡ of_text fault };

    fn from(fault: CertFault) -> Self {
        let (line, kind) = match fault {
            CertFault::BadText { line, kind } => (line, kind_of(kind)),
            CertFault::Truncated { line } => (line, InvalidKind::Truncated),
            CertFault::Trailing { line } => (line, InvalidKind::Trailing),
            CertFault::ReadFault => return CheckFault::CertReadFault,
        };
        CheckFault::Invalid { line, kind }
    }
}

// The trace has not as many requests as the header says; this number was read.
fn count_differs(header: &Header, line: u64, read: u64) -> CheckFault
    ensures { result ≡ Invalid line (RequestCount header.now.requests read) }
{
    CheckFault::Invalid {
        line,
        kind: InvalidKind::RequestCount {
            written: header.requests as u128,
            read,
        },
    }
}

// How many records were read.
fn records_read(header: &Header, cert: &CertReader) -> u64
    requires { cert.now.left ≤ header.now.requests }
    ensures { result + cert.now.left ≡ header.now.requests }
{
    (header.requests - cert.left()) as u64
}

// The step of the checker with a request that only fills the cache, or counts, and the record of this line.
#[inline(always)]
fn step(
    checker: &mut Checker,
    only: bool,
    object: Object,
    entry: Record,
    line: u64,
) -> Result<(), CheckFault>
    requires fewer { checker.old.sums.steps < checker.old.header.requests }
    requires size { (1 ≤ object.size) × (object.size ≤ 2 ^ 48) }
    requires range { IsRecordInRange entry }
    ensures stepped { IsSteppedAt line checker.old checker.new object only entry result }
{
    match checker.take(object, only, entry) {
        Ok(()) => Ok(()),
        Err(StepFault::Rule(kind)) => Err(CheckFault::Invalid { line, kind }),
        Err(StepFault::NoMemory) => Err(CheckFault::NoMemory),
    }
}

// Reads and checks the next request and its record, and answers them, if there was one.
#[inline(always)]
fn check_next<T: Source, Q: Source>(
    alloc: Global,
    reader: &mut RequestReader,
    trace: &mut T,
    cert: &mut CertReader,
    certificate: &mut Q,
    header: &Header,
    checker: &mut Checker,
) -> Result<Option<(Object, Record)>, CheckFault>
    requires header { header.now ≡ checker.old.header }
    requires in_step { IsInStep (seen_inputs T.left T.faults Q.left Q.faults reader.old trace.old cert.old certificate.old) checker.old }
    ensures in_step { OnOk result (IsInStep (seen_inputs T.left T.faults Q.left Q.faults reader.new trace.new cert.new certificate.new) checker.new
        × (checker.new.header ≡ checker.old.header)) }
    ensures fewer { IfOk result (λ next. IfSome next (λ _. cert.new.left + 1 ≡ cert.old.left)) }
    ensures size { IfOk result (λ next. IfSome next (λ p. IsSized p.0)) }
    ensures checked { ChecksNext
        (seen_inputs T.left T.faults Q.left Q.faults reader.old trace.old cert.old certificate.old) checker.old
        (seen_inputs T.left T.faults Q.left Q.faults reader.new trace.new cert.new certificate.new) checker.new result }
    ensures else_none_failed { IfErr result (IsCalmBut
        (seen_inputs T.left T.faults Q.left Q.faults reader.old trace.old cert.old certificate.old)
        (seen_inputs T.left T.faults Q.left Q.faults reader.new trace.new cert.new certificate.new)) }
    ensures trace { LosesPrefix (T.left trace.old) (T.left trace.new) × (T.faults trace.old ≤ T.faults trace.new)
        × (length reader.new.lines.held ≤ 65536) }
    ensures taken { IsTaken cert.old.lines cert.new.lines (Q.left certificate.old) (Q.left certificate.new) }
    ensures kept { KeepsAnswer reader.new.fault cert.new.fault result }
    ensures cert { LosesPrefix (Q.left certificate.old) (Q.left certificate.new) × (Q.faults certificate.old ≤ Q.faults certificate.new)
        × (length cert.new.lines.held ≤ 65536) }
{
    let Some(object) = reader.next(alloc, trace)? else {
        return Ok(None);
    };
    let only = reader.last_fills();
    let read = records_read(header, cert);
    if read == header.requests as u64 {
        return Err(count_differs(header, cert.line(), read + 1));
    }
    let entry = cert.next_record(certificate)?;
    step(checker, only, object, entry, cert.line())?;
    Ok(Some((object, entry)))
}

// Reads and checks the end, after the last request of the trace.
fn check_last<Q: Source>(
    cert: &mut CertReader,
    certificate: &mut Q,
    header: &Header,
    checker: &Checker,
) -> Result<Verdict, CheckFault>
    requires header { header.now ≡ checker.now.header }
    requires in_step { IsInSomeStep (seen_cert Q.left Q.faults cert.old certificate.old) checker.now }
    ensures checked { ChecksLast
        (seen_cert Q.left Q.faults cert.old certificate.old) checker.now
        (seen_cert Q.left Q.faults cert.new certificate.new) result }
    ensures taken { IsTaken cert.old.lines cert.new.lines (Q.left certificate.old) (Q.left certificate.new) }
    ensures kept { KeepsAnswer None cert.new.fault result }
    ensures reads { ReadsSource CheckFault.CertReadFault (seen Q.left Q.faults certificate.old certificate.new) result }
{
    let read = records_read(header, cert);
    if read < header.requests as u64 {
        return Err(count_differs(header, cert.line(), read));
    }
    let end = cert.line() + 1;
    cert.finish_text(certificate)?;
    match checker.verdict() {
        Ok(verdict) => Ok(verdict),
        Err(kind) => Err(CheckFault::Invalid { line: end, kind }),
    }
}

/// The check of `check_streams`, which gives a keeper each request that passes, and its record.
pub(crate) fn check_with<T: Source, Q: Source, K: Keeper>(
    alloc: Global,
    reader: &mut RequestReader,
    trace: &mut T,
    cert: &mut CertReader,
    certificate: &mut Q,
    keeper: &mut K,
) -> Result<Verdict, CheckFault>
    requires fresh_reader { IsFresh reader.old }
    requires fresh_cert { cert.old ≡ fresh }
    requires nothing { K.has keeper.old (no_requests reader.old.format) [] }
    ensures checked { IsCheckEnd (K.has keeper.new)
        (seen_inputs T.left T.faults Q.left Q.faults reader.old trace.old cert.old certificate.old)
        (seen_inputs T.left T.faults Q.left Q.faults reader.new trace.new cert.new certificate.new) result }
    ensures else_none_failed { IfErr result (IsCalmBut
        (seen_inputs T.left T.faults Q.left Q.faults reader.old trace.old cert.old certificate.old)
        (seen_inputs T.left T.faults Q.left Q.faults reader.new trace.new cert.new certificate.new)) }
    ensures taken { IsTaken cert.old.lines cert.new.lines (Q.left certificate.old) (Q.left certificate.new) }
    ensures kept { KeepsAnswer reader.new.fault cert.new.fault result }
    ensures trace { LosesPrefix (T.left trace.old) (T.left trace.new) × (T.faults trace.old ≤ T.faults trace.new)
        × (length reader.new.lines.held ≤ 65536) }
    ensures cert { LosesPrefix (Q.left certificate.old) (Q.left certificate.new) × (Q.faults certificate.old ≤ Q.faults certificate.new) }
{
    let header = cert.header(certificate)?;
    let mut checker = Checker::new(alloc, header)?;
    while let Some((object, entry)) = check_next(
        alloc,
        reader,
        trace,
        cert,
        certificate,
        &header,
        &mut checker,
    )? {
        keeper.keep(object, reader.last_fills(), entry)?;
    }
    check_last(cert, certificate, &header, &checker)
}

// A keeper that keeps nothing.
#[derive(Drop)]
pub(crate) struct Nothing;

impl Keeper for Nothing {
    ghost has = { λ _ _ _. Unit {0} };

    fn keep(&mut self, _object: Object, _only: bool, _entry: Record) -> Result<(), NoMemory> {
        Ok(())
    }
}

/// Whether the certificate of one source is valid for the trace of the other, and else the first thing that fails, as
/// both are read side by side, from their start to their end. No call of either reader was made before.
///
/// It takes memory for the different objects and the hosts of the volumes, and none for the text of either.
pub fn check_streams<T: Source, Q: Source>(
    alloc: Global,
    reader: &mut RequestReader,
    trace: &mut T,
    cert: &mut CertReader,
    certificate: &mut Q,
) -> Result<Verdict, CheckFault>
    requires fresh_reader { IsFresh reader.old }
    requires fresh_cert { cert.old ≡ fresh }
    ensures yes { IfOk result (IsPassed
        (seen_inputs T.left T.faults Q.left Q.faults reader.old trace.old cert.old certificate.old)
        (seen_inputs T.left T.faults Q.left Q.faults reader.new trace.new cert.new certificate.new)) }
    ensures event { IfErr result (IsEvent
        (seen_inputs T.left T.faults Q.left Q.faults reader.old trace.old cert.old certificate.old)
        (seen_inputs T.left T.faults Q.left Q.faults reader.new trace.new cert.new certificate.new)) }
    ensures near { IfErr result (IsNear
        (seen_inputs T.left T.faults Q.left Q.faults reader.old trace.old cert.old certificate.old)
        (seen_inputs T.left T.faults Q.left Q.faults reader.new trace.new cert.new certificate.new)) }
    ensures else_none_failed { IfErr result (IsCalmBut
        (seen_inputs T.left T.faults Q.left Q.faults reader.old trace.old cert.old certificate.old)
        (seen_inputs T.left T.faults Q.left Q.faults reader.new trace.new cert.new certificate.new)) }
    ensures kept { KeepsAnswer reader.new.fault cert.new.fault result }
    ensures trace_source { LosesPrefix (T.left trace.old) (T.left trace.new) }
    ensures trace_later { T.faults trace.old ≤ T.faults trace.new }
    ensures trace_ahead { length reader.new.lines.held ≤ 65536 }
    ensures cert_source { LosesPrefix (Q.left certificate.old) (Q.left certificate.new) }
    ensures cert_later { Q.faults certificate.old ≤ Q.faults certificate.new }
{
    check_with(alloc, reader, trace, cert, certificate, &mut Nothing)
}
