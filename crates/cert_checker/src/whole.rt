//! The check of all that two sources have left, by readers that are made for it.
ghost use Rattle.std.specs.Prelude.{◌≡◌, [], IfOk, IfErr};
ghost use Rattle.bound_io.specs.Devices.{seen};
ghost use Rattle.bound_io.specs.Reading.{LosesPrefix};
ghost use Rattle.cert_format.specs.Readers.{fresh as first_record};
ghost use Rattle.freshness.specs.Seen.{noted_of};
ghost use Rattle.trace_any.specs.Readers.{fresh as first_request};
ghost use Rattle.trace_any.specs.Readings.{IsFormat, full_limits};
ghost use Rattle.cert_checker.specs.Keeping.{no_requests};
ghost use Rattle.cert_checker.specs.Whole.{Ends, Fails, Passes};

use crate::keeper::Keeper;
use crate::verdict::Verdict;
use crate::walking::{CheckFault, Nothing, check_with};
use bound_io::Source;
use cert_format::CertReader;
use std::alloc::Global;
use trace_any::{Format, Limits, RequestReader, StaleRequests};

// The check by readers of which no call was made, and how many lines of the trace were dropped.
fn check_read<T: Source, Q: Source, K: Keeper>(
    alloc: Global,
    reader: &mut RequestReader,
    trace: &mut T,
    cert: &mut CertReader,
    certificate: &mut Q,
    keeper: &mut K,
) -> Result<(Verdict, u64), CheckFault>
    requires fresh_reader { reader.old ≡ first_request reader.old.format full_limits }
    requires fresh_cert { cert.old ≡ first_record }
    requires nothing { K.has keeper.old (no_requests reader.old.format) [] }
    ensures yes { IfOk result (λ p. Ends (K.has keeper.new) reader.old.format
        (seen T.left T.faults trace.old trace.new) (seen Q.left Q.faults certificate.old certificate.new) p.0 p.1 reader.new.seen.noted) }
    ensures no { IfErr result (Fails reader.old.format
        (seen T.left T.faults trace.old trace.new) (seen Q.left Q.faults certificate.old certificate.new)) }
    ensures trace_source { LosesPrefix (T.left trace.old) (T.left trace.new) }
    ensures cert_source { LosesPrefix (Q.left certificate.old) (Q.left certificate.new) }
{
    match check_with(alloc, reader, trace, cert, certificate, keeper) {
        Ok(verdict) => Ok((verdict, reader.dropped())),
        Err(fault) => Err(fault),
    }
}

// The same with what is noted of the requests, if the reader of the certificate is new. It owns the reader of requests, whose
// memory goes back here.
fn check_by<T: Source, Q: Source, K: Keeper>(
    alloc: Global,
    format: Format,
    trace: &mut T,
    cert: &mut CertReader,
    certificate: &mut Q,
    keeper: &mut K,
) -> Result<(Verdict, u64, StaleRequests), CheckFault>
    requires format { IsFormat format }
    requires fresh_cert { cert.old ≡ first_record }
    requires nothing { K.has keeper.old (no_requests format) [] }
    ensures yes { IfOk result (λ p. Ends (K.has keeper.new) format
        (seen T.left T.faults trace.old trace.new) (seen Q.left Q.faults certificate.old certificate.new) p.0 p.1 (noted_of p.2)) }
    ensures no { IfErr result (Fails format
        (seen T.left T.faults trace.old trace.new) (seen Q.left Q.faults certificate.old certificate.new)) }
    ensures trace_source { LosesPrefix (T.left trace.old) (T.left trace.new) }
    ensures cert_source { LosesPrefix (Q.left certificate.old) (Q.left certificate.new) }
{
    let mut reader = RequestReader::new(alloc, format, Limits::full())?;
    match check_read(alloc, &mut reader, trace, cert, certificate, keeper) {
        Ok((verdict, dropped)) => Ok((verdict, dropped, reader.into_noted())),
        Err(fault) => Err(fault),
    }
}

// The same of all that the sources have left. It owns the reader of the certificate, whose memory goes back here.
pub(crate) fn check_new<T: Source, Q: Source, K: Keeper>(
    alloc: Global,
    format: Format,
    trace: &mut T,
    certificate: &mut Q,
    keeper: &mut K,
) -> Result<(Verdict, u64, StaleRequests), CheckFault>
    requires format { IsFormat format }
    requires nothing { K.has keeper.old (no_requests format) [] }
    ensures yes { IfOk result (λ p. Ends (K.has keeper.new) format
        (seen T.left T.faults trace.old trace.new) (seen Q.left Q.faults certificate.old certificate.new) p.0 p.1 (noted_of p.2)) }
    ensures no { IfErr result (Fails format
        (seen T.left T.faults trace.old trace.new) (seen Q.left Q.faults certificate.old certificate.new)) }
    ensures trace_source { LosesPrefix (T.left trace.old) (T.left trace.new) }
    ensures cert_source { LosesPrefix (Q.left certificate.old) (Q.left certificate.new) }
{
    let mut cert = CertReader::new(alloc)?;
    check_by(alloc, format, trace, &mut cert, certificate, keeper)
}

/// The check of `check_streams` over all that the sources have left, within the limits of this program, and how many
/// lines of the trace were dropped. It makes both readers, and so takes their buffers too.
pub fn check_all<T: Source, Q: Source>(
    alloc: Global,
    format: Format,
    trace: &mut T,
    certificate: &mut Q,
) -> Result<(Verdict, u64), CheckFault>
    requires { IsFormat format }
    ensures yes { IfOk result (λ p. Passes format
        (seen T.left T.faults trace.old trace.new) (seen Q.left Q.faults certificate.old certificate.new) p.0 p.1) }
    ensures no { IfErr result (Fails format
        (seen T.left T.faults trace.old trace.new) (seen Q.left Q.faults certificate.old certificate.new)) }
    ensures trace_source { LosesPrefix (T.left trace.old) (T.left trace.new) }
    ensures cert_source { LosesPrefix (Q.left certificate.old) (Q.left certificate.new) }
{
    let (verdict, dropped, _) = check_new(alloc, format, trace, certificate, &mut Nothing)?;
    Ok((verdict, dropped))
}
