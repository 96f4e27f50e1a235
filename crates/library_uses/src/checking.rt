//! A certificate in memory is checked against a trace in memory.
ghost use Rattle.std.specs.Prelude.{IfOk, IfErr};
ghost use Rattle.library_uses.specs.Uses.{IsCertified, IsUncertified, StopsAt};

use bound_io::CalmSource;
use cert_checker::{CheckFault, Verdict, check_all};
use std::alloc::Global;
use trace_any::{Format, Layout};

/// What a certificate states of a trace in the form webcache, if it is valid for it.
pub fn checked(alloc: Global, trace: Vec<u8>, cert: Vec<u8>) -> Result<Verdict, CheckFault>
    ensures certified { IfOk result (λ verdict. IsCertified trace.items cert.items verdict.header) }
    ensures first { IfErr result (StopsAt trace.items cert.items) }
    ensures not_certified { IfErr result (IsUncertified trace.items cert.items) }
{
    let mut trace = CalmSource::new(trace);
    let mut cert = CalmSource::new(cert);
    let (verdict, _dropped) = check_all(
        alloc,
        Format::lasting(Layout::Webcache),
        &mut trace,
        &mut cert,
    )?;
    Ok(verdict)
}
