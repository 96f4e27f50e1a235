//! Whether a certificate is valid for a trace, and what is said of it.
ghost use Rattle.std.specs.Prelude.{◌≡◌, ◌<◌, IfOk, IfErr, OnOk};
ghost use Rattle.bound_io.specs.Devices.{seen};
ghost use Rattle.bound_io.specs.Reading.{LosesPrefix};
ghost use Rattle.trace_any.specs.Readings.{IsFormat};
ghost use Rattle.run_counts.specs.Countings.{counting_found};
ghost use Rattle.bound_run.specs.Readings.{IsVerdictText};
ghost use Rattle.bound_run.specs.Refusals.{RefusesCheck};
ghost use Rattle.bound_run.specs.Reports.{verdict_report};

use crate::status::refusal_of_check;
use bound_base::NoMemory;
use bound_io::Source;
use bound_report::{CheckFacts, Refusal, render};
use cert_checker::{Passed, check_counted};
use run_counts::counting_found;
use std::alloc::Global;
use trace_any::Format;

// The report of a yes.
fn verdict_report(alloc: Global, format: Format, passed: &Passed) -> Result<Vec<u8>, NoMemory>
    requires unit { 0 < passed.now.verdict.header.unit }
    requires denominator { 0 < passed.now.verdict.header.denominator }
    ensures { IfOk result (λ text. text.items ≡ verdict_report (counting_found format passed.now) passed.now.verdict passed.now.dropped) }
{
    let facts = CheckFacts {
        verdict: passed.verdict,
        dropped: passed.dropped,
    };
    render(alloc, &facts, counting_found(format, passed))
}

/// What is said of a certificate that is valid for the trace, as both are read to their ends.
pub(crate) fn verdict_of<T: Source, Q: Source>(
    alloc: Global,
    format: Format,
    trace: &mut T,
    cert: &mut Q,
) -> Result<Vec<u8>, Refusal>
    requires { IsFormat format }
    ensures yes_text { IfOk result (λ text. IsVerdictText format
        (seen T.left T.faults trace.old trace.new) (seen Q.left Q.faults cert.old cert.new) text.items) }
    ensures refused { IfErr result (RefusesCheck format
        (seen T.left T.faults trace.old trace.new) (seen Q.left Q.faults cert.old cert.new)) }
    ensures trace_source { LosesPrefix (T.left trace.old) (T.left trace.new) }
    ensures cert_source { LosesPrefix (Q.left cert.old) (Q.left cert.new) }
    ensures none_failed { OnOk result ((T.faults trace.new ≡ T.faults trace.old) × (Q.faults cert.new ≡ Q.faults cert.old)) }
{
    match check_counted(alloc, format, trace, cert) {
        Ok(passed) => Ok(verdict_report(alloc, format, &passed)?),
        Err(fault) => Err(refusal_of_check(fault)),
    }
}
