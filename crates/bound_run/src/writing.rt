//! What a run writes: its certificate and its report, or why it stopped.
ghost use Rattle.std.specs.Prelude.{◌≡◌, ◌≢◌};
ghost use Rattle.bound_io.specs.Devices.{Gets, seen};
ghost use Rattle.bound_report.specs.Refusals.{refusal_line};
ghost use Rattle.bound_run.specs.Writings.{WritesOut, WritesReport};
ghost use Rattle.bound_run.specs.Statuses.{ending_of, status_of};

use crate::status::Status;
use bound_io::{Sink, write_all};
use bound_report::{Refusal, refusal_text};

/// The certificate and the report.
#[derive(Drop)]
pub(crate) struct Texts {
    pub cert: Vec<u8>,
    pub report: Vec<u8>,
}

/// Writes the line that says why the run stopped, as far as the report takes it.
pub(crate) fn refuse<R: Sink>(report: &mut R, refusal: Refusal) -> Status
    ensures status { result ≡ status_of refusal }
    ensures never_done { result ≢ Status.Done }
    ensures reported { Gets (seen R.written R.faults report.old report.new) (refusal_line refusal) }
{
    let _ = write_all(report, refusal_text(&refusal).as_bytes());
    Status::from(refusal)
}

/// Writes the report.
pub(crate) fn write_report<R: Sink>(report: &mut R, text: &[u8]) -> Status
    ensures written { WritesReport (seen R.written R.faults report.old report.new) text.now (ending_of result) }
    ensures none_failed { result ≡ Status.Done → R.faults report.new ≡ R.faults report.old }
{
    match write_all(report, text) {
        Ok(()) => Status::Done,
        Err(_) => Status::ReportFault,
    }
}

/// Writes the certificate, and then the report.
pub(crate) fn write_out<R: Sink, K: Sink>(report: &mut R, made: &mut K, texts: &Texts) -> Status
    ensures written { WritesOut
        (seen R.written R.faults report.old report.new)
        (seen K.written K.faults made.old made.new)
        texts.now.cert.items texts.now.report.items (ending_of result) }
    ensures none_failed { result ≡ Status.Done → (R.faults report.new ≡ R.faults report.old) × (K.faults made.new ≡ K.faults made.old) }
{
    if write_all(made, &texts.cert).is_err() {
        return refuse(report, Refusal::MadeFault);
    }
    write_report(report, &texts.report)
}
