//! What comes of reading a whole trace whose objects expire a time after they were written.
ghost use Rattle.std.specs.Prelude.{◌≡◌, length, true, Some, IfOk, IfErr, OnOk};
ghost use Rattle.bound_io.specs.Devices.{seen};
ghost use Rattle.bound_io.specs.Reading.{LosesPrefix};
ghost use Rattle.freshness.specs.Stale.{can_end};
ghost use Rattle.trace_any.specs.Readings.{IsFormat};
ghost use Rattle.trace_any.specs.Loads.{IsLoaded};
ghost use Rattle.trace_times.specs.Times.{AreTimes};
ghost use Rattle.ttl_runs.specs.Bounds.{IsReadyWithTtl};
ghost use Rattle.bound_run.specs.Refusals.{RefusesBounds, RefusesLoading};

use crate::status::{refusal_of, refusal_of_ttl_bounds};
use crate::writing::Texts;
use bound_io::Source;
use bound_report::Refusal;
use bound_words::BoundSettings;
use std::alloc::Global;
use trace_any::Format;
use trace_times::{TimedRequests, load_timed};
use ttl_prices::TimedTrace;
use ttl_runs::{TtlTexts, texts_with_ttl};

// The requests of all that the source has left with their times, and what is told beside them.
fn load_all_timed<T: Source>(
    alloc: Global,
    format: Format,
    trace: &mut T,
) -> Result<TimedRequests, Refusal>
    requires format { IsFormat format }
    requires timed { can_end format.fresh ≡ true }
    ensures loaded { IfOk result (λ read. IsLoaded format (seen T.left T.faults trace.old trace.new) read.requests read.notes) }
    ensures times { IfOk result (λ read. AreTimes format (T.left trace.old) read.times.items) }
    ensures each { IfOk result (λ read. length read.times.items ≡ length read.requests.objects) }
    ensures refused { IfErr result (RefusesLoading format (seen T.left T.faults trace.old trace.new)) }
    ensures source { LosesPrefix (T.left trace.old) (T.left trace.new) }
    ensures none_failed { OnOk result (T.faults trace.new ≡ T.faults trace.old) }
{
    match load_timed(alloc, format, trace) {
        Ok(read) => Ok(read),
        Err(fault) => Err(refusal_of(fault)),
    }
}

/// The certificate and the report of all that the source has left, with the time to live of the form.
pub(crate) fn prepare_with_ttl<T: Source>(
    alloc: Global,
    format: Format,
    ttl: u64,
    asked: &BoundSettings,
    trace: &mut T,
) -> Result<Texts, Refusal>
    requires format { IsFormat format }
    requires ttl { format.fresh.ttl ≡ Some ttl }
    ensures ready { IfOk result (λ texts. IsReadyWithTtl format ttl asked.now (seen T.left T.faults trace.old trace.new) texts.cert.items texts.report.items) }
    ensures refused { IfErr result (RefusesBounds format asked.now (seen T.left T.faults trace.old trace.new)) }
    ensures source { LosesPrefix (T.left trace.old) (T.left trace.new) }
    ensures none_failed { OnOk result (T.faults trace.new ≡ T.faults trace.old) }
{
    // Dropped here, for the proof.
    let texts = {
        let read = load_all_timed(alloc, format, trace)?;
        let timed = TimedTrace {
            trace: &read.requests,
            times: &read.times,
            ttl,
        };
        texts_with_ttl(alloc, format, asked, &timed, &read.notes)
    };
    match texts {
        Ok(TtlTexts { cert, report }) => Ok(Texts { cert, report }),
        Err(fault) => Err(refusal_of_ttl_bounds(fault)),
    }
}
