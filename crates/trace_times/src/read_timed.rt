//! Whole traces, whose requests have times.
ghost use Rattle.std.specs.Prelude.{◌≡◌, ◌++◌, ◌∷◌, [], true, length, IfOk, IfErr, OnOk};
ghost use Rattle.bound_io.specs.Devices.{seen};
ghost use Rattle.bound_io.specs.Reading.{ReadsSource};
ghost use Rattle.freshness.specs.Stale.{can_end};
ghost use Rattle.trace_any.specs.FirstLines.{HasLostThrough};
ghost use Rattle.trace_any.specs.Loads.{IsLoaded};
ghost use Rattle.trace_any.specs.Readings.{IsFormat, full_limits};
ghost use Rattle.trace_any.specs.Readers.{HasSeenAll, LeavesNone, LoadsAll, RefusesTrace, fresh};
ghost use Rattle.trace_times.specs.Times.{AreTimes};

use bound_base::NoMemory;
use bound_io::Source;
use cache_rules::Trace;
use std::alloc::Global;
use trace_any::{Format, Limits, RequestReader, TraceFault, TraceNotes, builder_for, push_given};

/// The requests of a trace with the time of each, in the unit of the trace, and what is told beside them.
#[derive(Drop)]
pub struct TimedRequests {
    pub requests: Trace,
    pub times: Vec<u64>,
    pub notes: TraceNotes,
}

// Appends a time.
fn push_time(times: &mut Vec<u64>, time: u64) -> Result<(), NoMemory>
    ensures { OnOk result (times.new.items ≡ times.old.items ++ time ∷ []) }
{
    times.push(time)?;
    Ok(())
}

// The requests and their times that a reader of which nothing was asked has to give.
fn read_on<S: Source>(
    alloc: Global,
    reader: &mut RequestReader,
    source: &mut S,
) -> Result<(Trace, Vec<u64>), TraceFault>
    requires new { reader.old ≡ fresh reader.old.format full_limits }
    requires timed { can_end reader.old.format.fresh ≡ true }
    ensures whole { IfOk result (λ read. LoadsAll reader.old (S.left source.old) read.0 reader.new.dropped) }
    ensures end { IfOk result (λ _. LeavesNone reader.old reader.new (seen S.left S.faults source.old source.new)) }
    ensures seen_all { IfOk result (λ _. HasSeenAll reader.old (S.left source.old) reader.new) }
    ensures times { IfOk result (λ read. read.1.items ≡ reader.new.seen.times) }
    ensures each { IfOk result (λ read. length read.1.items ≡ length read.0.objects) }
    ensures refused { IfErr result (RefusesTrace reader.old (seen S.left S.faults source.old source.new)) }
    ensures lost { IfErr result (HasLostThrough reader.old.format full_limits (seen S.left S.faults source.old source.new)) }
    ensures reads { ReadsSource TraceFault.ReadFault (seen S.left S.faults source.old source.new) result }
{
    let mut requests = builder_for(alloc, reader)?;
    let mut times = Vec::new(alloc);
    while let Some(object) = reader.next(alloc, source)? {
        if reader.passes_limit() {
            return Err(TraceFault::TooManyRequests);
        }
        push_given(&mut requests, reader, object)?;
        push_time(&mut times, reader.last_time())?;
    }
    Ok((requests.finish(), times))
}

/// The trace of all that the source has left, with the times of its requests, which it has if some can be stale.
///
/// A line that asks for more requests than there is room for is refused before any of them is taken. Beside the memory of a
/// trace it takes 8 bytes for each request.
pub fn load_timed<S: Source>(
    alloc: Global,
    format: Format,
    source: &mut S,
) -> Result<TimedRequests, TraceFault>
    requires format { IsFormat format }
    requires timed { can_end format.fresh ≡ true }
    ensures loaded { IfOk result (λ read. IsLoaded format (seen S.left S.faults source.old source.new) read.requests read.notes) }
    ensures times { IfOk result (λ read. AreTimes format (S.left source.old) read.times.items) }
    ensures each { IfOk result (λ read. length read.times.items ≡ length read.requests.objects) }
    ensures refused { IfErr result (RefusesTrace (fresh format full_limits) (seen S.left S.faults source.old source.new)) }
    ensures lost { IfErr result (HasLostThrough format full_limits (seen S.left S.faults source.old source.new)) }
    ensures reads { ReadsSource TraceFault.ReadFault (seen S.left S.faults source.old source.new) result }
{
    let mut reader = RequestReader::new(alloc, format, Limits::full())?;
    let (requests, times) = read_on(alloc, &mut reader, source)?;
    Ok(TimedRequests {
        requests,
        times,
        notes: reader.into_notes(),
    })
}
