//! Whole traces.
ghost use Rattle.std.specs.Prelude.{◌≡◌, ◌≤◌, ◌<◌, ◌^◌, Some, [], None, Err, length, IfOk, IfErr, OnOk, OnErr};
ghost use Rattle.bound_io.specs.Devices.{seen};
ghost use Rattle.bound_io.specs.Reading.{ReadsSource};
ghost use Rattle.cache_rules.specs.Stored.{with_request};
ghost use Rattle.trace_any.specs.FirstLines.{HasLostThrough, StopsNoFurther};
ghost use Rattle.trace_any.specs.Readings.{is_marked};
ghost use Rattle.trace_any.specs.Readers.{HasSeenAll, KeepsFault, LeavesNone, LoadsAll, LoadsNoMore, RefusesTrace, fresh, last_mark};

use crate::fault::TraceFault;
use crate::requests::RequestReader;
use bound_base::NoMemory;
use bound_io::Source;
use cache_rules::{Builder, Object, Trace};
use std::alloc::Global;

/// A builder without requests, which keeps marks if the form of the reader has them.
pub fn builder_for(alloc: Global, reader: &RequestReader) -> Result<Builder, NoMemory>
    ensures { IfOk result (λ b. b ≡ record { requests = record { objects = []; fills = [] }; marks = is_marked reader.now.format }) }
{
    if reader.is_marked() {
        Builder::marking(alloc)
    } else {
        Builder::new(alloc)
    }
}

/// Appends the request that the reader has just given, with its mark if its form has marks.
pub fn push_given(
    requests: &mut Builder,
    reader: &RequestReader,
    object: Object,
) -> Result<(), NoMemory>
    requires marks { requests.old.marks ≡ is_marked reader.now.format }
    requires few { length requests.old.requests.objects < 2 ^ 25 }
    requires size { (1 ≤ object.size) × (object.size ≤ 2 ^ 48) }
    ensures ok { OnOk result (requests.new ≡ record requests.old { requests = with_request requests.old.requests object (last_mark reader.now) }) }
    ensures err { OnErr result (requests.new ≡ requests.old) }
{
    if reader.last_fills() {
        requests.push_filling(object)
    } else {
        requests.push(object)
    }
}

/// The trace of all that the reader has still to give, with marks if it takes them, and how many lines of it were
/// dropped in all. A reader that has answered a fault answers it again, unless there is no memory to begin with.
///
/// A line that asks for more requests than there is room for is refused before any of them is taken. It takes memory for
/// the requests, the different objects and the hosts of the volumes, and none for the text. A trace in memory has at most
/// 2^25 requests.
pub fn load<S: Source>(
    alloc: Global,
    reader: &mut RequestReader,
    source: &mut S,
) -> Result<(Trace, u64), TraceFault>
    requires few { reader.old.limits.requests ≤ 2 ^ 25 }
    ensures whole { reader.old.fault ≡ None → IfOk result (λ loaded. LoadsAll reader.old (S.left source.old) loaded.0 loaded.1) }
    ensures end { reader.old.fault ≡ None → IfOk result (λ _. LeavesNone reader.old reader.new (seen S.left S.faults source.old source.new)) }
    ensures seen_all { reader.old.fault ≡ None → IfOk result (λ _. HasSeenAll reader.old (S.left source.old) reader.new) }
    ensures refused { reader.old.fault ≡ None → IfErr result (RefusesTrace reader.old (seen S.left S.faults source.old source.new)) }
    ensures none_kept { OnOk result (reader.new.fault ≡ None) }
    ensures kept { reader.old.fault ≡ None → IfErr result (KeepsFault reader.old reader.new (seen S.left S.faults source.old source.new)) }
    ensures dropped { IfOk result (λ loaded. loaded.1 ≡ reader.new.dropped) }
    ensures format { reader.new.format ≡ reader.old.format }
    ensures limits { reader.new.limits ≡ reader.old.limits }
    ensures again { LoadsNoMore reader.old reader.new result (seen S.left S.faults source.old source.new) }
    ensures reads { ReadsSource TraceFault.ReadFault (seen S.left S.faults source.old source.new) result }
    ensures no_further { reader.old.fault ≡ None → IfErr result (StopsNoFurther reader.old reader.new (seen S.left S.faults source.old source.new)) }
    ensures lost { reader.old ≡ fresh reader.old.format reader.old.limits → IfErr result (HasLostThrough reader.old.format reader.old.limits (seen S.left S.faults source.old source.new)) }
{
    let mut requests = builder_for(alloc, reader)?;
    while let Some(object) = reader.next(alloc, source)? {
        if reader.passes_limit() {
            return Err(reader.refuse_rest(TraceFault::TooManyRequests));
        }
        if let Err(NoMemory) = push_given(&mut requests, reader, object) {
            return Err(reader.refuse_rest(TraceFault::NoMemory));
        }
    }
    Ok((requests.finish(), reader.dropped()))
}
