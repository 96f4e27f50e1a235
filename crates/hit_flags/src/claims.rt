//! The claims of a simulator, read whole.
ghost use Rattle.std.specs.Prelude.{◌≡◌, IfOk, IfErr, OnOk};
ghost use Rattle.bound_io.specs.Devices.{seen};
ghost use Rattle.bound_io.specs.Reading.{LosesPrefix};
ghost use Rattle.trace_any.specs.Readers.{fresh};
ghost use Rattle.trace_any.specs.Readings.{IsFormat, full_limits};
ghost use Rattle.hit_flags.specs.Claims.{AreCalmBut, AreUnread, ReadsClaims};
ghost use Rattle.hit_flags.specs.Lines.{nothing_read};
ghost use Rattle.hit_flags.specs.Nearness.{AreNear};

use crate::fault::FlagFault;
use crate::line::{flag_for, no_more};
use bit_list::BitList;
use bound_io::{LineReader, Source};
use cache_rules::Trace;
use std::alloc::Global;
use trace_any::{Format, Limits, RequestReader, TraceNotes, builder_for, push_given};

// The most bytes of flags that a reader of lines takes. The lines of all flags have less.
const MOST_BYTES: u64 = 1 << 36;

/// A trace, what is told beside it, and a flag for each request: whether a simulator counted a hit.
#[derive(Debug, Drop)]
pub struct Claims {
    pub trace: Trace,
    pub notes: TraceNotes,
    pub flags: BitList,
}

// The claims of two readers that have read nothing, by turns: a request, and then its flag.
fn read_turns<T: Source, H: Source>(
    alloc: Global,
    mut reader: RequestReader,
    trace: &mut T,
    lines: &mut LineReader,
    hits: &mut H,
) -> Result<Claims, FlagFault>
    requires reader { reader ≡ fresh reader.format full_limits }
    requires lines { lines.old ≡ nothing_read }
    ensures read { IfOk result (ReadsClaims reader.format (seen T.left T.faults trace.old trace.new) (seen H.left H.faults hits.old hits.new)) }
    ensures unread { IfErr result (AreUnread reader.format (seen T.left T.faults trace.old trace.new) (seen H.left H.faults hits.old hits.new)) }
    ensures trace_source { LosesPrefix (T.left trace.old) (T.left trace.new) }
    ensures hits_source { LosesPrefix (H.left hits.old) (H.left hits.new) }
    ensures none_failed { OnOk result ((T.faults trace.new ≡ T.faults trace.old) × (H.faults hits.new ≡ H.faults hits.old)) }
    ensures else_none_failed { IfErr result (AreCalmBut (seen T.left T.faults trace.old trace.new) (seen H.left H.faults hits.old hits.new)) }
    ensures near { IfErr result (AreNear reader.format (seen T.left T.faults trace.old trace.new) (seen H.left H.faults hits.old hits.new)) }
{
    let mut requests = builder_for(alloc, &reader)?;
    let mut flags = BitList::new(alloc);
    while let Some(object) = reader.next(alloc, trace)? {
        let flag = flag_for(lines, hits)?;
        flags.make_room()?;
        push_given(&mut requests, &reader, object)?;
        flags.push_reserved(flag);
    }
    no_more(lines, hits)?;
    Ok(Claims {
        trace: requests.finish(),
        notes: reader.into_notes(),
        flags,
    })
}

/// The claims of all that two sources have left: a trace of this form, and the flags of its requests, `1` or `0` on a line
/// of its own for each. The two are read by turns, a request first, and what comes first stops the reading.
///
/// It takes the memory of `load`, two buffers, and a bit for each request.
pub fn read_claims<T: Source, H: Source>(
    alloc: Global,
    format: Format,
    trace: &mut T,
    hits: &mut H,
) -> Result<Claims, FlagFault>
    requires { IsFormat format }
    ensures read { IfOk result (ReadsClaims format (seen T.left T.faults trace.old trace.new) (seen H.left H.faults hits.old hits.new)) }
    ensures unread { IfErr result (AreUnread format (seen T.left T.faults trace.old trace.new) (seen H.left H.faults hits.old hits.new)) }
    ensures trace_source { LosesPrefix (T.left trace.old) (T.left trace.new) }
    ensures hits_source { LosesPrefix (H.left hits.old) (H.left hits.new) }
    ensures none_failed { OnOk result ((T.faults trace.new ≡ T.faults trace.old) × (H.faults hits.new ≡ H.faults hits.old)) }
    ensures else_none_failed { IfErr result (AreCalmBut (seen T.left T.faults trace.old trace.new) (seen H.left H.faults hits.old hits.new)) }
    ensures near { IfErr result (AreNear format (seen T.left T.faults trace.old trace.new) (seen H.left H.faults hits.old hits.new)) }
{
    let mut lines = LineReader::new(alloc, MOST_BYTES)?;
    let reader = RequestReader::new(alloc, format, Limits::full())?;
    read_turns(alloc, reader, trace, &mut lines, hits)
}
