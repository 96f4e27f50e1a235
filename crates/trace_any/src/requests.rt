//! A reader of requests that keeps what is noted of them.
ghost use Rattle.std.specs.Prelude.{◌≡◌, ◌+◌, ◌-◌, ◌≤◌, ◌<◌, ◌^◌, ◌&&◌, true, None, Some, Err, IfOk, IfErr, IfSome, OnOk, OnErr, length, nat_lt};
ghost use Rattle.bound_io.specs.Devices.{IsUntouched, seen};
ghost use Rattle.bound_io.specs.Reading.{ReadsSource};
ghost use Rattle.freshness.specs.Seen.{HasRoomForOne, noted_of, with_noted};
ghost use Rattle.trace_any.specs.Readings.{IsFormat, TakesMemory, is_marked};

use crate::fault::TraceFault;
use crate::format::{Format, Limits};
use crate::notes::TraceNotes;
use crate::stream::RequestStream;
use bound_base::NoMemory;
use bound_io::Source;
use cache_rules::Object;
use freshness::StaleRequests;
use std::alloc::Global;
use std::marker::Model;

/// Gives the requests of a source one by one, from its lines, or from its records, of which each counts as a line.
///
/// It doesn't keep the source: each reading call is given it. Over one source the requests are those of all its
/// bytes, in whatever pieces it gives them. A reader that has answered a fault answers the same from then on, and
/// reads nothing more. If a request can be stale, it keeps what is noted of each.
#[derive(Drop)]
pub struct RequestReader {
    stream: RequestStream,
    noted: StaleRequests,
}

impl Model for RequestReader {
    ghost use Rattle.std.specs.Prelude.{◌≡◌, ◌≤◌, ◌<◌, ◌^◌, length};
    ghost use Rattle.freshness.specs.Seen.{noted_of};
    ghost use Rattle.trace_any.specs.Readers.{Reader};

    ghost Value = { Reader };

    ghost view = { λ r. r.stream };

    ghost invariant = { λ r.
        (noted_of r.noted ≡ r.stream.seen.noted) × (r.stream.seen.noted.late ≤ r.stream.given)
        × (r.stream.given ≤ r.stream.limits.requests) × (r.stream.limits.requests < 2 ^ 32) × (length r.stream.lines.held ≤ 65536) };
}

// Makes room for what is noted of one request more, if it can be stale.
fn make_room(noted: &mut StaleRequests, can_end: bool) -> Result<(), NoMemory>
    ensures noted { noted_of noted.new ≡ noted_of noted.old }
    ensures room { OnOk result (can_end ≡ true → HasRoomForOne noted.new) }
    ensures memory { OnErr result (can_end ≡ true) }
{
    if can_end {
        noted.make_room()?;
    }
    Ok(())
}

// Notes what a stream says of the request that it has just given, for which there is room.
fn note_last(noted: &mut StaleRequests, stream: &RequestStream)
    requires room { HasRoomForOne noted.old }
    requires few { noted.old.late + 1 < 2 ^ 64 }
    ensures { noted_of noted.new ≡ with_noted (noted_of noted.old) (nat_lt noted.old.late stream.now.seen.noted.late) stream.now.stale stream.now.ahead.stamp.fills }
{
    let late = noted.late < stream.late();
    noted.push_reserved(late, stream.last_stale(), stream.last_own());
}

impl RequestReader {
    ghost use Rattle.trace_any.specs.FirstLines.{GoesToRequest, StopsNoFurther};
    ghost use Rattle.trace_any.specs.Readers.{AnswersAgain, GivesRequest, NotesAnswer, err_of, fresh, last_fills, notes_of, with_fault};

    /// A reader of a trace of this form, within these limits. It takes its buffer here, and later memory for each volume, and
    /// if a request can be stale for each object and id, and two bits for each request.
    pub fn new(alloc: Global, format: Format, limits: Limits) -> Result<Self, NoMemory>
        requires format { IsFormat format }
        requires requests { limits.requests < 2 ^ 32 }
        requires bytes { limits.bytes ≤ 2 ^ 44 }
        ensures { IfOk result (λ reader. reader ≡ fresh format limits) }
    {
        Ok(RequestReader {
            stream: RequestStream::new(alloc, format, limits)?,
            noted: StaleRequests::new(alloc),
        })
    }

    /// How many lines were dropped, since they ask for no byte.
    pub fn dropped(&self) -> u64
        ensures { result ≡ self.now.dropped }
    {
        self.stream.dropped()
    }

    /// What is noted of the requests, if some can be stale, once no more requests are asked for.
    pub fn into_noted(self) -> StaleRequests
        ensures { noted_of result ≡ self.seen.noted }
    {
        self.noted
    }

    /// What it tells beside the requests, once no more are asked for.
    pub fn into_notes(self) -> TraceNotes
        ensures { result ≡ notes_of self }
    {
        TraceNotes {
            dropped: self.stream.dropped(),
            noted: self.noted,
        }
    }

    /// Whether some requests may only fill the cache: the form of the trace has marks, or a request can be stale.
    pub fn is_marked(&self) -> bool
        ensures { result ≡ is_marked self.now.format }
    {
        self.stream.is_marked()
    }

    /// Whether the request that `next` has just given only fills the cache, by its own mark or since it is stale. In a form
    /// without marks whose objects stay fresh none does.
    pub fn last_fills(&self) -> bool
        ensures { result ≡ (is_marked self.now.format && last_fills self.now) }
    {
        self.stream.last_fills()
    }

    /// The time of that request, if times are asked for, and else 0.
    pub fn last_time(&self) -> u64
        ensures { result ≡ self.now.ahead.stamp.time }
    {
        self.stream.last_time()
    }

    /// The next request, or None at the end.
    pub fn next<S: Source>(
        &mut self,
        alloc: Global,
        source: &mut S,
    ) -> Result<Option<Object>, TraceFault>
        ensures next { self.old.fault ≡ None → GivesRequest self.old self.new (seen S.left S.faults source.old source.new) result }
        ensures lines { self.old.fault ≡ None → IfOk result (λ found. IfSome found (GoesToRequest (S.left source.old) self.old self.new)) }
        ensures fault { self.old.fault ≡ None → self.new.fault ≡ err_of result }
        ensures forgets_none { self.old.dropped ≤ self.new.dropped }
        ensures again { AnswersAgain self.old self.new result (seen S.left S.faults source.old source.new) }
        ensures size { IfOk result (λ found. IfSome found (λ x. (1 ≤ x.size) × (x.size ≤ 2 ^ 48))) }
        ensures format { self.new.format ≡ self.old.format }
        ensures noted { NotesAnswer self.old self.new result }
        ensures few { (self.new.limits ≡ self.old.limits) × (self.new.given ≤ self.new.limits.requests) × (self.new.limits.requests < 2 ^ 32) }
        ensures ahead { length self.new.lines.held ≤ 65536 }
        ensures reads { ReadsSource TraceFault.ReadFault (seen S.left S.faults source.old source.new) result }
        ensures no_further { self.old.fault ≡ None → IfErr result (StopsNoFurther self.old self.new (seen S.left S.faults source.old source.new)) }
        ensures untouched { self.old.fault ≡ None → 0 < self.old.ahead.count → IsUntouched (seen S.left S.faults source.old source.new) }
        ensures memory { self.old.fault ≡ None → IfErr result (λ fault. fault ≡ TraceFault.NoMemory → TakesMemory self.old.format) }
    {
        if let Some(fault) = self.stream.fault() {
            return Err(fault);
        }
        let can_end = self.stream.can_end();
        if let Err(NoMemory) = make_room(&mut self.noted, can_end) {
            return Err(self.stream.refuse_rest(TraceFault::NoMemory));
        }
        let found = self.stream.next(alloc, source)?;
        if can_end && found.is_some() {
            note_last(&mut self.noted, &self.stream);
        }
        Ok(found)
    }

    /// Whether the blocks that are left of the last line are more than there is room for.
    pub fn passes_limit(&self) -> bool
        ensures { result ≡ nat_lt (self.now.limits.requests - self.now.given) self.now.ahead.count }
    {
        self.stream.passes_limit()
    }

    /// Refuses all that is left, for this reason, which it answers from now on.
    pub fn refuse_rest(&mut self, fault: TraceFault) -> TraceFault
        ensures fault { result ≡ fault }
        ensures kept { self.new ≡ with_fault self.old (Some fault) }
    {
        self.stream.refuse_rest(fault)
    }
}
