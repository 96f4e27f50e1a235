//! A reader of requests that keeps nothing for each of them.
ghost use Rattle.std.specs.Prelude.{◌≡◌, ◌-◌, ◌≤◌, ◌<◌, ◌^◌, ◌&&◌, None, Some, Err, IfOk, IfErr, IfSome, length, nat_lt};
ghost use Rattle.bound_io.specs.Devices.{IsUntouched, seen};
ghost use Rattle.bound_io.specs.Reading.{ReadsSource};
ghost use Rattle.freshness.specs.Stale.{can_end};
ghost use Rattle.trace_any.specs.Readings.{IsFormat, TakesMemory, is_marked};

use crate::fault::TraceFault;
use crate::format::{Format, Limits};
use crate::progress::Progress;
use bound_base::NoMemory;
use bound_io::Source;
use cache_rules::Object;
use std::alloc::Global;
use std::marker::Model;

/// Gives the requests of a source one by one, from its lines, or from its records, of which each counts as a line.
///
/// It doesn't keep the source: each reading call is given it. Over one source the requests are those of all its
/// bytes, in whatever pieces it gives them. A reader that has answered a fault answers the same from then on, and
/// reads nothing more. Of each request it says whether it is stale and only fills until it gives the next, and takes no memory
/// for it.
#[derive(Drop)]
pub struct RequestStream {
    progress: Progress,
    fault: Option<TraceFault>,
}

impl Model for RequestStream {
    ghost use Rattle.std.specs.Prelude.{◌≡◌, ◌≤◌, ◌<◌, ◌^◌, ◌&&◌, None, length};
    ghost use Rattle.trace_any.specs.Readers.{Reader, with_fault};

    ghost Value = { Reader };

    ghost view = { λ r. with_fault r.progress r.fault };

    ghost invariant = { λ r.
        (r.fault ≡ None → r.progress.lines.fault ≡ None) × (r.progress.given ≤ r.progress.limits.requests)
        × (r.progress.limits.requests < 2 ^ 32) × (length r.progress.lines.held ≤ 65536)
        × (r.progress.seen.noted.late ≤ r.progress.given) };
}

impl RequestStream {
    ghost use Rattle.trace_any.specs.FirstLines.{GoesToRequest, StopsNoFurther};
    ghost use Rattle.trace_any.specs.Readers.{AnswersAgain, GivesRequest, NotesAnswer, err_of, fresh, last_fills, with_fault};

    /// A reader of a trace of this form, within these limits. It takes its buffer here, and later memory for each volume, and
    /// if a request can be stale for each object and id.
    pub fn new(alloc: Global, format: Format, limits: Limits) -> Result<Self, NoMemory>
        requires format { IsFormat format }
        requires requests { limits.requests < 2 ^ 32 }
        requires bytes { limits.bytes ≤ 2 ^ 44 }
        ensures { IfOk result (λ reader. reader ≡ fresh format limits) }
    {
        Ok(RequestStream {
            progress: Progress::new(alloc, format, limits)?,
            fault: None,
        })
    }

    /// How many lines were dropped, since they ask for no byte.
    pub fn dropped(&self) -> u64
        ensures { result ≡ self.now.dropped }
    {
        self.progress.dropped()
    }

    /// Whether some requests may only fill the cache: the form of the trace has marks, or a request can be stale.
    pub fn is_marked(&self) -> bool
        ensures { result ≡ is_marked self.now.format }
    {
        self.progress.is_marked()
    }

    /// Whether the request that `next` has just given only fills the cache, by its own mark or since it is stale. In a form
    /// without marks whose objects stay fresh none does.
    pub fn last_fills(&self) -> bool
        ensures { result ≡ (is_marked self.now.format && last_fills self.now) }
    {
        self.progress.last_fills()
    }

    /// How many requests had a time below the clock before them, if some can be stale.
    pub fn late(&self) -> u64
        ensures { result ≡ self.now.seen.noted.late }
    {
        self.progress.late()
    }

    /// Whether the request that `next` has just given is stale.
    pub fn last_stale(&self) -> bool
        ensures { result ≡ self.now.stale }
    {
        self.progress.last_stale()
    }

    /// Whether that request only fills the cache by its own mark.
    pub fn last_own(&self) -> bool
        ensures { result ≡ self.now.ahead.stamp.fills }
    {
        self.progress.last_own()
    }

    /// The time of that request, if times are asked for, and else 0.
    pub fn last_time(&self) -> u64
        ensures { result ≡ self.now.ahead.stamp.time }
    {
        self.progress.last_time()
    }

    /// The next request, or None at the end.
    pub fn next<S: Source>(
        &mut self,
        alloc: Global,
        source: &mut S,
    ) -> Result<Option<Object>, TraceFault>
        ensures next { self.old.fault ≡ None → GivesRequest self.old self.new (seen S.left S.faults source.old source.new) result }
        ensures lines { self.old.fault ≡ None → IfOk result (λ found. IfSome found (GoesToRequest (S.left source.old) self.old self.new)) }
        ensures fault { self.old.fault ≡ None → self.new.fault ≡ err_of result }
        ensures forgets_none { self.old.dropped ≤ self.new.dropped }
        ensures again { AnswersAgain self.old self.new result (seen S.left S.faults source.old source.new) }
        ensures size { IfOk result (λ found. IfSome found (λ x. (1 ≤ x.size) × (x.size ≤ 2 ^ 48))) }
        ensures format { self.new.format ≡ self.old.format }
        ensures noted { NotesAnswer self.old self.new result }
        ensures late { self.new.seen.noted.late ≤ self.new.given }
        ensures few { (self.new.limits ≡ self.old.limits) × (self.new.given ≤ self.new.limits.requests) × (self.new.limits.requests < 2 ^ 32) }
        ensures ahead { length self.new.lines.held ≤ 65536 }
        ensures reads { ReadsSource TraceFault.ReadFault (seen S.left S.faults source.old source.new) result }
        ensures no_further { self.old.fault ≡ None → IfErr result (StopsNoFurther self.old self.new (seen S.left S.faults source.old source.new)) }
        ensures untouched { self.old.fault ≡ None → 0 < self.old.ahead.count → IsUntouched (seen S.left S.faults source.old source.new) }
        ensures memory { self.old.fault ≡ None → IfErr result (λ fault. fault ≡ TraceFault.NoMemory → TakesMemory self.old.format) }
    {
        if let Some(fault) = self.fault {
            return Err(fault);
        }
        let found = self.progress.find(alloc, source);
        if let Err(fault) = found {
            self.fault = Some(fault);
        }
        found
    }

    // The fault that was answered, if any.
    pub(crate) fn fault(&self) -> Option<TraceFault>
        ensures { result ≡ self.now.fault }
    {
        self.fault
    }

    // Whether a request can be stale.
    pub(crate) fn can_end(&self) -> bool
        ensures { result ≡ can_end self.now.format.fresh }
    {
        self.progress.can_end()
    }

    /// Whether the blocks that are left of the last line are more than there is room for.
    pub fn passes_limit(&self) -> bool
        ensures { result ≡ nat_lt (self.now.limits.requests - self.now.given) self.now.ahead.count }
    {
        self.progress.passes_limit()
    }

    // Refuses all that is left, for this reason.
    pub(crate) fn refuse_rest(&mut self, fault: TraceFault) -> TraceFault
        ensures fault { result ≡ fault }
        ensures kept { self.new ≡ with_fault self.old (Some fault) }
    {
        self.fault = Some(fault);
        fault
    }
}
