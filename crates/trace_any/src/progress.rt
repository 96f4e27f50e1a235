//! How far the reading of a trace has come.
ghost use Rattle.std.specs.Prelude.{◌≡◌, ◌+◌, ◌-◌, ◌≤◌, ◌<◌, ◌^◌, ◌&&◌, None, Some, Err, true, false, length, nat_lt, IfOk, IfErr, IfSome, OnOk, OnErr};
ghost use Rattle.bound_io.specs.Devices.{IsUntouched, seen};
ghost use Rattle.bound_io.specs.Reading.{ReadsSource};
ghost use Rattle.std.specs.Option.{option_map};
ghost use Rattle.freshness.specs.Stale.{can_end};
ghost use Rattle.trace_lines.specs.Lines.{IsSpan};
ghost use Rattle.trace_any.specs.Readings.{IsFormat, NamesVolumes, TakesMemory, is_marked};
ghost use Rattle.trace_any.specs.Readers.{ahead_by, ahead_of};

use crate::content::{content_of, number_of};
use crate::fault::TraceFault;
use crate::format::{Format, Limits};
use crate::pieces::next_piece;
use crate::volumes::Volumes;
use bound_base::NoMemory;
use bound_io::{LineReader, Source};
use cache_rules::Object;
use freshness::SeenObjects;
use std::alloc::Global;
use std::marker::Model;
use trace_lines::Span;

// The blocks of the last line whose requests are still to be given.
#[derive(Clone, Copy)]
struct Range {
    volume: u64,
    time: u64,
    fills: bool,
    first: u64,
    count: u64,
    size: u64,
}

/// The lines and the requests of a trace so far.
#[derive(Drop)]
pub(crate) struct Progress {
    format: Format,
    limits: Limits,
    lines: LineReader,
    given: u32,
    dropped: u64,
    volumes: Volumes,
    seen: SeenObjects,
    ahead: Range,
    // Whether the last request was stale.
    stale: bool,
}

impl Model for Progress {
    ghost use Rattle.std.specs.Prelude.{◌≡◌, ◌≤◌, ◌<◌, ◌^◌, ◌+◌, None, length};
    ghost use Rattle.trace_any.specs.Readers.{Reader, ahead_of};
    ghost use Rattle.trace_any.specs.Readings.{IsFormat};

    ghost Value = { Reader };

    ghost view = { λ r. record {
      format = r.format;
      limits = r.limits;
      lines = r.lines;
      given = r.given;
      dropped = r.dropped;
      volumes = r.volumes;
      seen = r.seen;
      ahead = ahead_of r.ahead;
      stale = r.stale;
      fault = None;
    } };

    ghost invariant = { λ r.
        IsFormat r.format × (r.limits.requests < 2 ^ 32) × (r.limits.bytes ≤ 2 ^ 44) × (r.lines.limit ≡ r.limits.bytes)
        × (r.lines.consumed ≤ r.limits.bytes) × (r.lines.line ≤ r.lines.consumed) × (length r.lines.held ≤ 65536)
        × (r.given ≤ r.limits.requests) × (r.dropped ≤ r.lines.line) × (length r.volumes ≤ r.given + 1)
        × (r.ahead.count ≡ 0 → length r.volumes ≤ r.given) × (r.seen.noted.late ≤ r.given)
        × (1 ≤ r.ahead.count → (1 ≤ r.ahead.size) × (r.ahead.size ≤ 2 ^ 48) × (r.ahead.first + r.ahead.count ≤ 2 ^ 64))
        × (r.ahead.volume ≤ length r.volumes) };
}

// The blocks that a line asks for, if any.
fn range_of(volume: u64, time: u64, fills: bool, span: Span) -> Option<Range>
    requires { IsSpan span }
    ensures ahead { option_map ahead_of result ≡ ahead_by volume (record { time = time; fills = fills }) span }
    ensures range { IfSome result (λ r. (1 ≤ r.count) × (1 ≤ r.size) × (r.size ≤ 2 ^ 48) × (r.first + r.count ≤ 2 ^ 64)) }
    ensures volume { IfSome result (λ r. r.volume ≡ volume) }
{
    let (first, count, size) = match span {
        Span::Nothing => return None,
        Span::One { id, size } => (id, 1, size),
        Span::Blocks { first, count, size } => (first, count, size),
    };
    Some(Range {
        volume,
        time,
        fills,
        first,
        count,
        size,
    })
}

impl Progress {
    ghost use Rattle.trace_any.specs.FirstLines.{GivesFirstIn, GoesNoFurtherFrom, GoesToRequest, StopsNoFurther};
    ghost use Rattle.trace_any.specs.Readers.{GivesFirst, GivesRequest, IsUngiven, NotesAnswer, NotesNone, NotesRequest, ReadsNothing, TakesLine, fresh, last_fills};

    /// Nothing is read yet. The buffer is taken here.
    pub fn new(alloc: Global, format: Format, limits: Limits) -> Result<Self, NoMemory>
        requires format { IsFormat format }
        requires requests { limits.requests < 2 ^ 32 }
        requires bytes { limits.bytes ≤ 2 ^ 44 }
        ensures { IfOk result (λ progress. progress ≡ fresh format limits) }
    {
        Ok(Progress {
            format,
            limits,
            lines: LineReader::new(alloc, limits.bytes)?,
            given: 0,
            dropped: 0,
            volumes: Volumes::new(alloc),
            seen: SeenObjects::new(alloc),
            ahead: Range {
                volume: 0,
                time: 0,
                fills: false,
                first: 0,
                count: 0,
                size: 0,
            },
            stale: false,
        })
    }

    /// How many lines were dropped.
    pub fn dropped(&self) -> u64
        ensures { result ≡ self.now.dropped }
    {
        self.dropped
    }

    /// How many requests had a time below the clock before them, if some can be stale.
    pub fn late(&self) -> u64
        ensures { result ≡ self.now.seen.noted.late }
    {
        self.seen.late()
    }

    /// Whether the last request was stale.
    pub fn last_stale(&self) -> bool
        ensures { result ≡ self.now.stale }
    {
        self.stale
    }

    /// Whether the last request only fills the cache by its own mark.
    pub fn last_own(&self) -> bool
        ensures { result ≡ self.now.ahead.stamp.fills }
    {
        self.ahead.fills
    }

    /// The time of the last request, if times are asked for, and else 0.
    pub fn last_time(&self) -> u64
        ensures { result ≡ self.now.ahead.stamp.time }
    {
        self.ahead.time
    }

    /// Whether a request can be stale.
    pub fn can_end(&self) -> bool
        ensures { result ≡ can_end self.now.format.fresh }
    {
        self.format.fresh.can_end()
    }

    /// Whether the form of the trace has marks.
    pub fn is_marked(&self) -> bool
        ensures { result ≡ is_marked self.now.format }
    {
        self.format.is_marked()
    }

    /// Whether the last request only fills the cache, by its own mark or since it is stale, if the form has marks.
    pub fn last_fills(&self) -> bool
        ensures { result ≡ (is_marked self.now.format && last_fills self.now) }
    {
        self.format.is_marked() && (self.ahead.fills || self.stale)
    }

    /// Whether the blocks that are left of the last line are more than there is room for.
    pub fn passes_limit(&self) -> bool
        ensures { result ≡ nat_lt (self.now.limits.requests - self.now.given) self.now.ahead.count }
    {
        self.ahead.count > (self.limits.requests - self.given) as u64
    }

    // Takes up the next line, and says whether there was one.
    fn take_line<S: Source>(&mut self, alloc: Global, source: &mut S) -> Result<bool, TraceFault>
        requires no_fault { self.old.lines.fault ≡ None }
        requires nothing_ahead { self.old.ahead.count ≡ 0 }
        ensures still { (self.new.format ≡ self.old.format) × (self.new.limits ≡ self.old.limits) × (self.new.given ≡ self.old.given) }
        ensures seen { self.new.seen ≡ self.old.seen }
        ensures no_fault { OnOk result (self.new.lines.fault ≡ None) }
        ensures within { (self.new.lines.consumed ≤ self.new.limits.bytes) × (length self.new.lines.held ≤ 65536) }
        ensures few { (self.new.given ≤ self.new.limits.requests) × (self.new.limits.requests < 2 ^ 32) }
        ensures forgets_none { self.old.dropped ≤ self.new.dropped }
        ensures taken { TakesLine self.old self.new (seen S.left S.faults source.old source.new) result }
        ensures lines { IfOk result (λ more. more ≡ true → GoesNoFurtherFrom (S.left source.old) (λ s. s) self.old self.new) }
        ensures reads { ReadsSource TraceFault.ReadFault (seen S.left S.faults source.old source.new) result }
        ensures no_further { IfErr result (StopsNoFurther self.old self.new (seen S.left S.faults source.old source.new)) }
        ensures memory { IfErr result (λ fault. fault ≡ TraceFault.NoMemory → NamesVolumes self.old.format) }
    {
        let records = self.format.has_records();
        let Some(text) = next_piece(&mut self.lines, records, source)? else {
            return Ok(false);
        };
        let content = match content_of(self.format, text) {
            Ok(content) => content,
            Err(kind) => {
                return Err(TraceFault::BadLine {
                    line: self.lines.line(),
                    kind,
                });
            }
        };
        if let Some(content) = content {
            let span = content.span;
            let volume = number_of(&mut self.volumes, alloc, &content)?;
            match range_of(volume, content.time, content.fills, span) {
                Some(range) => self.ahead = range,
                None => self.dropped += 1,
            }
        }
        Ok(true)
    }

    // Gives the first of the blocks that are left, once it is noted what is known of it.
    fn give(&mut self) -> Result<Object, TraceFault>
        requires some { 0 < self.old.ahead.count }
        ensures still { ReadsNothing self.old self.new }
        ensures few { (self.new.given ≤ self.new.limits.requests) × (self.new.limits.requests < 2 ^ 32) }
        ensures size { IfOk result (λ x. (1 ≤ x.size) × (x.size ≤ 2 ^ 48)) }
        ensures given { IfOk result (GivesFirst self.old self.new) }
        ensures given_in { IfOk result (GivesFirstIn self.old self.new) }
        ensures ungiven { IfErr result (IsUngiven self.old self.new) }
        ensures noted { IfOk result (NotesRequest self.old self.new) }
        ensures none_noted { OnErr result (NotesNone self.old self.new) }
        ensures late { self.new.seen.noted.late ≤ self.new.given }
    {
        if self.given == self.limits.requests {
            return Err(TraceFault::TooManyRequests);
        }
        let object = Object {
            volume: self.ahead.volume as u32,
            id: self.ahead.first,
            size: self.ahead.size,
        };
        self.stale = self.seen.note(self.format.fresh, object, self.ahead.time, self.ahead.fills)?;
        self.given += 1;
        self.ahead.first = self.ahead.first.saturating_add(1);
        self.ahead.count -= 1;
        Ok(object)
    }

    /// Gives the next request, or None at the end.
    pub fn find<S: Source>(
        &mut self,
        alloc: Global,
        source: &mut S,
    ) -> Result<Option<Object>, TraceFault>
        requires no_fault { self.old.lines.fault ≡ None }
        ensures still { (self.new.format ≡ self.old.format) × (self.new.limits ≡ self.old.limits) }
        ensures no_fault { OnOk result (self.new.lines.fault ≡ None) }
        ensures size { IfOk result (λ found. IfSome found (λ x. (1 ≤ x.size) × (x.size ≤ 2 ^ 48))) }
        ensures few { (self.new.given ≤ self.new.limits.requests) × (self.new.limits.requests < 2 ^ 32) }
        ensures noted { NotesAnswer self.old self.new result }
        ensures late { self.new.seen.noted.late ≤ self.new.given }
        ensures ahead { length self.new.lines.held ≤ 65536 }
        ensures forgets_none { self.old.dropped ≤ self.new.dropped }
        ensures next { GivesRequest self.old self.new (seen S.left S.faults source.old source.new) result }
        ensures lines { IfOk result (λ found. IfSome found (GoesToRequest (S.left source.old) self.old self.new)) }
        ensures reads { ReadsSource TraceFault.ReadFault (seen S.left S.faults source.old source.new) result }
        ensures no_further { IfErr result (StopsNoFurther self.old self.new (seen S.left S.faults source.old source.new)) }
        ensures untouched { 0 < self.old.ahead.count → IsUntouched (seen S.left S.faults source.old source.new) }
        ensures memory { IfErr result (λ fault. fault ≡ TraceFault.NoMemory → TakesMemory self.old.format) }
    {
        while self.ahead.count == 0 {
            if !self.take_line(alloc, source)? {
                return Ok(None);
            }
        }
        Ok(Some(self.give()?))
    }
}
