//! What a line or a record asks for, by the form of the trace.
ghost use Rattle.std.specs.Prelude.{◌≡◌, ◌≢◌, ◌+◌, ◌≤◌, ◌<◌, ◌^◌, true, false, None, Some, length, IfOk, IfSome, IsSome, OnOk, OnErr, ◌&&◌};
ghost use Rattle.trace_any.specs.Readers.{with_named_by, number_by};
ghost use Rattle.trace_any.specs.Readings.{HasVolumes, IsFormat, IsLayout, NamesVolumes, at_time, content_named, has_records, is_of_records, text_content, time_of, untimed, untimed_content, whole_record};
ghost use Rattle.trace_lines.specs.Lines.{IsSpan};
ghost use Rattle.trace_any.specs.LineContent.{answer_of, named_of, volume_of};

use crate::format::{Format, Layout};
use crate::volumes::Volumes;
use bound_base::{NoMemory, NumFault};
use std::alloc::Global;
use trace_lines::{LineKind, Span, is_blank, trim_cr};
use trace_msr::MsrLine;
use trace_webcache::MarkedSpan;

/// What a line asks for, the host and the disk of its volume, if its form names volumes, its time, if times are asked for,
/// and whether its own mark says that its requests only fill the cache.
#[derive(Clone, Copy)]
pub(crate) struct LineContent<'a> {
    pub span: Span,
    pub volume: Option<(&'a [u8], u64)>,
    pub time: u64,
    pub fills: bool,
}

// What a line without a volume and a mark asks for.
fn of_no_volume(span: Span) -> LineContent<'static>
    ensures { result ≡ record { span = span; volume = None; time = 0; fills = false } }
{
    LineContent {
        span,
        volume: None,
        time: 0,
        fills: false,
    }
}

// What a line with a mark and without a volume asks for.
fn of_marked(line: MarkedSpan) -> LineContent<'static>
    ensures { result ≡ record { span = line.span; volume = None; time = 0; fills = line.fills } }
{
    LineContent {
        span: line.span,
        volume: None,
        time: 0,
        fills: line.fills,
    }
}

// What a line of a form with volumes asks for, with its mark, if marks are looked at.
fn of_volume(line: MsrLine<'_>, marks: bool) -> LineContent<'_>
    ensures span { result.span ≡ line.entry.span }
    ensures volume { volume_of result.volume ≡ Some (record { host = line.entry.host.now; disk = line.entry.disk }) }
    ensures stamp { (result.time ≡ 0) × (result.fills ≡ (marks && line.entry.fills)) }
{
    LineContent {
        span: line.span,
        volume: Some((line.host, line.disk)),
        time: 0,
        fills: marks && line.fills,
    }
}

// What a record asks for; a last one of fewer bytes is refused.
fn whole_record(bytes: &[u8]) -> Result<Span, LineKind>
    requires { length bytes.now ≤ 24 }
    ensures span { result ≡ whole_record bytes.now }
    ensures range { IfOk result (λ s. IsSpan s) }
{
    match <&[u8; 24]>::try_from(bytes) {
        Ok(record) => Ok(trace_oracle::parse(record)),
        Err(_) => Err(LineKind::PartRecord {
            bytes: bytes.len() as u8,
        }),
    }
}

// The time of a record; a part of one has none.
fn record_time(bytes: &[u8]) -> u64
    ensures { time_of Layout.Oracle bytes.now ≡ Ok result }
{
    match <&[u8; 24]>::try_from(bytes) {
        Ok(record) => trace_oracle::time(record),
        Err(_) => 0,
    }
}

// The time of a line with a word or of a record.
fn time_of(layout: Layout, text: &[u8]) -> Result<u64, NumFault>
    ensures { result ≡ time_of layout text.now }
{
    match layout {
        Layout::Webcache | Layout::MarkedWebcache => trace_webcache::time(text),
        Layout::Arc => Ok(0),
        Layout::Msr { .. } | Layout::MsrReads { .. } => trace_msr::time(text),
        Layout::Oracle => Ok(record_time(text)),
    }
}

// What a line with a word of a form with marks or volumes asks for, or one of blocks. It stands apart, so that the other forms
// stay in registers.
#[inline(never)]
fn other_content(layout: Layout, text: &[u8]) -> Result<LineContent<'_>, LineKind>
    requires layout { IsLayout layout }
    requires records { is_of_records layout ≡ true → length text.now ≤ 24 }
    ensures content { named_of result ≡ untimed_content layout text.now }
    ensures range { IfOk result (λ content. IsSpan content.span) }
    ensures volume { IfOk result (λ content. IfSome content.volume (λ _. HasVolumes layout)) }
{
    match layout {
        Layout::Webcache => Ok(of_no_volume(trace_webcache::parse(text)?)),
        Layout::MarkedWebcache => Ok(of_marked(trace_webcache::parse_marked(text)?)),
        Layout::Arc => Ok(of_no_volume(trace_arc::parse(text)?)),
        Layout::Msr { block } | Layout::MsrReads { block } => Ok(of_volume(
            trace_msr::parse(text, block)?,
            layout.has_marks(),
        )),
        Layout::Oracle => Ok(of_no_volume(whole_record(text)?)),
    }
}

// What a line with a word or a record asks for, whatever its time.
#[inline(always)]
fn untimed_content(layout: Layout, text: &[u8]) -> Result<LineContent<'_>, LineKind>
    requires layout { IsLayout layout }
    requires records { is_of_records layout ≡ true → length text.now ≤ 24 }
    ensures content { named_of result ≡ untimed_content layout text.now }
    ensures range { IfOk result (λ content. IsSpan content.span) }
    ensures volume { IfOk result (λ content. IfSome content.volume (λ _. HasVolumes layout)) }
{
    match layout {
        Layout::Webcache => Ok(of_no_volume(trace_webcache::parse(text)?)),
        Layout::Oracle => Ok(of_no_volume(whole_record(text)?)),
        _ => Ok(other_content(layout, text)?),
    }
}

// What a line asks for at this time. Too few words and a quote are refused before the time, and all else after it.
fn at_time(
    time: Result<u64, NumFault>,
    said: Result<LineContent<'_>, LineKind>,
) -> Result<LineContent<'_>, LineKind>
    requires range { IfOk said (λ content. IsSpan content.span) }
    ensures content { named_of result ≡ at_time time (named_of said.entry) }
    ensures range { IfOk result (λ content. IsSpan content.span) }
    ensures volume { IfOk result (λ content. IfOk said.entry (λ before. content.volume ≡ before.volume)) }
{
    match (time, said) {
        (_, Err(LineKind::TooFewWords)) => Err(LineKind::TooFewWords),
        (_, Err(LineKind::QuoteByte)) => Err(LineKind::QuoteByte),
        (Err(_), _) => Err(LineKind::BadNumber { word: 1 }),
        (Ok(_), Err(kind)) => Err(kind),
        (Ok(time), Ok(content)) => Ok(LineContent { time, ..content }),
    }
}

// What a line with a word or a record asks for, with its time.
fn timed_content(layout: Layout, text: &[u8]) -> Result<LineContent<'_>, LineKind>
    requires layout { IsLayout layout }
    requires records { is_of_records layout ≡ true → length text.now ≤ 24 }
    ensures content { named_of result ≡ at_time (time_of layout text.now) (untimed_content layout text.now) }
    ensures range { IfOk result (λ content. IsSpan content.span) }
    ensures volume { IfOk result (λ content. IfSome content.volume (λ _. HasVolumes layout)) }
{
    at_time(time_of(layout, text), untimed_content(layout, text))
}

// What a line with a word or a record asks for. Its time is looked at only if objects expire.
#[inline(always)]
fn content_named(format: Format, text: &[u8]) -> Result<LineContent<'_>, LineKind>
    requires format { IsFormat format }
    requires records { has_records format ≡ true → length text.now ≤ 24 }
    ensures content_named { named_of result ≡ content_named format text.now }
    ensures range { IfOk result (λ content. IsSpan content.span) }
    ensures volume { IfOk result (λ content. IfSome content.volume (λ _. NamesVolumes format)) }
{
    if !format.fresh.is_timed() {
        untimed_content(format.layout, text)
    } else {
        Ok(timed_content(format.layout, text)?)
    }
}

/// What a record asks for, or the text of a line, if it has a word.
#[inline(always)]
pub(crate) fn content_of(format: Format, text: &[u8]) -> Result<Option<LineContent<'_>>, LineKind>
    requires format { IsFormat format }
    requires records { has_records format ≡ true → length text.now ≤ 24 }
    ensures content_named { answer_of result ≡ text_content format text.now }
    ensures range { IfOk result (λ found. IfSome found (λ content. IsSpan content.span)) }
    ensures volume { IfOk result (λ found. IfSome found (λ content. IfSome content.volume (λ _. NamesVolumes format))) }
{
    if format.has_records() {
        return Ok(Some(content_named(format, text)?));
    }
    let text = trim_cr(text);
    if is_blank(text) {
        return Ok(None);
    }
    Ok(Some(content_named(format, text)?))
}

/// The number of the volume of a line, which is 0 if it names none or asks for nothing.
pub(crate) fn number_of(
    volumes: &mut Volumes,
    alloc: Global,
    content: &LineContent<'_>,
) -> Result<u64, NoMemory>
    requires few { length volumes.old < 2 ^ 32 }
    ensures number { IfOk result (λ n. n ≡ number_by content.now.span volumes.old (volume_of content.now.volume)) }
    ensures volumes { OnOk result (volumes.new ≡ with_named_by content.now.span volumes.old (volume_of content.now.volume)) }
    ensures err { OnErr result (volumes.new ≡ volumes.old) }
    ensures memory { OnErr result (IsSome content.now.volume) }
    ensures something { OnErr result (content.now.span ≢ Span.Nothing) }
    ensures most { length volumes.new ≤ length volumes.old + 1 }
    ensures within { IfOk result (λ n. n ≤ length volumes.new) }
{
    if content.span == Span::Nothing {
        return Ok(0);
    }
    match content.volume {
        Some((host, disk)) => volumes.number(alloc, host, disk),
        None => Ok(0),
    }
}
