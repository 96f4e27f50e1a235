//! What a line asks for, and of which disk.
ghost use Rattle.std.specs.Prelude.{◌≡◌, ◌≤◌, ◌^◌, ◌==◌, IfOk};
ghost use Rattle.std.specs.List.{list_any};
ghost use Rattle.trace_lines.specs.Lines.{IsSpan};
ghost use Rattle.trace_msr.specs.Lines as lines;
ghost use Rattle.trace_msr.specs.Lines.{answer_of, line_parts};

use crate::blocks::read_span;
use crate::used::used_fields;
use bound_base::read_u64;
use memchr::memchr;
use trace_lines::{LineKind, Span};

/// What a line asks for, and of which disk of which host.
#[derive(Clone, Copy, Debug, PartialEq, Eq)]
pub struct MsrLine<'a> {
    /// The bytes as they stand in the line. There may be none.
    pub host: &'a [u8],
    pub disk: u64,
    pub span: Span,
    /// Whether its requests only fill the cache: its type is Write.
    pub fills: bool,
}

// Whether a quote stands anywhere.
fn has_quote(line: &[u8]) -> bool
    ensures { result ≡ list_any (λ byte. byte == 34) line.now }
{
    memchr(b'"', line).is_some()
}

// Whether the requests of a line of this type only fill the cache. Letters of either case are the same.
fn mark_of(text: &[u8]) -> Result<bool, LineKind>
    ensures { result ≡ lines.mark_of text.now }
{
    if text.eq_ignore_ascii_case(b"Read") {
        Ok(false)
    } else if text.eq_ignore_ascii_case(b"Write") {
        Ok(true)
    } else {
        Err(LineKind::BadType)
    }
}

/// What the line asks for in blocks of `block` bytes, and of which disk, or why it is refused. The text is without
/// its end of line, and without a CR there. Takes time in the length of the line.
#[inline(never)]
pub fn parse(line: &[u8], block: u64) -> Result<MsrLine<'_>, LineKind>
    requires { (1 ≤ block) × (block ≤ 2 ^ 48) }
    ensures parts { answer_of result ≡ line_parts block line.now }
    ensures range { IfOk result (λ read. IsSpan read.span) }
{
    if has_quote(line) {
        return Err(LineKind::QuoteByte);
    }
    let Some(used) = used_fields(line) else {
        return Err(LineKind::TooFewWords);
    };
    let Ok(disk) = read_u64(used.disk) else {
        return Err(LineKind::BadNumber { word: 3 });
    };
    let fills = mark_of(used.action)?;
    let span = read_span(used.offset, used.size, block)?;
    Ok(MsrLine {
        host: used.host,
        disk,
        span,
        fills,
    })
}
