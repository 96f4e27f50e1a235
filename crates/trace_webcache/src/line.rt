//! What a line asks for.
ghost use Rattle.std.specs.Prelude.{◌≡◌, ◌≤◌, ◌^◌, ◌↔◌, [], drop, length, slice_index_or, IsSome, IfSome, IfOk};
ghost use Rattle.bound_base.specs.Digits.{number_of};
ghost use Rattle.trace_lines.specs.Lines.{words, IsSpan};
ghost use Rattle.trace_webcache.specs.Lines.{line_span, mark_of, marked_span, span_of};

use crate::number::first_number;
use bound_base::NumFault;
use trace_lines::{LineKind, Span, first_word};

/// The bytes that an object may have.
const MOST_SIZE: u64 = 1 << 48;

/// What a line with a mark asks for, and whether its request only fills the cache.
#[derive(Clone, Copy, Debug, PartialEq, Eq)]
pub struct MarkedSpan {
    pub span: Span,
    pub fills: bool,
}

// The numbers that the second and the third word are, and what stands after them.
#[derive(Clone, Copy)]
struct UsedWords<'a> {
    id: Result<u64, NumFault>,
    size: Result<u64, NumFault>,
    rest: &'a [u8],
}

// The numbers of a line, or None if there are fewer than three words.
#[inline(always)]
fn used_words(line: &[u8]) -> Option<UsedWords<'_>>
    ensures enough { IsSome result ↔ (3 ≤ length (words line.now)) }
    ensures id { IfSome result (λ found. found.id ≡ number_of (2 ^ 64) (slice_index_or (words line.now) 1 [])) }
    ensures size { IfSome result (λ found. found.size ≡ number_of (2 ^ 64) (slice_index_or (words line.now) 2 [])) }
    ensures rest { IfSome result (λ found. words found.rest.now ≡ drop 3 (words line.now)) }
{
    let (_, from_id) = first_word(line)?;
    let (id, from_size) = first_number(from_id)?;
    let (size, rest) = first_number(from_size)?;
    Some(UsedWords { id, size, rest })
}

// What an id and a size ask for.
#[inline(always)]
fn span_of(id: Result<u64, NumFault>, size: Result<u64, NumFault>) -> Result<Span, LineKind>
    ensures span { result ≡ span_of id size }
    ensures range { IfOk result (λ s. IsSpan s) }
{
    let Ok(id) = id else {
        return Err(LineKind::BadNumber { word: 2 });
    };
    let Ok(size) = size else {
        return Err(LineKind::BadNumber { word: 3 });
    };
    if size > MOST_SIZE {
        return Err(LineKind::SizeTooLarge);
    }
    if size == 0 {
        Ok(Span::Nothing)
    } else {
        Ok(Span::One { id, size })
    }
}

// Whether a request with this mark only fills the cache.
fn mark_of(mark: &[u8]) -> Result<bool, LineKind>
    ensures { result ≡ mark_of mark.now }
{
    match mark {
        [b'r'] => Ok(false),
        [b'w'] => Ok(true),
        _ => Err(LineKind::BadType),
    }
}

/// What the line asks for, or why it is refused. The text is without its end of line, and without a CR there. Takes
/// time in the bytes up to the end of the third word.
#[inline(never)]
pub fn parse(line: &[u8]) -> Result<Span, LineKind>
    ensures span { result ≡ line_span line.now }
    ensures range { IfOk result (λ s. IsSpan s) }
{
    let Some(used) = used_words(line) else {
        return Err(LineKind::TooFewWords);
    };
    span_of(used.id, used.size)
}

/// What the line asks for by its mark, the fourth word, or why it is refused. The text is as that of `parse`. Takes
/// time in the bytes up to the end of the fourth word.
#[inline(never)]
pub fn parse_marked(line: &[u8]) -> Result<MarkedSpan, LineKind>
    ensures span { result ≡ marked_span line.now }
    ensures range { IfOk result (λ read. IsSpan read.span) }
{
    let Some(used) = used_words(line) else {
        return Err(LineKind::TooFewWords);
    };
    let Some((mark, _)) = first_word(used.rest) else {
        return Err(LineKind::TooFewWords);
    };
    let span = span_of(used.id, used.size)?;
    let fills = mark_of(mark)?;
    Ok(MarkedSpan { span, fills })
}
