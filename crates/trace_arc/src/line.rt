//! What a line asks for.
ghost use Rattle.std.specs.Prelude.{◌≡◌, ◌≤◌, ◌↔◌, [], length, slice_index_or, IsSome, IfSome, IfOk};
ghost use Rattle.trace_lines.specs.Lines.{words, IsSpan};
ghost use Rattle.trace_arc.specs.Lines.{blocks_of, line_span};

use bound_base::read_u64;
use trace_lines::{LineKind, Span, first_word};

/// The bytes of a block.
const BLOCK_SIZE: u64 = 512;

// The first and the second word, or None if there are fewer.
fn first_and_count(line: &[u8]) -> Option<(&[u8], &[u8])>
    ensures enough { IsSome result ↔ (2 ≤ length (words line.now)) }
    ensures first { IfSome result (λ found. found.0.now ≡ slice_index_or (words line.now) 0 []) }
    ensures count { IfSome result (λ found. found.1.now ≡ slice_index_or (words line.now) 1 []) }
{
    let (first, from_count) = first_word(line)?;
    let (count, _) = first_word(from_count)?;
    Some((first, count))
}

// The blocks from the first on.
fn blocks(first: u64, count: u64) -> Result<Span, LineKind>
    ensures span { result ≡ blocks_of first count }
    ensures range { IfOk result (λ s. IsSpan s) }
{
    if count == 0 {
        return Ok(Span::Nothing);
    }
    if first.checked_add(count - 1).is_none() {
        return Err(LineKind::BadRange);
    }
    Ok(Span::Blocks {
        first,
        count,
        size: BLOCK_SIZE,
    })
}

/// What the line asks for, or why it is refused. The text is without its end of line, and without a CR there. Takes
/// time in the bytes up to the end of the second word.
#[inline(never)]
pub fn parse(line: &[u8]) -> Result<Span, LineKind>
    ensures span { result ≡ line_span line.now }
    ensures range { IfOk result (λ s. IsSpan s) }
{
    let Some((first, count)) = first_and_count(line) else {
        return Err(LineKind::TooFewWords);
    };
    let Ok(first) = read_u64(first) else {
        return Err(LineKind::BadNumber { word: 1 });
    };
    let Ok(count) = read_u64(count) else {
        return Err(LineKind::BadNumber { word: 2 });
    };
    blocks(first, count)
}
