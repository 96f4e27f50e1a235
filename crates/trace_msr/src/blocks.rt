//! The blocks that a range of bytes touches.
ghost use Rattle.std.specs.Prelude.{◌≡◌, ◌≤◌, ◌^◌, IfOk};
ghost use Rattle.bound_base.specs.Digits.{number_of};
ghost use Rattle.trace_lines.specs.Lines.{IsSpan};
ghost use Rattle.trace_msr.specs.Lines.{blocks_of, span_of};

use bound_base::read_u64;
use trace_lines::{LineKind, Span};

// The blocks of a range of bytes. There are at most as many as bytes, so that their number fits.
fn touched(offset: u64, size: u64, block: u64) -> Result<Span, LineKind>
    requires { (1 ≤ block) × (block ≤ 2 ^ 48) }
    ensures span { result ≡ blocks_of block offset size }
    ensures range { IfOk result (λ s. IsSpan s) }
{
    if size == 0 {
        return Ok(Span::Nothing);
    }
    let Some(end) = offset.checked_add(size - 1) else {
        return Err(LineKind::BadRange);
    };
    let first = offset / block;
    let last = end / block;
    Ok(Span::Blocks {
        first,
        count: last - first + 1,
        size: block,
    })
}

/// The blocks of a range whose offset and size are written in decimal digits.
pub(crate) fn read_span(offset: &[u8], size: &[u8], block: u64) -> Result<Span, LineKind>
    requires { (1 ≤ block) × (block ≤ 2 ^ 48) }
    ensures span { result ≡ span_of block (number_of (2 ^ 64) offset.now) (number_of (2 ^ 64) size.now) }
    ensures range { IfOk result (λ s. IsSpan s) }
{
    let Ok(offset) = read_u64(offset) else {
        return Err(LineKind::BadNumber { word: 5 });
    };
    let Ok(size) = read_u64(size) else {
        return Err(LineKind::BadNumber { word: 6 });
    };
    touched(offset, size, block)
}
