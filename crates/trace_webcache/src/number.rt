//! Words that are numbers.
ghost use Rattle.std.specs.Prelude.{◌≡◌, [], MatchOption};
ghost use Rattle.trace_lines.specs.Lines.{words};
ghost use Rattle.trace_webcache.specs.Lines.{IsFirstNumber};

use bound_base::{NumFault, leading_digits, read_u64};
use trace_lines::{ends_word, first_word, skip_gaps};

// The number that the first word is, whatever the word.
#[inline(never)]
fn any_number(line: &[u8]) -> Option<(Result<u64, NumFault>, &[u8])>
    ensures { MatchOption result (words line.now ≡ []) (λ found. IsFirstNumber line.now found.0 found.1.now) }
{
    let (word, rest) = first_word(line)?;
    Some((read_u64(word), rest))
}

/// The number that the first word is, or why it is none, and what stands after the word; None if there is no word.
///
/// It goes once over a word of few digits, and up to four times over any other.
#[inline(always)]
pub(crate) fn first_number(line: &[u8]) -> Option<(Result<u64, NumFault>, &[u8])>
    ensures { MatchOption result (words line.now ≡ []) (λ found. IsFirstNumber line.now found.0 found.1.now) }
{
    let text = skip_gaps(line);
    let (value, len) = leading_digits(text);
    let (_, rest) = text.split_at(len);
    if len > 0 && ends_word(rest) {
        return Some((Ok(value), rest));
    }
    any_number(line)
}
