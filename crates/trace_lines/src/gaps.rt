//! Words, which stand apart by spaces and tabs.
ghost use Rattle.std.specs.Prelude.{◌≡◌, ◌∷◌, [], ◌-◌, ◌<◌, ◌≤◌, ◌++◌, ◌==◌, ◌||◌, not, drop, length};
ghost use Rattle.std.specs.Prelude.{position, slice_get, slice_index_or, MatchOption, IfSome};
ghost use Rattle.std.specs.List.{position_or_len};
ghost use Rattle.std.specs.Option.{option_copied};
ghost use Rattle.trace_lines.specs.Lines as lines;
ghost use Rattle.trace_lines.specs.Lines.{EndsIn, is_gap, words};

fn is_gap_byte(byte: u8) -> bool
    ensures { result ≡ is_gap byte }
{
    byte == b' ' || byte == b'\t'
}

// The place of the first byte of a word.
fn word_start(text: &[u8]) -> Option<usize>
    ensures { result ≡ position (λ byte. not (is_gap byte)) text.now }
{
    text.iter().position(|byte| !is_gap_byte(*byte))
}

// The place of the first gap.
fn first_gap(text: &[u8]) -> Option<usize>
    ensures { result ≡ position is_gap text.now }
{
    text.iter().position(|byte| is_gap_byte(*byte))
}

/// The text from its first word on. Takes time in the gaps before it.
pub fn skip_gaps(line: &[u8]) -> &[u8]
    ensures words { words result.now ≡ words line.now }
    ensures from { result.now ≡ drop (position_or_len (λ byte. not (is_gap byte)) line.now) line.now }
{
    let start = word_start(line).unwrap_or(line.len());
    let (_, text) = line.split_at(start);
    text
}

/// Whether a word that stands right before these bytes ends there.
pub fn ends_word(after: &[u8]) -> bool
    ensures { result ≡ (length after.now == 0 || is_gap (slice_index_or after.now 0 0)) }
{
    match after.first() {
        Some(byte) => is_gap_byte(*byte),
        None => true,
    }
}

/// The first word and what stands after it, or None if there is no word. Takes time in the length of the word
/// and of the gaps before it.
pub fn first_word(line: &[u8]) -> Option<(&[u8], &[u8])>
    ensures words { MatchOption result (words line.now ≡ []) (λ parts. words line.now ≡ parts.0.now ∷ words parts.1.now) }
    ensures after { IfSome result (λ parts. EndsIn line.now (parts.0.now ++ parts.1.now)) }
    ensures shorter { IfSome result (λ parts. length parts.1.now < length line.now) }
{
    let start = word_start(line)?;
    let (_, text) = line.split_at(start);
    let end = first_gap(text).unwrap_or(text.len());
    let (first, rest) = text.split_at(end);
    Some((first, rest))
}

/// The word with this number, counted from 1, or None if there are fewer. Takes time in the bytes up to its end.
pub fn word(line: &[u8], number: usize) -> Option<&[u8]>
    requires { 1 ≤ number }
    ensures { option_copied result ≡ slice_get (words line.now) (number - 1) }
{
    let mut rest = line;
    for _place in 1..number {
        let (_, others) = first_word(rest)?;
        rest = others;
    }
    let (found, _) = first_word(rest)?;
    Some(found)
}

/// Whether the line has no word.
pub fn is_blank(line: &[u8]) -> bool
    ensures { result ≡ lines.is_blank line.now }
{
    line.iter().all(|byte| is_gap_byte(*byte))
}
