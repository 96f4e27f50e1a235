//! Fields, which stand between commas.
ghost use Rattle.std.specs.Prelude.{◌≡◌, ◌∷◌, [], ◌-◌, ◌≤◌, slice_get, MatchOption};
ghost use Rattle.std.specs.Option.{option_copied};
ghost use Rattle.trace_lines.specs.Lines.{fields};

use memchr::memchr;

// The first field and what stands after its comma, or None if there is no comma.
fn cut_at_comma(text: &[u8]) -> Option<(&[u8], &[u8])>
    ensures { MatchOption result (fields text.now ≡ text.now ∷ []) (λ parts. fields text.now ≡ parts.0.now ∷ fields parts.1.now) }
{
    let comma = memchr(b',', text)?;
    let (first, _) = text.split_at(comma);
    let (_, rest) = text.split_at(comma + 1);
    Some((first, rest))
}

/// The first field, and what stands after its comma if it has one. Takes time in the length of the field.
pub fn first_field(line: &[u8]) -> (&[u8], Option<&[u8]>)
    ensures { MatchOption result.1 (fields line.now ≡ result.0.now ∷ []) (λ rest. fields line.now ≡ result.0.now ∷ fields rest.now) }
{
    match cut_at_comma(line) {
        Some((first, rest)) => (first, Some(rest)),
        None => (line, None),
    }
}

/// The field with this number, counted from 1, or None if there are fewer. Empty fields count. Takes time in the
/// bytes up to its end.
pub fn field(line: &[u8], number: usize) -> Option<&[u8]>
    requires { 1 ≤ number }
    ensures { option_copied result ≡ slice_get (fields line.now) (number - 1) }
{
    let mut rest = line;
    for _place in 1..number {
        let (_, others) = cut_at_comma(rest)?;
        rest = others;
    }
    match cut_at_comma(rest) {
        Some((found, _)) => Some(found),
        None => Some(rest),
    }
}
