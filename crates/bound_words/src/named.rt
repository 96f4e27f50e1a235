//! Operands by their names: a name, `=` and a value.
ghost use Rattle.std.specs.Prelude.{◌≡◌, ◌≤◌, map, string_bytes};
ghost use Rattle.std.specs.Option.{option_copied};
ghost use Rattle.bound_words.specs.Named.{has_equals, name_of, place_given, value_given, value_of};

use crate::values::is;

/// Whether a word has a `=`, as an operand has.
pub fn has_equals(word: &str) -> bool
    ensures { result ≡ has_equals word.now }
{
    word.as_bytes().iter().any(|byte| *byte == b'=')
}

/// What stands before the first `=`, or the whole word.
pub fn name_of(word: &str) -> &str
    ensures { result.now ≡ name_of word.now }
{
    match word.split_once('=') {
        Some((name, _)) => name,
        None => word,
    }
}

/// What stands after the first `=`, or nothing.
pub fn value_of(word: &str) -> &str
    ensures { result.now ≡ value_of word.now }
{
    match word.split_once('=') {
        Some((_, value)) => value,
        None => "",
    }
}

/// The value that the operands give to a name.
pub fn value_given<'a>(name: &str, operands: &'a [String]) -> Option<&'a str>
    ensures { option_copied result ≡ value_given name.now (map string_bytes operands.now) }
{
    let word = operands
        .iter()
        .find(|word| is(name_of(word.as_str()), name))?;
    Some(value_of(word.as_str()))
}

/// The place of the operand of a name, if the first operand is at a place.
pub(crate) fn place_given(first: u64, name: &str, operands: &[String]) -> Option<u64>
    requires { first ≤ 10 }
    ensures { result ≡ place_given first name.now (map string_bytes operands.now) }
{
    let at = operands
        .iter()
        .position(|word| is(name_of(word.as_str()), name))?;
    Some(at as u64 + first)
}
