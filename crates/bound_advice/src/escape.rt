//! Text of a stranger, as a terminal and a shell may have it.
ghost use Rattle.std.specs.Prelude.{◌≡◌, ◌%◌, ◌++◌, true, IfOk, OnOk, string_bytes};
ghost use Rattle.std.specs.Char.{digit_char};
ghost use Rattle.std.specs.List.{list_all};
ghost use Rattle.std.specs.Str.{encode_utf8_all};
ghost use Rattle.bound_advice.specs.Shell.{is_plain, is_plain_word, quoted_letter, quoted_word, shell_word};
ghost use Rattle.bound_advice.specs.Shown.{IsShown, is_hidden, shown_letter, shown_text, two_digits};

use std::alloc::{AllocError, Global};

// The last digit of a number to the base 16.
fn digit_of(value: u32) -> char
    ensures { result ≡ digit_char (value % 16) }
{
    let digit = (value % 16) as u8;
    if digit < 10 {
        char::from(b'0' + digit)
    } else {
        char::from(b'a' + (digit - 10))
    }
}

// Appends the last two digits of a code.
fn push_digits(text: &mut String, code: u32) -> Result<(), AllocError>
    ensures { OnOk result (string_bytes text.new ≡ string_bytes text.old ++ encode_utf8_all (two_digits code)) }
{
    text.push(digit_of(code / 16))?;
    text.push(digit_of(code))
}

// Appends the code of a letter that is hidden.
fn push_code(text: &mut String, letter: char) -> Result<(), AllocError>
    requires { is_hidden letter ≡ true }
    ensures { OnOk result (string_bytes text.new ≡ string_bytes text.old ++ encode_utf8_all (shown_letter letter)) }
{
    let code = letter as u32;
    if code < 256 {
        text.push_str("\\x")?;
    } else {
        text.push_str("\\u")?;
        push_digits(text, code / 256)?;
    }
    push_digits(text, code)
}

// Whether a terminal obeys a letter and doesn't show it.
fn is_hidden(letter: char) -> bool
    ensures { result ≡ is_hidden letter }
{
    let code = letter as u32;
    letter.is_control()
        || code == 0x61c
        || (0x200e..=0x200f).contains(&code)
        || (0x2028..=0x202e).contains(&code)
        || (0x2066..=0x2069).contains(&code)
}

// Appends a letter as it is shown.
fn push_shown(text: &mut String, letter: char) -> Result<(), AllocError>
    ensures { OnOk result (string_bytes text.new ≡ string_bytes text.old ++ encode_utf8_all (shown_letter letter)) }
{
    if is_hidden(letter) {
        push_code(text, letter)
    } else {
        text.push(letter)
    }
}

/// A text in which each letter that a terminal obeys, as a control character or one that turns the direction of the text,
/// stands as `\x` or `\u` and the digits of its code, so that it can't move the cursor, set a title or forge a line.
pub fn escaped(alloc: Global, text: &str) -> Result<String, AllocError>
    ensures letters { IfOk result (λ shown. string_bytes shown ≡ shown_text text.now) }
    ensures none_hidden { IfOk result (λ shown. IsShown (string_bytes shown)) }
{
    let mut shown = String::with_capacity(alloc, text.len())?;
    for letter in text.chars() {
        push_shown(&mut shown, letter)?;
    }
    Ok(shown)
}

// Whether a shell takes a byte as it stands.
fn is_plain(byte: u8) -> bool
    ensures { result ≡ is_plain byte }
{
    byte.is_ascii_alphanumeric() || b"_./+-".contains(&byte)
}

// Whether a shell takes each of these bytes as it stands.
fn are_plain(bytes: &[u8]) -> bool
    ensures { result ≡ list_all is_plain bytes.now }
{
    bytes.iter().all(|byte| is_plain(*byte))
}

// Whether a shell takes a word as it stands. It drops an empty one.
fn is_plain_word(word: &str) -> bool
    ensures { result ≡ is_plain_word word.now }
{
    !word.is_empty() && are_plain(word.as_bytes())
}

// Appends a letter that stands between single quotes.
fn push_quoted(text: &mut String, letter: char) -> Result<(), AllocError>
    ensures { OnOk result (string_bytes text.new ≡ string_bytes text.old ++ quoted_letter letter) }
{
    if letter == '\'' {
        text.push_str("'\\''")
    } else {
        text.push(letter)
    }
}

// A word between single quotes.
fn quoted_word(alloc: Global, word: &str) -> Result<String, AllocError>
    ensures { IfOk result (λ quoted. string_bytes quoted ≡ quoted_word word.now) }
{
    let mut quoted = String::from_str(alloc, "'")?;
    for letter in word.chars() {
        push_quoted(&mut quoted, letter)?;
    }
    quoted.push_str("'")?;
    Ok(quoted)
}

/// A path as a shell has to be given it, in single quotes if it is empty or has other bytes than letters, digits and
/// `_./+-`.
pub fn quoted(alloc: Global, path: &str) -> Result<String, AllocError>
    ensures { IfOk result (λ quoted. string_bytes quoted ≡ shell_word path.now) }
{
    if is_plain_word(path) {
        String::from_str(alloc, path)
    } else {
        quoted_word(alloc, path)
    }
}

/// The first 60 bytes of a word of a file, of which those that are no letter, digit or sign stand as `\x` and two digits.
pub(crate) fn shown(alloc: Global, word: &[u8]) -> Result<String, AllocError> {
    let mut text = String::new(alloc);
    for byte in word.iter().take(60) {
        let byte = *byte;
        if byte.is_ascii_graphic() || byte == b' ' {
            text.push(char::from(byte))?;
        } else {
            write!(text, "\\x{byte:02x}")?;
        }
    }
    if word.len() > 60 {
        text.push_str("..")?;
    }
    Ok(text)
}
