//! Numbers of a certificate.
ghost use Rattle.std.specs.Prelude.{◌≡◌, ◌^◌, ◌≤◌, true, length, IfSome};
ghost use Rattle.std.specs.Char.{is_ascii_digit};
ghost use Rattle.std.specs.List.{list_all};
ghost use Rattle.bound_base.specs.Digits.{number_of, value_after};
ghost use Rattle.cert_format.specs.Grammar.{Within, number_fault, number_in, value_unless};

use crate::fault::TextKind;
use bound_base::{NumFault, read_u128};

/// The number of a word, from `low` to `high`. It has no leading zero.
pub fn number(word: &[u8], low: u128, high: u128) -> Result<u128, TextKind>
    ensures { result ≡ value_unless (number_fault (Within low high) word.now) (number_in word.now) }
{
    if word.len() > 1 && word[0] == b'0' {
        return Err(TextKind::Number);
    }
    let value = read_u128(word)?;
    if value < low || high < value {
        return Err(TextKind::Range);
    }
    Ok(value)
}
